//! Formats of bytes: tables of fields, from which writing, reading and the order of judging follow.
#![tactic(auto)]

pub mod fields;
pub mod items;
pub mod laws;
pub mod rules;

pub use items::Items;
pub use rules::{ObjectFail, ObjectFault, ObjectRule};
