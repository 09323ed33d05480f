//! Bytes that come in pieces, by any table of fields.
#![tactic(auto)]

pub mod fields;
pub mod pieces;

pub use fields::Fields;
pub use pieces::Pieces;
