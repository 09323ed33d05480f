//! What names mean at each place of a unit, and the first fault that was found.
#![tactic(auto)]

pub mod first;
pub mod known;
pub mod note;

pub use first::{declare_next, first_declarations, no_declarations};
pub use known::{Known, Place, Scopes};
pub use note::{Note, fault_at, fault_with};
