//! From the bytes of a unit to an accepted unit, for the commands that read units.
#![tactic(auto)]

pub mod accepting;
pub mod laws;

pub use accepting::{NoUnit, accepted_of};
