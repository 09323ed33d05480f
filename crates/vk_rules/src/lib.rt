//! The rules of a unit from C8 on: `check`, what it tells of an accepted unit, and the vector names of a unit.
#![tactic(auto)]

pub mod accepted;
pub mod entries;
pub mod fail;
pub mod judging;
pub mod listing;

pub use accepted::{Checked, Source};
pub use fail::CheckFail;
pub use judging::check;
pub use listing::names;
