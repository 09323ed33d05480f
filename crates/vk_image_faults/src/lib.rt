//! What is judged once the last field of an image is complete: `main`, the codes, the entries by their codes, and the chains of calls.
#![tactic(auto)]

pub mod cells;
pub mod chains;
pub mod codes;
pub mod ends;
pub mod entries;
pub mod lengths;
pub mod links;
pub mod names;
pub mod types;

pub use ends::image_faults;
