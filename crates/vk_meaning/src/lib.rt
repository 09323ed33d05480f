//! The scalar meaning of the whole language: what a call of a function of some units gives, and what a program prints.
//!
//! `specs/` has it as functions on trees, over plain numbers: a program's arrays and memory (`World.antt`), values and pointers
//! (`Data.antt`), scopes as the rules of units have them (`Points.antt`), expressions, statements, units that are joined by names
//! (`Programs.antt`), calls and the reading of a program (`Meaning.antt`), and what a call on several lanes has to meet and gives
//! (`Lanes.antt`, `LaneWise.antt`). No masks, lane code or images are in it.
#![tactic(auto)]

pub mod reading;

pub use reading::{Reading, RunFail};
