//! Pointers in registers: loads, stores and moved pointers, appended by an emitter.
#![tactic(auto)]

pub mod homes;
pub mod moving;

pub use homes::{Home, Named, Pointer};
