//! The words of the commands over units, `clone`, `read` and `all`, of `lanes` with a mask and turns, and of the generator `gen`:
//! what they ask, by the tables of `vk_words`.
#![tactic(auto)]

pub mod clone;
pub mod generator;
pub mod lanes;
pub mod units;
pub mod values;

pub use clone::{CloneRequest, clone_of};
pub use generator::{GenRequest, gen_of};
pub use lanes::{LanesRequest, lanes_of};
pub use units::{UnitsRequest, units_of};
