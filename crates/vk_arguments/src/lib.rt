//! The arguments of a direct call on lanes: from the texts of a mask and of arguments to a mask and words, or the first rule that
//! they break.
#![tactic(auto)]

pub mod arguments;
pub mod bits;
pub mod fitting;
pub mod laws;
pub mod passed;
pub mod rows;
pub mod values;

pub use arguments::{Arguments, NoArguments, arguments_of};
pub use passed::Callee;
pub use values::{Integers, Values};
