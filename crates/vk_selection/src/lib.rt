//! What a name selects in a unit that is called with a letter: a variant, or the scalar code of a function with directives.
#![tactic(auto)]

pub mod definitions;
pub mod laws;
pub mod letters;
pub mod params;
pub mod selection;
pub mod variants;

pub use letters::{target_of, uses};
pub use selection::{Selected, Variant, selected_in};
