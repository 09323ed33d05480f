//! Shapes of arguments: how the words of an argument hang together over the lanes, as the code that makes the call knows it.
//!
//! Contracts name the definitions of `vk_sites` (`specs/Shapes.antt`).
#![tactic(auto)]

pub mod expression;
pub mod shapes;
pub mod typing;
pub mod view;

pub use expression::{Shaped, argument_shape, read, shape_of};
pub use view::View;
