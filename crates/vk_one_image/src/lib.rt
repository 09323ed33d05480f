//! Images of one entry, for a call of one function alone.
#![tactic(auto)]

pub mod image;
pub mod params;

pub use image::one_image;
