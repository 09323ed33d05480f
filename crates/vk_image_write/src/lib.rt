//! Writes images.
#![tactic(auto)]

pub mod arrays;
pub mod entries;
pub mod image;

pub use image::write_image;
