//! Images from the tables that their fields gave.
#![tactic(auto)]

pub mod image;
pub mod params;

pub use image::image_of;
pub use params::params_of;
