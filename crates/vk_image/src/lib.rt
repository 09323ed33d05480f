//! Images from tables: which tables are those of an image.
#![tactic(auto)]

pub mod arrays;
pub mod cells;
pub mod chains;
pub mod codes;
pub mod header;
pub mod image;
pub mod kinds;
pub mod links;
pub mod rows;
pub mod types;

pub use image::image_of;
