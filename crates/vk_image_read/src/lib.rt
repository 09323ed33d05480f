//! Reads an image field by field.
#![tactic(auto)]

pub mod array;
pub mod entry;
pub mod image;

pub use array::ArrayFeed;
pub use entry::EntryFeed;
pub use image::ImageFields;
