//! Images from bytes, in pieces or at once.
#![tactic(auto)]

pub mod feed;
pub mod read;
pub mod rows;

pub use feed::ImageFeed;
pub use read::read_image;
