//! What holds of the tables of images: those that are read are those of an image.
#![tactic(auto)]

pub mod laws;
