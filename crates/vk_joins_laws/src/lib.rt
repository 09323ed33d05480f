//! What holds of images that join objects of accepted units: their arrays, and how deep their calls are.
#![tactic(auto)]

pub mod laws;
