//! What holds of the tables of objects: those that are read are those of an object.
#![tactic(auto)]

pub mod laws;
