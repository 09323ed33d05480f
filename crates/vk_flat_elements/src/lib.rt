//! Assignments to elements of memory, as lane code.
#![tactic(auto)]

pub mod assigning;
