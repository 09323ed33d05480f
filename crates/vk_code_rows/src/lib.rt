//! Rows of code that are whole: the code that they stand for, its first bad part, and where each part begins.
#![tactic(auto)]

pub mod faults;
pub mod make;
pub mod places;
