//! When the entries of a function in an image do what the function means.
#![tactic(auto)]
