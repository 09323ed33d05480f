//! Tests of the reading and writing of names.
#![tactic(auto)]

#[cfg(test)]
mod tests;
