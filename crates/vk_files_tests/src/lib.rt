//! Tests of reading inputs and writing a file, over stores in memory whose calls fail.
#![tactic(auto)]

#[cfg(test)]
mod tests;
