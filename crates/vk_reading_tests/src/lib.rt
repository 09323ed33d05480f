//! Tests of the parts of the reader that take memory.
#![tactic(auto)]

#[cfg(test)]
mod tests;
