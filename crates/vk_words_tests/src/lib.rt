//! Words of command lines with what they ask, or the rule that they break.
#![tactic(auto)]

#[cfg(test)]
mod tests;
