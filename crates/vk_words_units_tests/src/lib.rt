//! Words of the commands over units and of the generator with what they ask, or the rule that they break.
#![tactic(auto)]

#[cfg(test)]
mod tables;
#[cfg(test)]
mod tests;
