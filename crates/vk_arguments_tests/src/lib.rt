//! Calls with pointers: the words of their arguments, or the rule that they break.
#![tactic(auto)]

#[cfg(test)]
mod calls;
#[cfg(test)]
mod tables;
#[cfg(test)]
mod tests;
