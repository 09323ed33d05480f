//! Which directives a function of an object may have, judged on their rows.
#![tactic(auto)]

pub mod directives;
pub mod names;

pub use directives::is_directive_after;
