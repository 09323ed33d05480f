//! The settings that an image gives to the codes of units: a caller's object tells of a called function what its definition says, the
//! entry that is called does what the call means, and so a code does there what its maker promised.
#![tactic(auto)]

pub mod laws;
