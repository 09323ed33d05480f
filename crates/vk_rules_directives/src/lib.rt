//! The rules on directives of functions.
#![tactic(auto)]

pub mod clauses;
pub mod directives;
pub mod entries;
pub mod items;
pub mod joins;
pub mod listing;
pub mod names;
pub mod params;
pub mod redeclarations;
pub mod signed;
pub mod steps;
pub mod whole;

pub use items::judge_directives;
