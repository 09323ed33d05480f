//! The rules on the items of a unit: C8, C11, C12, C13, C16, C17, C18 and D12, and C8 to C10 and C16 of the expressions in the
//! lengths and initialisers of objects.
#![tactic(auto)]

mod costs;
mod functions;
mod items;
mod lengths;
mod objects;
mod redeclarations;
mod seen;
mod sizes;
mod survey;
mod tables;
mod types;

pub use items::judge_items;
