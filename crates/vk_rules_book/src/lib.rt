//! The rules of a unit from C8 on: what each one refuses, and where.
//!
//! `specs/` has them as definitions on trees: the visits of a unit (`Visits.antt`), the faults of each kind of visit
//! (`Expressions.antt`, `Statements.antt`, `Directives.antt`, `Items.antt`), and the first of all (`Rules.antt`).
#![tactic(auto)]

pub mod contexts;
pub mod faults;
pub mod laws;
pub mod lists;
pub mod typings;

pub use contexts::{Around, Binding, Role};
pub use faults::Fault;
pub use lists::{Entry, Listed};
pub use typings::Typing;
