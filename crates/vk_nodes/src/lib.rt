//! Makers of nodes: expressions and statements on the heap, which contracts see as their trees.
#![tactic(auto)]

pub mod expressions;
pub mod items;
pub mod lists;
pub mod start;
pub mod statements;

pub use expressions::{ExprBox, ExprList};
pub use items::{DirectiveList, ItemList};
pub use lists::append;
pub use start::Start;
pub use statements::{StmtBox, StmtList};
pub use vk_memory::Memory;
