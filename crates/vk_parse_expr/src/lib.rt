//! The reader of expressions (C17 6.5): from tokens to a tree, or to the place of the fault.
#![tactic(auto)]

pub mod fail;
pub mod nodes;
pub mod read;
mod reader;
pub mod signs;
pub mod steps;
pub mod words;

pub use fail::{Read, ReadFail};
pub use nodes::High;
pub use read::{read_expr, read_full, read_onwards, read_unary};
pub use vk_nodes::Start;
