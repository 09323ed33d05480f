//! One call, on lanes, of the function of a unit that is one function of one `return`.
#![tactic(auto)]

pub mod calling;
pub mod running;

pub use calling::call;
pub use running::Results;
