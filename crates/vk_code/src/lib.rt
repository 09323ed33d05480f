//! Lane code: the instructions that a lane machine runs, and which code is valid.
#![tactic(auto)]

pub mod blocks;
pub mod code;
pub mod env;
pub mod instruction;
pub mod opcode;
pub mod operations;
pub mod parts;
pub mod types;
pub mod validity;

pub use code::{Body, Code, Guard, LoopSite, Shape, Slot, SlotArg};
pub use env::{Env, FunctionHead, ObjectHead};
pub use instruction::{Instr, Operation};
pub use opcode::{Fields, Opcode, UnknownOpcode};
pub use validity::{CodeFault, validate};
