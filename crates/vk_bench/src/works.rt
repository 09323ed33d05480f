// The code of each work.

use vk_code::Opcode;
use vk_code::Opcode::*;

/// An instruction: its name, the number of a type, a mask, the register or mask that it writes, its first operand and its immediate.
pub type Line = (Opcode, u8, u16, u16, u16, u64);

/// The part x of an immediate.
pub const X: u64 = 1 << 32;

/// What a chunk does.
#[derive(Clone, Copy, PartialEq, Eq)]
pub enum Work {
    Add,
    Masked,
    Calls,
}

impl Work {
    /// The work with this name.
    pub fn named(name: &str) -> Option<Work> {
        match name {
            "add" => Some(Work::Add),
            "masked" => Some(Work::Masked),
            "calls" => Some(Work::Calls),
            _ => None,
        }
    }

    /// The body of the simd loop. Register 0 is the iteration's number, 1 a pointer to the sums, 2 the lane's number, 3 an int, 4 a
    /// sum, 5 and 6 are constants. It begins with the sum of its lane and ends as it is stored.
    pub fn body(self) -> &'static [Line] {
        match self {
            Work::Add => &ADD,
            Work::Masked => &MASKED,
            Work::Calls => &CALLS,
        }
    }
}

/// Adds a number to the sum 64 times.
static ADD: [Line; 69] = [
    (Lane, 0, 0, 2, 0, 0),
    (PtrAdd, 0, 0, 1, 1, 2),
    (Load, 0, 0, 4, 1, 0),
    (Convert, 0, 0, 3, 0, 0),
    (Binary, 2, 0, 4, 4, 3),
    (Binary, 2, 0, 4, 4, 3),
    (Binary, 2, 0, 4, 4, 3),
    (Binary, 2, 0, 4, 4, 3),
    (Binary, 2, 0, 4, 4, 3),
    (Binary, 2, 0, 4, 4, 3),
    (Binary, 2, 0, 4, 4, 3),
    (Binary, 2, 0, 4, 4, 3),
    (Binary, 2, 0, 4, 4, 3),
    (Binary, 2, 0, 4, 4, 3),
    (Binary, 2, 0, 4, 4, 3),
    (Binary, 2, 0, 4, 4, 3),
    (Binary, 2, 0, 4, 4, 3),
    (Binary, 2, 0, 4, 4, 3),
    (Binary, 2, 0, 4, 4, 3),
    (Binary, 2, 0, 4, 4, 3),
    (Binary, 2, 0, 4, 4, 3),
    (Binary, 2, 0, 4, 4, 3),
    (Binary, 2, 0, 4, 4, 3),
    (Binary, 2, 0, 4, 4, 3),
    (Binary, 2, 0, 4, 4, 3),
    (Binary, 2, 0, 4, 4, 3),
    (Binary, 2, 0, 4, 4, 3),
    (Binary, 2, 0, 4, 4, 3),
    (Binary, 2, 0, 4, 4, 3),
    (Binary, 2, 0, 4, 4, 3),
    (Binary, 2, 0, 4, 4, 3),
    (Binary, 2, 0, 4, 4, 3),
    (Binary, 2, 0, 4, 4, 3),
    (Binary, 2, 0, 4, 4, 3),
    (Binary, 2, 0, 4, 4, 3),
    (Binary, 2, 0, 4, 4, 3),
    (Binary, 2, 0, 4, 4, 3),
    (Binary, 2, 0, 4, 4, 3),
    (Binary, 2, 0, 4, 4, 3),
    (Binary, 2, 0, 4, 4, 3),
    (Binary, 2, 0, 4, 4, 3),
    (Binary, 2, 0, 4, 4, 3),
    (Binary, 2, 0, 4, 4, 3),
    (Binary, 2, 0, 4, 4, 3),
    (Binary, 2, 0, 4, 4, 3),
    (Binary, 2, 0, 4, 4, 3),
    (Binary, 2, 0, 4, 4, 3),
    (Binary, 2, 0, 4, 4, 3),
    (Binary, 2, 0, 4, 4, 3),
    (Binary, 2, 0, 4, 4, 3),
    (Binary, 2, 0, 4, 4, 3),
    (Binary, 2, 0, 4, 4, 3),
    (Binary, 2, 0, 4, 4, 3),
    (Binary, 2, 0, 4, 4, 3),
    (Binary, 2, 0, 4, 4, 3),
    (Binary, 2, 0, 4, 4, 3),
    (Binary, 2, 0, 4, 4, 3),
    (Binary, 2, 0, 4, 4, 3),
    (Binary, 2, 0, 4, 4, 3),
    (Binary, 2, 0, 4, 4, 3),
    (Binary, 2, 0, 4, 4, 3),
    (Binary, 2, 0, 4, 4, 3),
    (Binary, 2, 0, 4, 4, 3),
    (Binary, 2, 0, 4, 4, 3),
    (Binary, 2, 0, 4, 4, 3),
    (Binary, 2, 0, 4, 4, 3),
    (Binary, 2, 0, 4, 4, 3),
    (Binary, 2, 0, 4, 4, 3),
    (Store, 0, 0, 0, 1, 4),
];

/// Adds n + .. + 1 to the sum, where n is the iteration's number modulo 16.
static MASKED: [Line; 13] = [
    (Lane, 0, 0, 2, 0, 0),
    (PtrAdd, 0, 0, 1, 1, 2),
    (Load, 0, 0, 4, 1, 0),
    (Convert, 0, 0, 3, 0, 0),
    (Const, 2, 0, 5, 0, 15),
    (Const, 2, 0, 6, 0, 1),
    (Binary, 2, 0, 3, 3, 5 + 5 * X),
    (MaskOf, 0, 0, 1, 3, 0),
    (Loop, 0, 1, 0, 0, 3 * X),
    (Binary, 2, 1, 4, 4, 3),
    (Binary, 2, 1, 3, 3, 6 + X),
    (MaskOf, 0, 1, 1, 3, 0),
    (Store, 0, 0, 0, 1, 4),
];

/// Adds what a call gives.
static CALLS: [Line; 7] = [
    (Lane, 0, 0, 2, 0, 0),
    (PtrAdd, 0, 0, 1, 1, 2),
    (Load, 0, 0, 4, 1, 0),
    (Convert, 0, 0, 3, 0, 0),
    (Call, 0, 0, 0, 0, 0),
    (Binary, 2, 0, 4, 4, 3),
    (Store, 0, 0, 0, 1, 4),
];

/// A function that adds its argument to what it calls gives: register 0 is the argument, 1 the result.
pub static CALLER: [Line; 2] = [(Call, 0, 0, 0, 0, 0), (Binary, 2, 0, 1, 1, 0)];

/// A function that doubles its argument.
pub static DOUBLE: [Line; 1] = [(Binary, 2, 0, 1, 0, 0)];
