// The tables of an image: arrays, codes, and entries, which are codes at a number of lanes with the entries that they call.

use vk_code::Code;
use vk_kinds::{Isa, Params, Target};
use vk_types::{Ty, Word};

/// An array of a program. Elements that are not given are 0.
#[derive(Drop)]
pub struct ArrayRow {
    /// Its name.
    pub text: Vec<u8>,
    pub ty: Ty,
    /// Whether it is `const`.
    pub fixed: bool,
    pub length: u32,
    /// The given elements, each canonical for `ty`.
    pub elements: Vec<Word>,
}

/// What an entry is.
#[derive(Clone, Copy, PartialEq, Eq, Debug)]
pub enum EntryKind {
    /// A function without directives.
    Ordinary,
    /// The scalar code of a function with directives.
    Scalar,
    /// A variant for all lanes.
    N,
    /// A variant under a mask.
    M,
    /// The body of a simd loop, for several iterations at once.
    Chunk,
    /// The body of a simd loop, for one iteration.
    Rest,
}

/// The entries that run the body of a simd loop.
#[derive(Clone, Copy, PartialEq, Eq, Debug)]
pub struct LoopTargets {
    pub chunk: u32,
    pub rest: u32,
}

/// A code at a number of lanes.
#[derive(Drop)]
pub struct Entry {
    /// Its name.
    pub text: Vec<u8>,
    pub kind: EntryKind,
    pub lanes: u16,
    /// The code's number.
    pub code: u32,
    /// The parameters of a variant; empty for other kinds.
    pub params: Params,
    /// The entry that each slot calls.
    pub targets: Vec<u32>,
    /// The entries of each simd loop.
    pub loops: Vec<LoopTargets>,
}

/// The tables of an image, of which nothing is known.
#[derive(Drop)]
pub struct ImageTables {
    pub target: Target,
    pub isa: Isa,
    /// The vector length in bits, 0 where there is none.
    pub vl: u16,
    /// The entry of the program, where there is one.
    pub main: Option<u32>,
    pub arrays: Vec<ArrayRow>,
    pub codes: Vec<Code>,
    pub entries: Vec<Entry>,
}
