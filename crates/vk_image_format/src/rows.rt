// The tables of an image, as their fields say them.

use vk_code_format::{CodeRow, ParamRow};
use vk_format::Items;
use vk_kinds::{Isa, Target};
use vk_object::{EntryKind, LoopTargets};
use vk_types::{Ty, Word};

/// An array of a program.
#[derive(Drop)]
pub struct RawArray {
    /// Its name.
    pub text: Items<u8>,
    pub ty: Ty,
    /// Whether it is `const`.
    pub fixed: bool,
    pub length: u32,
    /// The given elements, each canonical for `ty`.
    pub elements: Items<Word>,
}

/// By what entries are in order, and the kind.
#[derive(Drop)]
pub struct EntryName {
    pub text: Items<u8>,
    pub kind: EntryKind,
    pub lanes: u16,
}

/// An entry up to its parameters.
#[derive(Drop)]
pub struct EntryFront {
    pub name: EntryName,
    /// The code's number.
    pub code: u32,
    /// The parameters of a variant; empty for other kinds.
    pub params: Items<ParamRow>,
}

/// A code at a number of lanes.
#[derive(Drop)]
pub struct RawEntry {
    pub front: EntryFront,
    /// The entry that each slot calls.
    pub targets: Items<u32>,
    /// The entries of each simd loop.
    pub loops: Items<LoopTargets>,
}

/// An image.
#[derive(Drop)]
pub struct RawImage {
    pub target: Target,
    pub isa: Isa,
    /// The vector length in bits, 0 where there is none.
    pub vl: u16,
    /// The entry of the program.
    pub main: u32,
    pub arrays: Items<RawArray>,
    pub codes: Items<CodeRow>,
    pub entries: Items<RawEntry>,
}
