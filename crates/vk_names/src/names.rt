// What a name says.

use vk_kinds::{Isa, Len, Params};

/// A name without its scalar name.
#[derive(PartialEq, Eq, Debug, Drop)]
pub struct NameHead {
    pub isa: Isa,
    pub masked: bool,
    pub len: Len,
    pub params: Params,
}

/// A name that was read.
#[derive(PartialEq, Eq, Debug, Drop)]
pub struct ReadName {
    pub head: NameHead,
    /// The place of the scalar name's first byte, from 0.
    pub scalar_at: u32,
    /// How many bytes the whole name has. The scalar name ends with it.
    pub used: u32,
}
