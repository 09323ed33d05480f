// The tables of an object, as their fields say them.

use vk_code_format::{CodeRow, ParamRow};
use vk_format::Items;
use vk_kinds::{Branch, CType, Target};
use vk_types::{Ty, Word};

/// An object of file scope.
#[derive(Drop)]
pub struct RawData {
    /// The number of its symbol.
    pub symbol: u32,
    pub ty: Ty,
    /// Whether it is `const`.
    pub fixed: bool,
    pub defined: bool,
    pub length: u32,
    /// The given elements, each canonical for `ty`.
    pub elements: Items<Word>,
}

/// A directive of a function.
#[derive(Drop)]
pub struct RawDirective {
    pub branch: Branch,
    pub simdlen: Option<u16>,
    /// One for each parameter of the function.
    pub params: Items<ParamRow>,
}

/// The codes of a function.
#[derive(Drop)]
pub struct RawCodes {
    pub scalar: CodeRow,
    /// One for each directive.
    pub lanes: Items<CodeRow>,
}

/// A function.
#[derive(Drop)]
pub struct RawFunction {
    /// The number of its symbol.
    pub symbol: u32,
    pub result: CType,
    pub params: Items<CType>,
    pub directives: Items<RawDirective>,
    /// Its codes, where it is defined.
    pub codes: Option<RawCodes>,
}

/// An object.
#[derive(Drop)]
pub struct RawObject {
    pub target: Target,
    pub symbols: Items<Items<u8>>,
    pub objects: Items<RawData>,
    pub functions: Items<RawFunction>,
}
