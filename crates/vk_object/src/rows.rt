// The rows of an object.

use vk_code::Code;
use vk_kinds::{Head, Signature};
use vk_types::{Ty, Word};

/// The text of a symbol.
#[derive(Drop)]
pub struct Symbol {
    pub text: Vec<u8>,
}

/// An object of file scope.
#[derive(Drop)]
pub struct DataRow {
    /// The number of its symbol.
    pub symbol: u32,
    pub ty: Ty,
    /// Whether it is `const`.
    pub fixed: bool,
    pub defined: bool,
    pub length: u32,
    /// The given elements, each canonical for `ty`; the others are 0.
    pub elements: Vec<Word>,
}

/// The codes of a function.
#[derive(Drop)]
pub struct Codes {
    pub scalar: Code,
    /// One for each directive.
    pub lanes: Vec<Code>,
}

/// A function.
#[derive(Drop)]
pub struct FunctionRow {
    /// The number of its symbol.
    pub symbol: u32,
    pub head: Head,
    pub directives: Vec<Signature>,
    /// Its codes, where it is defined.
    pub codes: Option<Codes>,
}
