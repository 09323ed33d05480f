// What code may name.

use vk_kinds::Head;
use vk_types::Ty;

/// A function that code may call.
#[derive(Drop)]
pub struct FunctionHead {
    pub head: Head,
    /// Whether it has directives.
    pub simd: bool,
}

/// An object that code may name.
#[derive(Clone, Copy, PartialEq, Eq, Debug)]
pub struct ObjectHead {
    pub ty: Ty,
    /// Whether it is `const`.
    pub fixed: bool,
}

/// What code may name, by number.
#[derive(Drop)]
pub struct Env {
    /// Whether it is an image's code: its slots name no function, and its loops the number of a code.
    pub image: bool,
    pub functions: Vec<FunctionHead>,
    pub objects: Vec<ObjectHead>,
}
