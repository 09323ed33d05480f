// What is known of an array without its elements.

use vk_types::Ty;

/// An array that pointers may point into (C17 6.2.4).
#[derive(Clone, Copy)]
pub struct ArrayHead<'a> {
    /// Its name.
    pub text: &'a [u8],
    /// The type of its elements.
    pub ty: Ty,
    /// Whether it is `const`.
    pub fixed: bool,
    /// How many elements it has.
    pub length: u32,
}
