// What a body needs of the program that it stands in.

use std::alloc::Global;
use vk_kinds::CType;
use vk_reading::Held;
use vk_rules_names::Scopes;

/// What a body needs of the program that it stands in.
#[derive(Clone, Copy)]
pub struct Setting<'a> {
    /// For each name of the unit, by its number, the number of the array that it is; the last one is that of names past the table.
    pub numbers: &'a [u32],
    /// How many turns a loop may make.
    pub turns: u64,
    /// The function's own name, and the type of its result.
    pub text: &'a [u8],
    pub result: CType,
}

/// A place in a body: what is declared there, and what the variables have.
#[derive(Clone, Copy)]
pub struct Place<'a> {
    pub alloc: Global,
    pub setting: Setting<'a>,
    pub scopes: Scopes<'a>,
    /// The values of the parameters and local variables, by their numbers.
    pub values: &'a [Held],
}
