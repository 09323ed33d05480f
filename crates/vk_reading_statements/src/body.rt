// The body of a function, and its variables.

use std::alloc::Global;
use vk_reading::Held;
use vk_reading_steps::Setting;
use vk_rules_book::Binding;
use vk_rules_names::Place;

/// A body that is run, and what it needs of the program that it stands in.
#[derive(Clone, Copy)]
pub struct Body<'a> {
    pub alloc: Global,
    pub setting: Setting<'a>,
    /// The place of the function at file scope.
    pub file: Place<'a>,
}

/// The parameters and local variables of a function that runs.
#[derive(Drop)]
pub struct Locals {
    /// Those that are visible, in their order.
    pub bindings: Vec<Binding>,
    /// What they have, by their numbers.
    pub values: Vec<Held>,
}
