// Programs: units with what their names are.

ghost use Rattle.std.specs.Prelude.{◌≡◌, ◌≤◌, length, take};
ghost use Rattle.vk_rules_book.specs.Scopes.{is_print};
ghost use Rattle.vk_reading_calls.specs.Right.{place_in};

use std::alloc::Global;
use vk_ast::{Item, NameId, NameTable};
use vk_kinds::Target;
use vk_reading_rows::functions::FunctionPlace;
use vk_reading_steps::names::row_of;
use vk_rules_names::Place;

/// A unit of a program, with what its names are, by their numbers.
#[derive(Drop)]
pub struct ProgramUnit<'a> {
    pub target: Target,
    pub names: &'a NameTable,
    pub items: &'a [Item],
    /// The numbers of the items that declare names first.
    pub first: Vec<Option<usize>>,
    /// The numbers of the arrays that names are; the last one is that of names past the table.
    pub numbers: Vec<u32>,
    /// Where the functions are defined that names are; the last one is that of names past the table.
    pub functions: Vec<Option<FunctionPlace>>,
}

/// The units of a program, and how many turns a loop may make.
#[derive(Clone, Copy)]
pub struct Program<'a> {
    pub alloc: Global,
    pub units: &'a [ProgramUnit<'a>],
    pub turns: u64,
}

impl ProgramUnit<'_> {
    /// The unit at file scope, where so many of its items are visible.
    pub fn place(&self, count: usize) -> Place<'_>
        requires { count ≤ length self.now.items.now }
        ensures names { result.names.now ≡ self.now.names.now }
        ensures items { result.items.now ≡ take count self.now.items.now }
        ensures first { result.first.now ≡ self.now.first.items }
    {
        Place {
            target: self.target,
            names: self.names,
            items: &self.items[..count],
            first: &self.first,
        }
    }

    /// Where the function of this name is defined.
    pub fn function_place(&self, id: NameId) -> Option<FunctionPlace>
        ensures { result ≡ place_in self.now.functions.items id }
    {
        match row_of(&self.functions, id) {
            Some(place) => place,
            None => None,
        }
    }

    /// Whether the name is that of the built-in function.
    pub fn is_print(&self, id: NameId) -> bool
        ensures { result ≡ is_print self.now.names.now id }
    {
        self.place(0).with(&[], 0).is_print(id)
    }
}
