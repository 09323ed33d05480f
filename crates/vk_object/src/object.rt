// An object: what one unit gives to a program.

ghost use Rattle.std.specs.Prelude.{◌≡◌, true, map};
ghost use Rattle.vk_object.specs.Objects.{data_list_of, function_list_of, is_object, symbol_text};

use crate::rows::{DataRow, FunctionRow, Symbol};
use vk_kinds::Target;

/// What a unit gives to a program.
#[derive(Drop)]
pub struct Object {
    pub target: Target,
    /// The names that it declares, ascending.
    pub symbols: Vec<Symbol>,
    pub objects: Vec<DataRow>,
    pub functions: Vec<FunctionRow>,
    pub ghost valid: { is_object (record {
      target = target;
      symbols = map symbol_text symbols.items;
      objects = map data_list_of objects.items;
      functions = map function_list_of functions.items;
    }) ≡ true },
}
