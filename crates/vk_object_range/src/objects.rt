// The numbers of objects.

ghost use Rattle.std.specs.Prelude.{◌≡◌, map};
ghost use Rattle.std.specs.List.{list_all};
ghost use Rattle.std.specs.Option.{option_map};
ghost use Rattle.vk_object.specs.Objects.{code_list_of, data_list_of, function_list_of};
ghost use Rattle.vk_object_write.specs.Lists.{object_lists};
ghost use Rattle.vk_object_laws.specs.Ranges.{codes_in_range, data_in_range, function_in_range, is_in_range, word_in_range};

use crate::codes::{are_codes, is_code};
use crate::directives::are_directives;
use vk_object::{Codes, DataRow, FunctionRow, Object};
use vk_types::Word;

// The greatest count of a list in a file.
const MOST: usize = 4294967295;

fn is_word(word: Word) -> bool
    ensures { result ≡ word_in_range word }
{
    word.0 <= u64::MAX
}

fn are_words(words: &[Word]) -> bool
    ensures { result ≡ list_all word_in_range words.now }
{
    words.iter().all(|word| is_word(*word))
}

fn is_data(row: &DataRow) -> bool
    ensures { result ≡ data_in_range (data_list_of row.now) }
{
    row.length <= u32::MAX && are_words(&row.elements)
}

fn each_object(rows: &[DataRow]) -> bool
    ensures { result ≡ list_all (λ x. data_in_range (data_list_of x)) rows.now }
{
    rows.iter().all(|row| is_data(row))
}

fn are_objects(rows: &[DataRow]) -> bool
    ensures { result ≡ list_all data_in_range (map data_list_of rows.now) }
{
    each_object(rows)
}

fn are_coded(codes: &Option<Codes>) -> bool
    ensures { result ≡ codes_in_range (option_map code_list_of codes.now) }
{
    match codes {
        None => true,
        Some(codes) => is_code(&codes.scalar) && are_codes(&codes.lanes),
    }
}

fn is_function(row: &FunctionRow) -> bool
    ensures { result ≡ function_in_range (function_list_of row.now) }
{
    are_directives(&row.directives) && are_coded(&row.codes)
}

fn each_function(rows: &[FunctionRow]) -> bool
    ensures { result ≡ list_all (λ x. function_in_range (function_list_of x)) rows.now }
{
    rows.iter().all(|row| is_function(row))
}

fn are_functions(rows: &[FunctionRow]) -> bool
    ensures { result ≡ list_all function_in_range (map function_list_of rows.now) }
{
    each_function(rows)
}

/// Whether the bytes of an object can hold its numbers, so that it is read from what is written of it. They can, but where it has more
/// than 4294967295 symbols.
pub fn is_in_range(object: &Object) -> bool
    ensures { result ≡ is_in_range (object_lists object.now) }
{
    let symbols = object.symbols.len() <= MOST;
    let counts = object.objects.len() <= MOST && object.functions.len() <= MOST;
    let rows = are_objects(&object.objects) && are_functions(&object.functions);
    symbols && counts && rows
}
