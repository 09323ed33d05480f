// The arrays of an image.

ghost use Rattle.std.specs.Prelude.{◌≡◌};
ghost use Rattle.std.specs.List.{list_all};
ghost use Rattle.vk_object.specs.Images.{array_before, is_array};
ghost use Rattle.vk_object.specs.Tables.{array_list_of, tables_of};
ghost use Rattle.vk_object.specs.Texts.{ascend};

use vk_object::elements::are_given;
use vk_object::texts::{is_before, is_identifier};
use vk_object::{ArrayRow, ImageTables};

/// Whether each array has a name and elements of its type.
pub(crate) fn are_arrays(tables: &ImageTables) -> bool
    ensures { result ≡ list_all is_array (tables_of tables.now).arrays }
{
    are_rows(&tables.arrays)
}

fn are_rows(arrays: &[ArrayRow]) -> bool
    ensures { result ≡ list_all (λ a. is_array (array_list_of a)) arrays.now }
{
    arrays.iter().all(|array| is_array(array))
}

fn is_array(array: &ArrayRow) -> bool
    ensures { result ≡ is_array (array_list_of array.now) }
{
    is_identifier(&array.text) && are_given(array.ty, array.length, &array.elements)
}

/// Whether the names of the arrays ascend.
pub(crate) fn do_arrays_ascend(tables: &ImageTables) -> bool
    ensures { result ≡ ascend array_before (tables_of tables.now).arrays }
{
    do_names_ascend(&tables.arrays)
}

fn do_names_ascend(arrays: &[ArrayRow]) -> bool
    ensures { result ≡ ascend (λ a b. array_before (array_list_of a) (array_list_of b)) arrays.now }
{
    for at in 1..arrays.len() {
        if !is_before(&arrays[at - 1].text, &arrays[at].text) {
            return false;
        }
    }
    true
}
