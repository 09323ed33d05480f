// Arrays.

ghost use Rattle.std.specs.Prelude.{◌≡◌, ◌++◌, map, OnOk};
ghost use Rattle.std.specs.List.{flat_map};
ghost use Rattle.vk_object.specs.Tables.{array_list_of};
ghost use Rattle.vk_image_write.specs.Inner.Bytes.{array_bytes, arrays_bytes};

use vk_code_write::parts::{put_flag, put_given, put_text, put_ty};
use vk_format::fields::{put_count_u32, put_u32};
use vk_memory::Memory;
use vk_object::ArrayRow;

/// Writes arrays.
pub(crate) fn put_arrays(out: &mut Vec<u8>, arrays: &[ArrayRow]) -> Result<(), Memory>
    ensures written { OnOk result (out.new.items ≡ out.old.items ++ arrays_bytes (map array_list_of arrays.now)) }
{
    put_count_u32(out, arrays.len())?;
    put_each_array(out, arrays)
}

fn put_each_array(out: &mut Vec<u8>, arrays: &[ArrayRow]) -> Result<(), Memory>
    ensures written { OnOk result (out.new.items ≡ out.old.items ++ flat_map (λ a. array_bytes (array_list_of a)) arrays.now) }
{
    for array in arrays {
        put_array(out, array)?;
    }
    Ok(())
}

#[tactic(auto, unfolding(crate::specs::Inner::Bytes::array_bytes))]
fn put_array(out: &mut Vec<u8>, array: &ArrayRow) -> Result<(), Memory>
    ensures written { OnOk result (out.new.items ≡ out.old.items ++ array_bytes (array_list_of array.now)) }
{
    put_text(out, &array.text)?;
    put_ty(out, array.ty)?;
    put_flag(out, array.fixed)?;
    put_u32(out, array.length)?;
    put_given(out, array.ty, &array.elements)
}
