// Symbols and objects.

ghost use Rattle.std.specs.Prelude.{◌≡◌, ◌++◌, map, OnOk};
ghost use Rattle.std.specs.List.{flat_map};
ghost use Rattle.byteorder.specs.Endian.{little_bytes};
ghost use Rattle.vk_object.specs.Objects.{data_list_of, symbol_text};
ghost use Rattle.vk_object_write.specs.Inner.Bytes.{data_bytes, flags_number, objects_bytes, symbols_bytes};
ghost use Rattle.vk_code_write.specs.Inner.Bytes.{text_bytes};

use vk_code_write::parts::{put_given, put_text, put_ty};
use vk_format::fields::{put_count_u32, put_u8, put_u32};
use vk_memory::Memory;
use vk_object::{DataRow, Symbol};

/// Writes symbols.
pub(crate) fn put_symbols(out: &mut Vec<u8>, symbols: &[Symbol]) -> Result<(), Memory>
    ensures written { OnOk result (out.new.items ≡ out.old.items ++ symbols_bytes (map symbol_text symbols.now)) }
{
    put_count_u32(out, symbols.len())?;
    put_each_symbol(out, symbols)
}

fn put_each_symbol(out: &mut Vec<u8>, symbols: &[Symbol]) -> Result<(), Memory>
    ensures written { OnOk result (out.new.items ≡ out.old.items ++ flat_map (λ s. text_bytes (symbol_text s)) symbols.now) }
{
    for symbol in symbols {
        put_text(out, &symbol.text)?;
    }
    Ok(())
}

/// Writes objects.
pub(crate) fn put_objects(out: &mut Vec<u8>, objects: &[DataRow]) -> Result<(), Memory>
    ensures written { OnOk result (out.new.items ≡ out.old.items ++ objects_bytes (map data_list_of objects.now)) }
{
    put_count_u32(out, objects.len())?;
    put_each_object(out, objects)
}

fn put_each_object(out: &mut Vec<u8>, objects: &[DataRow]) -> Result<(), Memory>
    ensures written { OnOk result (out.new.items ≡ out.old.items ++ flat_map (λ d. data_bytes (data_list_of d)) objects.now) }
{
    for object in objects {
        put_data(out, object)?;
    }
    Ok(())
}

#[tactic(auto, unfolding(crate::specs::Inner::Bytes::data_bytes))]
fn put_data(out: &mut Vec<u8>, row: &DataRow) -> Result<(), Memory>
    ensures written { OnOk result (out.new.items ≡ out.old.items ++ data_bytes (data_list_of row.now)) }
{
    put_u32(out, row.symbol)?;
    put_ty(out, row.ty)?;
    put_flags(out, row.fixed, row.defined)?;
    put_u32(out, row.length)?;
    put_given(out, row.ty, &row.elements)
}

// Whether it is `const`, whether it is defined.
fn put_flags(out: &mut Vec<u8>, fixed: bool, defined: bool) -> Result<(), Memory>
    ensures written { OnOk result (out.new.items ≡ out.old.items ++ little_bytes 1 (flags_number fixed defined)) }
{
    put_u8(out, u8::from(fixed) + 2 * u8::from(defined))
}
