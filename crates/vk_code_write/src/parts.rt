// Parts of code that have the same bytes in objects and images.

ghost use Rattle.std.specs.Prelude.{◌≡◌, ℕ, ◌++◌, List, OnOk};
ghost use Rattle.byteorder.specs.Endian.{little_bytes};
ghost use Rattle.vk_code_format.specs.Fields.{bit, or_none, target_number};
ghost use Rattle.vk_code_format.specs.Parameters.{signed_bits};
ghost use Rattle.vk_code_write.specs.Inner.Bytes.{elements_bytes, given_bytes, text_bytes};
ghost use Rattle.vk_types.specs.Formats.{type_number};
ghost use Rattle.vk_code_write.specs.Inner.Bytes.{element_bytes};

use vk_format::fields::{put_count_u16, put_count_u32, put_u8, put_u16, put_u32, put_u64};
use vk_kinds::Target;
use vk_memory::Memory;
use vk_types::{Ty, Word};

/// Writes a truth value.
pub fn put_flag(out: &mut Vec<u8>, flag: bool) -> Result<(), Memory>
    ensures written { OnOk result (out.new.items ≡ out.old.items ++ little_bytes 1 (bit flag)) }
{
    put_u8(out, u8::from(flag))
}

/// Writes a target.
pub fn put_target(out: &mut Vec<u8>, target: Target) -> Result<(), Memory>
    ensures written { OnOk result (out.new.items ≡ out.old.items ++ little_bytes 1 (target_number target)) }
{
    match target {
        Target::X86 => put_u8(out, 0),
        Target::Arm => put_u8(out, 1),
    }
}

/// Writes the length and the bytes of a text.
pub fn put_text(out: &mut Vec<u8>, text: &[u8]) -> Result<(), Memory>
    ensures written { OnOk result (out.new.items ≡ out.old.items ++ text_bytes text.now) }
{
    put_count_u16(out, text.len())?;
    out.extend_from_slice(text)?;
    Ok(())
}

/// Writes the type of elements.
pub fn put_ty(out: &mut Vec<u8>, ty: Ty) -> Result<(), Memory>
    ensures written { OnOk result (out.new.items ≡ out.old.items ++ little_bytes 1 (type_number ty)) }
{
    put_u8(out, u8::from(ty))
}

/// Writes the count and the bytes of elements.
pub fn put_given(out: &mut Vec<u8>, ty: Ty, elements: &[Word]) -> Result<(), Memory>
    ensures written { OnOk result (out.new.items ≡ out.old.items ++ given_bytes ty elements.now) }
{
    put_count_u32(out, elements.len())?;
    put_elements(out, ty, elements)
}

/// Writes a register, 65535 for none.
pub fn put_register(out: &mut Vec<u8>, register: Option<u16>) -> Result<(), Memory>
    ensures written { OnOk result (out.new.items ≡ out.old.items ++ little_bytes 2 (or_none 65535 register)) }
{
    match register {
        Some(number) => put_u16(out, number),
        None => put_u16(out, 65535),
    }
}

/// Writes a number of lanes that is asked for, 0 for none.
pub fn put_simdlen(out: &mut Vec<u8>, simdlen: Option<u16>) -> Result<(), Memory>
    ensures written { OnOk result (out.new.items ≡ out.old.items ++ little_bytes 2 (or_none 0 simdlen)) }
{
    match simdlen {
        Some(lanes) => put_u16(out, lanes),
        None => put_u16(out, 0),
    }
}

/// Writes a number in two's complement.
pub fn put_i32(out: &mut Vec<u8>, number: i32) -> Result<(), Memory>
    ensures written { OnOk result (out.new.items ≡ out.old.items ++ little_bytes 4 (signed_bits number)) }
{
    put_u32(out, number.cast_unsigned())
}

// Writes the elements of an array.
fn put_elements(out: &mut Vec<u8>, ty: Ty, elements: &[Word]) -> Result<(), Memory>
    ensures written { OnOk result (out.new.items ≡ out.old.items ++ elements_bytes ty elements.now) }
{
    for element in elements {
        put_element(out, ty, *element)?;
    }
    Ok(())
}

// Writes as many bytes of a word as its type has.
fn put_element(out: &mut Vec<u8>, ty: Ty, element: Word) -> Result<(), Memory>
    ensures written { OnOk result (out.new.items ≡ out.old.items ++ element_bytes ty element) }
{
    match ty {
        Ty::I8 | Ty::U8 => put_u8(out, (element.0 % 0x100) as u8),
        Ty::I16 | Ty::U16 => put_u16(out, (element.0 % 0x1_0000) as u16),
        Ty::I32 | Ty::U32 => put_u32(out, (element.0 % 0x1_0000_0000) as u32),
        Ty::I64 | Ty::U64 => put_u64(out, element.0),
    }
}
