// What the numbers of fields stand for.

ghost use Rattle.std.specs.Prelude.{◌≡◌, ◌∷◌, [], false, true, slice_get};
ghost use Rattle.std.specs.Option.{option_map};
ghost use Rattle.vk_kinds.specs.declared.heads.CType.TheVariants as CType;
ghost use Rattle.vk_code.specs.Instruction.{types};
ghost use Rattle.vk_code.specs.Valid.{is_good_simdlen};
ghost use Rattle.vk_code_format.specs.Codes.{has_value, shape_kinds};
ghost use Rattle.vk_code_format.specs.Fields.{none_at, value_type_of};

use vk_code_format::ShapeKind;
use vk_kinds::CType;
use vk_types::Ty;

/// A truth value.
pub fn flag_of(number: u8) -> Option<bool>
    ensures { result ≡ slice_get (false ∷ true ∷ []) number }
{
    match number {
        0 => Some(false),
        1 => Some(true),
        _ => None,
    }
}

/// A register, none for 65535.
pub fn register_of(number: u16) -> Option<u16>
    ensures { result ≡ none_at 65535 number }
{
    if number == 65535 { None } else { Some(number) }
}

/// How the words of an argument hang together.
pub fn shape_kind_of(number: u8) -> Option<ShapeKind>
    ensures { result ≡ slice_get shape_kinds number }
{
    match number {
        0 => Some(ShapeKind::Vector),
        1 => Some(ShapeKind::Uniform),
        2 => Some(ShapeKind::By),
        3 => Some(ShapeKind::Along),
        4 => Some(ShapeKind::Literal),
        5 => Some(ShapeKind::Same),
        _ => None,
    }
}

/// Whether an argument of this kind may have the value.
pub fn has_value(kind: ShapeKind, value: u32) -> bool
    ensures { result ≡ has_value kind value }
{
    match kind {
        ShapeKind::Vector | ShapeKind::Uniform => value == 0,
        ShapeKind::By | ShapeKind::Along | ShapeKind::Literal | ShapeKind::Same => true,
    }
}

/// An integer type.
pub fn int_type_of(number: u8) -> Option<Ty>
    ensures { result ≡ slice_get types number }
{
    match number {
        0 => Some(Ty::I8),
        1 => Some(Ty::I16),
        2 => Some(Ty::I32),
        3 => Some(Ty::I64),
        4 => Some(Ty::U8),
        5 => Some(Ty::U16),
        6 => Some(Ty::U32),
        7 => Some(Ty::U64),
        _ => None,
    }
}

fn pointer_of(number: u8, written: bool) -> Option<CType>
    ensures { result ≡ option_map (λ t. CType.Ptr t written) (slice_get types number) }
{
    match int_type_of(number) {
        Some(to) => Some(CType::Ptr { to, written }),
        None => None,
    }
}

fn integer_of(number: u8) -> Option<CType>
    ensures { result ≡ option_map (λ t. CType.Int t) (slice_get types number) }
{
    match int_type_of(number) {
        Some(ty) => Some(CType::Int(ty)),
        None => None,
    }
}

/// The type of a register or a parameter.
pub fn value_type_of(number: u8) -> Option<CType>
    ensures { result ≡ value_type_of number }
{
    if number < 8 {
        integer_of(number)
    } else if number < 16 {
        pointer_of(number - 8, true)
    } else {
        pointer_of(number - 16, false)
    }
}

/// A number of lanes that is asked for, none for 0.
pub fn simdlen_of(number: u16) -> Option<u16>
    ensures { result ≡ none_at 0 number }
{
    if number == 0 { None } else { Some(number) }
}

/// Whether it is a power of two from 2 to 256, or none.
pub fn is_good_simdlen(simdlen: Option<u16>) -> bool
    ensures { result ≡ is_good_simdlen simdlen }
{
    match simdlen {
        Some(n) => n == 2
            || n == 4
            || n == 8
            || n == 16
            || n == 32
            || n == 64
            || n == 128
            || n == 256,
        None => true,
    }
}
