// What the numbers of fields stand for.

ghost use Rattle.std.specs.Prelude.{◌≡◌, ◌∷◌, [], true, false, length, slice_get};
ghost use Rattle.std.specs.Option.{option_map};
ghost use Rattle.byteorder.specs.Endian.{little_number};
ghost use Rattle.vk_kinds.specs.declared.heads.CType.TheVariants as CType;
ghost use Rattle.vk_kinds.specs.declared.kinds.Target.TheVariants.{X86, Arm};
ghost use Rattle.vk_kinds.specs.Sizes.{bytes_of};
ghost use Rattle.vk_code.specs.Instruction.{types};
ghost use Rattle.vk_code.specs.Tests.{pairs};
ghost use Rattle.vk_object.specs.Objects.{is_equal, is_symbol};
ghost use Rattle.vk_code_format.specs.Fields.{result_type_of, sign_extended, word_of};
ghost use Rattle.vk_object_format.specs.Object.{branches};

use vk_code_read::fields::int_type_of;
use vk_format::fields::{u8_of, u16_of, u32_of, u64_of};
use vk_kinds::{Branch, CType, Target};
use vk_object::texts::is_identifier;
use vk_types::{Ty, Word};

/// A target.
pub fn target_of(number: u8) -> Option<Target>
    ensures { result ≡ slice_get (X86 ∷ Arm ∷ []) number }
{
    match number {
        0 => Some(Target::X86),
        1 => Some(Target::Arm),
        _ => None,
    }
}

/// Where the variants of a directive may be called.
pub fn branch_of(number: u8) -> Option<Branch>
    ensures { result ≡ slice_get branches number }
{
    match number {
        0 => Some(Branch::Both),
        1 => Some(Branch::Inside),
        2 => Some(Branch::Outside),
        _ => None,
    }
}

fn integer_of(number: u8) -> Option<CType>
    ensures { result ≡ option_map (λ t. CType.Int t) (slice_get types number) }
{
    match int_type_of(number) {
        Some(ty) => Some(CType::Int(ty)),
        None => None,
    }
}

/// The type of a result, none for 255.
pub fn result_type_of(number: u8) -> Option<CType>
    ensures { result ≡ result_type_of number }
{
    if number == 255 {
        Some(CType::Void)
    } else {
        integer_of(number)
    }
}

/// Whether it is `const`, and whether it is defined.
pub fn flags_of(number: u8) -> Option<(bool, bool)>
    ensures { result ≡ slice_get ((false, false) ∷ (true, false) ∷ (false, true) ∷ (true, true) ∷ []) number }
{
    match number {
        0 => Some((false, false)),
        1 => Some((true, false)),
        2 => Some((false, true)),
        3 => Some((true, true)),
        _ => None,
    }
}

// Whether two texts are the same.
fn are_same(xs: &[u8], ys: &[u8]) -> bool
    ensures { result ≡ pairs is_equal xs.now ys.now }
{
    let [x, xs @ ..] = xs else {
        return matches!(ys, []);
    };
    let [y, ys @ ..] = ys else {
        return false;
    };
    *x == *y && are_same(xs, ys)
}

/// Whether it is an identifier other than `print`, of at most 1024 bytes.
pub fn is_symbol(text: &[u8]) -> bool
    ensures { result ≡ is_symbol text.now }
{
    is_identifier(text) && !are_same(text, b"print")
}

fn extended_8(number: u8) -> u64
    ensures { result ≡ sign_extended 8 number }
{
    let n = u64::from(number);
    if n < 128 { n } else { n + (u64::MAX - 255) }
}

fn extended_16(number: u16) -> u64
    ensures { result ≡ sign_extended 16 number }
{
    let n = u64::from(number);
    if n < 32768 { n } else { n + (u64::MAX - 65535) }
}

fn extended_32(number: u32) -> u64
    ensures { result ≡ sign_extended 32 number }
{
    let n = u64::from(number);
    if n < 2147483648 {
        n
    } else {
        n + (u64::MAX - 4294967295)
    }
}

/// How many bytes an element has.
pub fn bytes_of(ty: Ty) -> usize
    ensures { result ≡ bytes_of ty }
{
    match ty {
        Ty::I8 | Ty::U8 => 1,
        Ty::I16 | Ty::U16 => 2,
        Ty::I32 | Ty::U32 => 4,
        Ty::I64 | Ty::U64 => 8,
    }
}

/// An element of an object or an array, in 64 bits.
pub fn element_of(ty: Ty, field: &[u8]) -> Word
    requires width { length field.now ≡ bytes_of ty }
    ensures { result ≡ word_of ty (little_number (bytes_of ty) field.now) }
{
    match ty {
        Ty::I8 => Word(extended_8(u8_of(field))),
        Ty::I16 => Word(extended_16(u16_of(field))),
        Ty::I32 => Word(extended_32(u32_of(field))),
        Ty::U8 => Word(u64::from(u8_of(field))),
        Ty::U16 => Word(u64::from(u16_of(field))),
        Ty::U32 => Word(u64::from(u32_of(field))),
        Ty::I64 => Word(u64_of(field)),
        Ty::U64 => Word(u64_of(field)),
    }
}
