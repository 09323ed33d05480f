// The fields of a parameter of a directive, and what they stand for.

ghost use Rattle.std.specs.Prelude.{◌≡◌, ◌&&◌, [], pos, slice_get};
ghost use Rattle.vk_kinds.specs.Types.{ctype_number};
ghost use Rattle.vk_code.specs.Valid.{is_pointer, is_written};
ghost use Rattle.vk_object.specs.Parameters.{element_bytes, is_step, is_whole};
ghost use Rattle.vk_code_format.specs.Fields.{none_at};
ghost use Rattle.vk_object_fields.specs.Cut.{cut_row, cut_value};
ghost use Rattle.vk_code_format.specs.Parameters.{align_fits, kind_fits, kind_of, param_kinds, param_of, signed, step_by, value_fits, where_known};

use vk_code::types::{is_integer, is_pointer};
use vk_code_format::{ParamKind, ParamRow};
use vk_kinds::{CType, Kind, Param, Step};
use vk_object::parameters::are_kinds;

/// What a directive says of a parameter.
pub fn param_kind_of(number: u8) -> Option<ParamKind>
    ensures { result ≡ slice_get param_kinds number }
{
    match number {
        0 => Some(ParamKind::Vector),
        1 => Some(ParamKind::Uniform),
        2 => Some(ParamKind::By),
        3 => Some(ParamKind::Along),
        _ => None,
    }
}

/// An alignment, none for 0.
pub fn align_of(number: u32) -> Option<u32>
    ensures { result ≡ none_at 0 number }
{
    if number == 0 { None } else { Some(number) }
}

fn is_written(number: u8) -> bool
    ensures { result ≡ is_written number }
{
    8 <= number && number < 16
}

/// Whether a parameter of the type may be of this kind.
pub fn kind_fits(ctype: Option<CType>, kind: ParamKind) -> bool
    ensures { result ≡ kind_fits ctype kind }
{
    match kind {
        ParamKind::Uniform => match ctype {
            Some(ctype) => !is_written(u8::from(ctype)),
            None => true,
        },
        ParamKind::Vector | ParamKind::By | ParamKind::Along => true,
    }
}

/// The number of 32 bits in two's complement.
pub fn signed(bits: u32) -> i32
    ensures { result ≡ signed bits }
{
    if bits < 2147483648 {
        bits as i32
    } else {
        -((u32::MAX - bits) as i32) - 1
    }
}

fn step_by(number: i32) -> Step
    ensures { result ≡ step_by number }
{
    if number == 1 {
        Step::One
    } else {
        Step::By(number)
    }
}

fn is_step(step: Step) -> bool
    ensures { result ≡ is_step [] step }
{
    match step {
        Step::One => true,
        Step::By(n) => n != 0 && n != 1 && n != i32::MIN,
        Step::Arg(_) => false,
    }
}

// The bytes of the element of a pointer.
fn element_bytes(number: u8) -> i32
    ensures bytes { result ≡ pos (element_bytes number) }
{
    match number % 4 {
        0 => 1,
        1 => 2,
        2 => 4,
        _ => 8,
    }
}

fn is_whole(number: u8, step: i32) -> bool
    ensures { result ≡ is_whole number step }
{
    is_integer(number) || step % element_bytes(number) == 0
}

fn is_whole_of(ctype: Option<CType>, step: i32) -> bool
    ensures { result ≡ where_known (λ t. is_whole (ctype_number t) step) ctype }
{
    match ctype {
        Some(ctype) => is_whole(u8::from(ctype), step),
        None => true,
    }
}

fn step_fits(ctype: Option<CType>, bits: u32) -> bool
    ensures { result ≡ (is_step [] (step_by (signed bits)) && where_known (λ t. is_whole (ctype_number t) (signed bits)) ctype) }
{
    let number = signed(bits);
    is_step(step_by(number)) && is_whole_of(ctype, number)
}

/// Whether a parameter of the type and the kind may have the value.
pub fn value_fits(ctype: Option<CType>, kind: ParamKind, value: u32) -> bool
    ensures { result ≡ value_fits ctype kind value }
{
    match kind {
        ParamKind::Vector | ParamKind::Uniform => value == 0,
        ParamKind::By => step_fits(ctype, value),
        ParamKind::Along => true,
    }
}

fn is_alignment_of(ctype: Option<CType>) -> bool
    ensures { result ≡ where_known (λ t. is_pointer (ctype_number t)) ctype }
{
    match ctype {
        Some(ctype) => is_pointer(u8::from(ctype)),
        None => true,
    }
}

/// Whether a parameter of the type may be aligned so.
pub fn align_fits(ctype: Option<CType>, align: Option<u32>) -> bool
    ensures { result ≡ align_fits ctype align }
{
    let param = Param {
        kind: Kind::Vector,
        align,
    };
    match align {
        Some(_) => are_kinds(&[param]) && is_alignment_of(ctype),
        None => true,
    }
}

// The kind, of the low byte of the number of a parameter that it names.
fn kind_of(kind: ParamKind, value: u32) -> Kind
    ensures { result ≡ kind_of kind (cut_value kind value) }
{
    match kind {
        ParamKind::Vector => Kind::Vector,
        ParamKind::Uniform => Kind::Uniform,
        ParamKind::By => Kind::Linear(step_by(signed(value))),
        ParamKind::Along => Kind::Linear(Step::Arg((value % 256) as u8)),
    }
}

/// The parameter that the row stands for, where one that it names has a number of one byte.
pub fn param_of(row: ParamRow) -> Param
    ensures { result ≡ param_of (cut_row row) }
{
    Param {
        kind: kind_of(row.kind, row.value),
        align: row.align,
    }
}
