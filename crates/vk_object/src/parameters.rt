// The parameters of variants.

ghost use Rattle.std.specs.Prelude.{◌≡◌, map, pos};
ghost use Rattle.vk_kinds.specs.Types.{ctype_number};
ghost use Rattle.vk_object.specs.Parameters.{are_kinds, are_typed, element_bytes, is_aligned, is_aligned_at, is_alignment, is_kind, is_kind_at, is_param, is_param_at, is_step, is_step_at, is_uniform, is_whole};
ghost use Rattle.vk_object.specs.Inner.Fit.{is_fit};

use vk_code::types::{is_integer, is_pointer};
use vk_kinds::{CType, Kind, Param, Step};

/// The greatest alignment.
pub const MAX_ALIGNMENT: u32 = 65536;

/// Whether the parameters are in range.
pub fn are_kinds(params: &[Param]) -> bool
    ensures { result ≡ are_kinds params.now }
{
    params.iter().all(|param| is_param(params, *param))
}

fn is_param(params: &[Param], param: Param) -> bool
    ensures { result ≡ is_param params.now param }
{
    is_kind(params, param.kind) && is_aligned(param.align)
}

// Whether the kind is vector, uniform or linear, by a step in range.
fn is_kind(params: &[Param], kind: Kind) -> bool
    ensures { result ≡ is_kind params.now kind }
{
    match kind {
        Kind::Vector | Kind::Uniform => true,
        Kind::Linear(step) => is_step(params, step),
        Kind::Ref(_) | Kind::Val(_) | Kind::Uval(_) => false,
    }
}

// Whether the step is in range, or that of a uniform parameter.
fn is_step(params: &[Param], step: Step) -> bool
    ensures { result ≡ is_step params.now step }
{
    match step {
        Step::One => true,
        Step::By(n) => n != 0 && n != 1 && n != i32::MIN,
        Step::Arg(place) => match params.get(usize::from(place)) {
            Some(param) => is_uniform(param.kind),
            None => false,
        },
    }
}

fn is_uniform(kind: Kind) -> bool
    ensures { result ≡ is_uniform kind }
{
    match kind {
        Kind::Uniform => true,
        Kind::Vector | Kind::Linear(_) | Kind::Ref(_) => false,
        Kind::Val(_) | Kind::Uval(_) => false,
    }
}

fn is_aligned(align: Option<u32>) -> bool
    ensures { result ≡ is_aligned align }
{
    match align {
        Some(bytes) => is_alignment(bytes),
        None => true,
    }
}

// Whether it is a power of two from 1 to 65536.
fn is_alignment(bytes: u32) -> bool
    ensures { result ≡ is_alignment bytes }
{
    0 < bytes && bytes <= MAX_ALIGNMENT && MAX_ALIGNMENT % bytes == 0
}

/// Whether the parameters are fit for the types, one for each.
pub fn are_typed(types: &[CType], params: &[Param]) -> bool
    ensures { result ≡ are_typed (map ctype_number types.now) params.now }
{
    if types.len() != params.len() {
        return false;
    }
    for at in 0..types.len() {
        if !is_fit(types, types[at], params[at]) {
            return false;
        }
    }
    true
}

// Whether the parameter is fit for the type.
fn is_fit(types: &[CType], ctype: CType, param: Param) -> bool
    ensures { result ≡ is_fit types.now ctype param }
{
    is_param_at(types, u8::from(ctype), param)
}

// Whether the parameter is fit for the type with this number.
fn is_param_at(types: &[CType], number: u8, param: Param) -> bool
    ensures { result ≡ is_param_at (map ctype_number types.now) number param }
{
    is_kind_at(types, number, param.kind) && is_aligned_at(number, param.align)
}

// A written pointer is not uniform.
fn is_kind_at(types: &[CType], number: u8, kind: Kind) -> bool
    ensures { result ≡ is_kind_at (map ctype_number types.now) number kind }
{
    match kind {
        Kind::Vector => true,
        Kind::Uniform => !(8 <= number && number < 16),
        Kind::Linear(step) => is_step_at(types, number, step),
        Kind::Ref(_) | Kind::Val(_) | Kind::Uval(_) => false,
    }
}

// A step argument is an integer, and a constant step of a pointer counts whole elements.
fn is_step_at(types: &[CType], number: u8, step: Step) -> bool
    ensures { result ≡ is_step_at (map ctype_number types.now) number step }
{
    match step {
        Step::One => is_whole(number, 1),
        Step::By(n) => is_whole(number, n),
        Step::Arg(place) => match types.get(usize::from(place)) {
            Some(ctype) => is_integer(u8::from(*ctype)),
            None => false,
        },
    }
}

fn is_whole(number: u8, step: i32) -> bool
    ensures { result ≡ is_whole number step }
{
    is_integer(number) || step % element_bytes(number) == 0
}

// The bytes of the element of a pointer.
fn element_bytes(number: u8) -> i32
    ensures bytes { result ≡ pos (element_bytes number) }
{
    match number % 4 {
        0 => 1,
        1 => 2,
        2 => 4,
        _ => 8,
    }
}

// Only a pointer is aligned.
fn is_aligned_at(number: u8, align: Option<u32>) -> bool
    ensures { result ≡ is_aligned_at number align }
{
    match align {
        Some(_) => is_pointer(number),
        None => true,
    }
}
