// Writing a name.
ghost use Rattle.std.specs.Prelude.{◌≡◌, ◌+◌, ◌≤◌, [], ◌∷◌, ◌++◌, length, map, decimal, Some};
ghost use Rattle.arrayvec.specs.ArrayVec.{array_vec_len};
ghost use Rattle.vk_names.specs.Inner.Steps.{head_len};
ghost use Rattle.vk_names.specs.Spelling.{mark, isa_letter, mask_letter, len_text, step_text, kind_text, kind_letter, align_text, written_text, params_text, position_in, in_decimal, step_of, name_text, name_of, IsName};

use crate::names::NameHead;
use arrayvec::ArrayVec;
use itoa::Buffer;
use vk_kinds::{Isa, Kind, Len, Length, Param, Step};

type Text = ArrayVec<u8, 4096>;

/// Appends bytes.
fn push_bytes(out: &mut Text, bytes: &[u8])
    requires { array_vec_len out.old + length bytes.now ≤ 4096 }
    ensures items { out.new.items ≡ out.old.items ++ bytes.now }
    ensures len { array_vec_len out.new ≡ array_vec_len out.old + length bytes.now }
{
    let _fits = out.try_extend_from_slice(bytes);
}

/// Appends a number.
fn push_number(out: &mut Text, number: u32)
    requires { array_vec_len out.old + 10 ≤ 4096 }
    ensures items { out.new.items ≡ out.old.items ++ decimal number }
    ensures len { array_vec_len out.new ≤ array_vec_len out.old + 10 }
{
    let mut buffer = Buffer::new();
    push_bytes(out, buffer.format(number).as_bytes());
}

fn isa_letter(isa: Isa) -> u8
    ensures { result ≡ isa_letter isa }
{
    match isa {
        Isa::B => b'b',
        Isa::C => b'c',
        Isa::D => b'd',
        Isa::E => b'e',
        Isa::N => b'n',
        Isa::S => b's',
    }
}

fn mask_letter(masked: bool) -> u8
    ensures { result ≡ mask_letter masked }
{
    if masked { b'M' } else { b'N' }
}

fn kind_letter(kind: Kind) -> u8
    ensures { result ≡ kind_letter kind }
{
    match kind {
        Kind::Vector => b'v',
        Kind::Uniform => b'u',
        Kind::Linear(_) => b'l',
        Kind::Ref(_) => b'R',
        Kind::Val(_) => b'L',
        Kind::Uval(_) => b'U',
    }
}

/// Appends what stands before the length.
fn push_letters(out: &mut Text, isa: Isa, masked: bool)
    requires { array_vec_len out.old + 6 ≤ 4096 }
    ensures items { out.new.items ≡ out.old.items ++ (mark ++ (isa_letter isa ∷ mask_letter masked ∷ [])) }
    ensures len { array_vec_len out.new ≡ array_vec_len out.old + 6 }
{
    push_bytes(
        out,
        &[b'_', b'Z', b'G', b'V', isa_letter(isa), mask_letter(masked)],
    );
}

/// Appends the length.
fn push_len(out: &mut Text, len: Len)
    requires { array_vec_len out.old + 10 ≤ 4096 }
    ensures items { out.new.items ≡ out.old.items ++ len_text len }
    ensures len { array_vec_len out.new ≤ array_vec_len out.old + 10 }
{
    match len {
        Len::Fixed(number) => push_number(out, u32::from(number)),
        Len::Scalable => push_bytes(out, b"x"),
    }
}

/// Appends a step.
fn push_step(out: &mut Text, step: Step)
    requires room { array_vec_len out.old + 11 ≤ 4096 }
    ensures items { out.new.items ≡ out.old.items ++ step_text step (decimal (position_in (Some step))) }
    ensures len { array_vec_len out.new ≤ array_vec_len out.old + 11 }
{
    match step {
        Step::One => {}
        Step::By(number) => {
            if number < 0 {
                push_bytes(out, b"n");
            }
            push_number(out, number.unsigned_abs());
        }
        Step::Arg(at) => {
            push_bytes(out, b"s");
            push_number(out, u32::from(at));
        }
    }
}

/// Appends a kind.
fn push_kind(out: &mut Text, kind: Kind)
    requires { array_vec_len out.old + 12 ≤ 4096 }
    ensures items { out.new.items ≡ out.old.items ++ kind_text kind (decimal (position_in (step_of kind))) }
    ensures len { array_vec_len out.new ≤ array_vec_len out.old + 12 }
{
    out.push(kind_letter(kind));
    match kind {
        Kind::Vector => {}
        Kind::Uniform => {}
        Kind::Linear(step) => push_step(out, step),
        Kind::Ref(step) => push_step(out, step),
        Kind::Val(step) => push_step(out, step),
        Kind::Uval(step) => push_step(out, step),
    }
}

/// Appends an alignment, where there is one.
fn push_align(out: &mut Text, align: Option<u32>)
    requires { array_vec_len out.old + 11 ≤ 4096 }
    ensures items { out.new.items ≡ out.old.items ++ align_text align }
    ensures len { array_vec_len out.new ≤ array_vec_len out.old + 11 }
{
    if let Some(number) = align {
        push_bytes(out, b"a");
        push_number(out, number);
    }
}

/// Appends a parameter.
#[tactic(auto, unfolding(crate::specs::Spelling::written_text))]
fn push_param(out: &mut Text, param: Param)
    requires { array_vec_len out.old + 23 ≤ 4096 }
    ensures items { out.new.items ≡ out.old.items ++ written_text (in_decimal param) }
    ensures len { array_vec_len out.new ≤ array_vec_len out.old + 23 }
{
    push_kind(out, param.kind);
    push_align(out, param.align);
}

/// Appends the parameters.
fn push_params(out: &mut Text, params: &[Param])
    requires count { length params.now ≤ 64 }
    requires room { array_vec_len out.old ≤ 16 }
    ensures items { out.new.items ≡ out.old.items ++ params_text (map in_decimal params.now) }
    ensures len { array_vec_len out.new ≤ 1488 }
{
    for param in params {
        push_param(out, *param);
    }
}

/// How many bytes stand before the `_` that ends the parameters, if each number is in decimal.
#[tactic(auto, unfolding(crate::specs::Spelling::front_text))]
pub(crate) fn head_len(front: Length, params: &[Param]) -> u32
    requires { length params.now ≤ 64 }
    ensures value { result ≡ head_len front params.now }
    ensures short { result ≤ 1488 }
{
    let mut out = Text::new();
    push_letters(&mut out, front.isa, front.masked);
    push_len(&mut out, front.len);
    push_params(&mut out, params);
    out.len() as u32
}

/// Writes the one text of a name.
///
/// A name within its ranges has at most 2513 bytes, so it always fits.
#[tactic(auto, unfolding(crate::specs::Spelling::name_text, crate::specs::Spelling::front_text))]
pub fn write_name(head: &NameHead, scalar: &[u8], out: &mut ArrayVec<u8, 4096>)
    requires empty { out.old.items ≡ [] }
    requires in_range { IsName (name_of head.now scalar.now) }
    ensures { out.new.items ≡ name_text (name_of head.now scalar.now) }
{
    push_letters(out, head.isa, head.masked);
    push_len(out, head.len);
    push_params(out, head.params.as_slice());
    out.push(b'_');
    push_bytes(out, scalar);
}
