// What a vector name says, in words.

ghost use Rattle.std.specs.Prelude.{◌≡◌, [], ◌∷◌, ◌++◌, string_bytes, OnOk, true};
ghost use Rattle.std.specs.List.{flat_map, list_all};
ghost use Rattle.vk_names.specs.Spelling.{is_name_byte, isa_letter, name_of};
ghost use Rattle.vk_cmd_demangle.specs.Lines.{align_words, kind_words, len_words, mask_words, name_line, param_words, step_words};

use std::alloc::AllocError;
use vk_kinds::{Isa, Kind, Len, Param, Step};
use vk_names::NameHead;

/// Adds the line of a name: its scalar name, and what stands before that in words.
pub fn describe(text: &mut String, head: &NameHead, scalar: &[u8]) -> Result<(), AllocError>
    requires { list_all is_name_byte scalar.now ≡ true }
    ensures { OnOk result (string_bytes text.new ≡ string_bytes text.old ++ name_line (name_of head.now scalar.now)) }
{
    let scalar = scalar_text(scalar);
    let isa = letter(head.isa);
    let mask = mask_text(head.masked);
    write!(text, "{scalar} isa {isa}{mask}")?;
    push_len(text, head.len)?;
    push_params(text, head.params.as_slice())?;
    end_line(text)
}

// Adds a newline.
fn end_line(text: &mut String) -> Result<(), AllocError>
    ensures { OnOk result (string_bytes text.new ≡ string_bytes text.old ++ 10 ∷ []) }
{
    text.push_str("\n")
}

// The scalar name as text.
fn scalar_text(scalar: &[u8]) -> &str
    requires { list_all is_name_byte scalar.now ≡ true }
    ensures { result.now ≡ scalar.now }
{
    match std::str::from_utf8(scalar) {
        Ok(text) => text,
        Err(_) => unreachable!(),
    }
}

// The letter of an instruction set.
fn letter(isa: Isa) -> &'static str
    ensures { result.now ≡ isa_letter isa ∷ [] }
{
    match isa {
        Isa::B => "b",
        Isa::C => "c",
        Isa::D => "d",
        Isa::E => "e",
        Isa::N => "n",
        Isa::S => "s",
    }
}

// Whether there is a mask.
fn mask_text(masked: bool) -> &'static str
    ensures { result.now ≡ mask_words masked }
{
    if masked {
        " masked lanes "
    } else {
        " unmasked lanes "
    }
}

// Adds how many lanes there are.
fn push_len(text: &mut String, len: Len) -> Result<(), AllocError>
    ensures { OnOk result (string_bytes text.new ≡ string_bytes text.old ++ len_words len) }
{
    match len {
        Len::Fixed(lanes) => write!(text, "{lanes}"),
        Len::Scalable => text.push_str("scalable"),
    }
}

// Adds all parameters, a blank before each.
fn push_params(text: &mut String, params: &[Param]) -> Result<(), AllocError>
    ensures { OnOk result (string_bytes text.new ≡ string_bytes text.old ++ flat_map param_words params.now) }
{
    for param in params {
        push_param(text, param)?;
    }
    Ok(())
}

// Adds a blank, and the kind and alignment of a parameter.
fn push_param(text: &mut String, param: &Param) -> Result<(), AllocError>
    ensures { OnOk result (string_bytes text.new ≡ string_bytes text.old ++ param_words param.now) }
{
    text.push_str(" ")?;
    push_kind(text, param.kind)?;
    push_align(text, param.align)
}

// Adds the kind of a parameter, and its step.
fn push_kind(text: &mut String, kind: Kind) -> Result<(), AllocError>
    ensures { OnOk result (string_bytes text.new ≡ string_bytes text.old ++ kind_words kind) }
{
    match kind {
        Kind::Vector => text.push_str("vector"),
        Kind::Uniform => text.push_str("uniform"),
        Kind::Linear(step) => push_step(text, "linear(", step),
        Kind::Ref(step) => push_step(text, "ref(", step),
        Kind::Val(step) => push_step(text, "val(", step),
        Kind::Uval(step) => push_step(text, "uval(", step),
    }
}

// Adds a word and the step from lane to lane in parentheses, the first of which ends the word.
fn push_step(text: &mut String, word: &str, step: Step) -> Result<(), AllocError>
    ensures { OnOk result (string_bytes text.new ≡ string_bytes text.old ++ (word.now ++ (step_words step ++ 41 ∷ []))) }
{
    match step {
        Step::One => write!(text, "{word}1)"),
        Step::By(step) => write!(text, "{word}{step})"),
        Step::Arg(at) => write!(text, "{word}arg {at})"),
    }
}

// Adds the alignment that is promised, if one is.
fn push_align(text: &mut String, align: Option<u32>) -> Result<(), AllocError>
    ensures { OnOk result (string_bytes text.new ≡ string_bytes text.old ++ align_words align) }
{
    match align {
        Some(align) => write!(text, ":aligned({align})"),
        None => Ok(()),
    }
}
