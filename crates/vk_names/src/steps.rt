// Reading the digits and the parameters of a name byte by byte.
//
// A place past `u32::MAX` is kept as `u32::MAX`.
ghost use Rattle.std.specs.Prelude.{◌≡◌, ◌+◌, ◌-◌, ◌≤◌, pos, negsuc, IfOk};
ghost use Rattle.vk_names.specs.Pieces.{told_at};
ghost use Rattle.vk_names.specs.Inner.Steps.{with_digit, run_from, with_byte, number_of, position_of, align_of, step_of_run, with_step, item_of, item_with, param_of, opens_align};

use crate::rules::{NameFault, NameRule};
use vk_kinds::{Kind, Param, Step};

/// A run of digits that may go on.
#[derive(Clone, Copy)]
pub(crate) struct Run {
    /// The place where it begins.
    pub(crate) at: u32,
    /// How many digits it has so far, at most `u32::MAX`.
    pub(crate) len: u32,
    /// Whether it begins with 0.
    pub(crate) zero: bool,
    /// The number of its digits, at most `u32::MAX`.
    pub(crate) value: u32,
}

/// Where the digits of a step stand.
#[derive(Clone, Copy)]
pub(crate) enum Form {
    /// After the kind's letter.
    Plain,
    /// After `n`.
    Negative,
    /// After `s`.
    Position,
}

/// The front of a parameter.
#[derive(Clone, Copy)]
pub(crate) enum Item {
    /// A letter after which a step may follow. The kind has the step `One`.
    Bare(Kind),
    /// The digits of a step.
    Digits(Kind, Form, Run),
    /// A kind without a step.
    Whole(Kind),
    /// A kind, `a`, and the digits of an alignment.
    Align(Kind, Run),
}

/// The place after this one.
pub(crate) fn after(at: u32) -> u32
    ensures { result ≡ told_at (at + 1) }
{
    at.saturating_add(1)
}

/// A run that begins at this place.
pub(crate) fn run_from(at: u32) -> Run
    ensures { result ≡ run_from at }
{
    Run {
        at,
        len: 0,
        zero: false,
        value: 0,
    }
}

/// The number with one more digit, at most `u32::MAX`.
fn with_digit(value: u32, byte: u8) -> u32
    ensures { result ≡ with_digit value byte }
{
    (u64::from(value) * 10 + u64::from(byte.saturating_sub(b'0'))).min(u64::from(u32::MAX)) as u32
}

/// The run with one more digit.
pub(crate) fn with_byte(run: Run, byte: u8) -> Run
    ensures { result ≡ with_byte run byte }
{
    Run {
        at: run.at,
        len: after(run.len),
        zero: if run.len == 0 { byte == b'0' } else { run.zero },
        value: with_digit(run.value, byte),
    }
}

/// A number without a leading 0 that is in the range.
pub(crate) fn number_of(low: u32, high: u32, rule: NameRule, run: Run) -> Result<u32, NameFault>
    ensures value { result ≡ number_of low high rule run }
    ensures low { IfOk result (λ n. low ≤ n) }
    ensures high { IfOk result (λ n. n ≤ high) }
{
    if run.zero || run.value < low || high < run.value {
        return Err(NameFault { at: run.at, rule });
    }
    Ok(run.value)
}

/// A position without a leading 0, at most 255.
fn position_of(run: Run) -> Result<u8, NameFault>
    ensures { result ≡ position_of run }
{
    if run.len == 0 || run.zero && 1 < run.len {
        return Err(NameFault {
            at: run.at,
            rule: NameRule::N6,
        });
    }
    Ok(run.value.min(255) as u8)
}

/// An alignment.
fn align_of(run: Run) -> Result<u32, NameFault>
    ensures { result ≡ align_of run }
{
    match number_of(1, 65536, NameRule::N8, run) {
        Ok(align) if align.is_power_of_two() => Ok(align),
        Ok(_) => Err(NameFault {
            at: run.at,
            rule: NameRule::N8,
        }),
        Err(fault) => Err(fault),
    }
}

/// A plain step.
fn plain_step(size: u32) -> Step
    requires { size ≤ 2147483647 }
    ensures { result ≡ Step.By (pos size) }
{
    Step::By(size as i32)
}

/// A negative step.
fn negative_step(size: u32) -> Step
    requires low { 1 ≤ size }
    requires high { size ≤ 2147483647 }
    ensures { result ≡ Step.By (negsuc (size - 1)) }
{
    Step::By(-(size as i32))
}

/// The step that the digits say.
fn step_of_run(form: Form, run: Run) -> Result<Step, NameFault>
    ensures { result ≡ step_of_run form run }
{
    match form {
        Form::Plain => Ok(plain_step(number_of(2, 2147483647, NameRule::N6, run)?)),
        Form::Negative => Ok(negative_step(number_of(1, 2147483647, NameRule::N6, run)?)),
        Form::Position => Ok(Step::Arg(position_of(run)?)),
    }
}

/// The kind with a step in place of its own.
fn with_step(kind: Kind, step: Step) -> Kind
    ensures { result ≡ with_step kind step }
{
    match kind {
        Kind::Vector => Kind::Vector,
        Kind::Uniform => Kind::Uniform,
        Kind::Linear(_) => Kind::Linear(step),
        Kind::Ref(_) => Kind::Ref(step),
        Kind::Val(_) => Kind::Val(step),
        Kind::Uval(_) => Kind::Uval(step),
    }
}

/// What a letter begins.
pub(crate) fn item_of(byte: u8) -> Option<Item>
    ensures { result ≡ item_of byte }
{
    match byte {
        b'v' => Some(Item::Whole(Kind::Vector)),
        b'u' => Some(Item::Whole(Kind::Uniform)),
        b'l' => Some(Item::Bare(Kind::Linear(Step::One))),
        b'R' => Some(Item::Bare(Kind::Ref(Step::One))),
        b'L' => Some(Item::Bare(Kind::Val(Step::One))),
        b'U' => Some(Item::Bare(Kind::Uval(Step::One))),
        _ => None,
    }
}

/// The item with a byte that goes on with its step or with its digits, at this place.
pub(crate) fn item_with(item: Item, at: u32, byte: u8) -> Option<Item>
    ensures { result ≡ item_with item at byte }
{
    match item {
        Item::Bare(kind) => match byte {
            b'n' => Some(Item::Digits(kind, Form::Negative, run_from(after(at)))),
            b's' => Some(Item::Digits(kind, Form::Position, run_from(after(at)))),
            b'0'..=b'9' => Some(Item::Digits(kind, Form::Plain, with_byte(run_from(at), byte))),
            _ => None,
        },
        Item::Digits(kind, form, run) if byte.is_ascii_digit() => {
            Some(Item::Digits(kind, form, with_byte(run, byte)))
        }
        Item::Align(kind, run) if byte.is_ascii_digit() => {
            Some(Item::Align(kind, with_byte(run, byte)))
        }
        _ => None,
    }
}

/// The parameter that the item is, where it ends.
pub(crate) fn param_of(item: Item) -> Result<Param, NameFault>
    ensures { result ≡ param_of item }
{
    match item {
        Item::Bare(kind) => Ok(Param { kind, align: None }),
        Item::Whole(kind) => Ok(Param { kind, align: None }),
        Item::Digits(kind, form, run) => Ok(Param {
            kind: with_step(kind, step_of_run(form, run)?),
            align: None,
        }),
        Item::Align(kind, run) => Ok(Param {
            kind,
            align: Some(align_of(run)?),
        }),
    }
}

/// Whether the byte begins the alignment of a parameter that has none.
pub(crate) fn opens_align(param: Param, byte: u8) -> bool
    ensures { result ≡ opens_align param byte }
{
    param.align.is_none() && byte == b'a'
}
