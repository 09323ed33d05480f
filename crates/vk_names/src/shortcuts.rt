// Reading many bytes of a name at once, where they stand in the usual way. Each function gives what `state_on` gives of its
// bytes, one after the other; where they stand in another way, they are read one by one.
ghost use Rattle.std.specs.Prelude.{◌≡◌, ℕ, ◌==◌, List, length, false, IfSome};
ghost use Rattle.vk_kinds.specs.declared.kinds.Length.{Length};
ghost use Rattle.vk_kinds.specs.declared.kinds.Param.{Param};
ghost use Rattle.vk_names.specs.Inner.Steps.{pushed, run_from};
ghost use Rattle.vk_names.specs.Inner.Many.{from, is_settled, scalar_goes_on, digits_of, IsBefore};

use crate::rules::NameRule;
use crate::states::{Found, State, is_name_byte, isa_on, len_on, mask_on, state_on, underscore_on};
use crate::steps::{
    Form, Item, Run, after, item_of, item_with, number_of, opens_align, param_of, run_from,
    with_byte,
};
use vk_kinds::{Isa, Kind, Len, Length, Param, Params};

/// Whether the state stays, whatever follows.
fn is_settled(state: State) -> bool
    ensures { result ≡ is_settled state }
{
    matches!(state, State::Done(_) | State::Fault(_))
}

/// The bytes one by one.
#[inline(never)]
fn bytes_on(state: State, params: &mut Params, bytes: &[u8]) -> State
    ensures { (result, params.new.items) ≡ from state params.old.items bytes.now }
{
    let mut state = state;
    let mut rest = bytes;
    while let [byte, tail @ ..] = rest
        && !is_settled(state)
    {
        state = state_on(state, params, *byte);
        rest = tail;
    }
    state
}

/// Adds a parameter, where there is room.
fn push(params: &mut Params, param: Param)
    ensures { params.new.items ≡ pushed params.old.items param }
{
    let _fits = params.try_push(param);
}

// ---- the scalar name

/// Whether the byte goes on with the scalar name.
fn scalar_goes_on(found: Found, byte: u8) -> bool
    ensures { result ≡ scalar_goes_on found byte }
{
    is_name_byte(byte)
        && !(found.used == found.scalar_at && byte.is_ascii_digit())
        && u64::from(found.used) != u64::from(found.scalar_at) + 1024
}

/// In the scalar name.
fn scalar_run(found: Found, params: &mut Params, bytes: &[u8]) -> State
    ensures { (result, params.new.items) ≡ from (State.Scalar found) params.old.items bytes.now }
{
    let mut used = found.used;
    let mut rest = bytes;
    while let [byte, tail @ ..] = rest
        && scalar_goes_on(Found { used, ..found }, *byte)
    {
        used = after(used);
        rest = tail;
    }
    let found = Found { used, ..found };
    if rest.is_empty() {
        return State::Scalar(found);
    }
    bytes_on(State::Scalar(found), params, rest)
}

// ---- parameters

/// The place and the run after the digits in front, and what follows them.
fn digits_of(at: u32, run: Run, bytes: &[u8]) -> (u32, Run, &[u8])
    ensures { (result.0, result.1, result.2.now) ≡ digits_of at run bytes.now }
{
    let mut at = at;
    let mut run = run;
    let mut rest = bytes;
    while let [byte, tail @ ..] = rest
        && byte.is_ascii_digit()
    {
        at = after(at);
        run = with_byte(run, *byte);
        rest = tail;
    }
    (at, run, rest)
}

/// A step in digits, from its digits on: the item, the place after it, and what follows.
fn step_digits(kind: Kind, form: Form, at: u32, run: Run, bytes: &[u8]) -> (Item, u32, &[u8])
    ensures { (front : Length) (params : List Param)
        → from (State.Inside front at (Item.Digits kind form run)) params bytes.now
        ≡ from (State.Inside front result.1 result.0) params result.2.now }
{
    let (at, run, rest) = digits_of(at, run, bytes);
    (Item::Digits(kind, form, run), at, rest)
}

/// A kind with its step: the item, the place after it, and what follows.
fn step_at(kind: Kind, at: u32, bytes: &[u8]) -> (Item, u32, &[u8])
    ensures { (front : Length) (params : List Param)
        → from (State.Inside front at (Item.Bare kind)) params bytes.now
        ≡ from (State.Inside front result.1 result.0) params result.2.now }
{
    match bytes {
        [b'n', tail @ ..] => {
            let at = after(at);
            step_digits(kind, Form::Negative, at, run_from(at), tail)
        }
        [b's', tail @ ..] => {
            let at = after(at);
            step_digits(kind, Form::Position, at, run_from(at), tail)
        }
        [byte, tail @ ..] if byte.is_ascii_digit() => {
            let run = with_byte(run_from(at), *byte);
            step_digits(kind, Form::Plain, after(at), run, tail)
        }
        _ => (Item::Bare(kind), at, bytes),
    }
}

/// The parameter that an item without an alignment is, where another byte of the name follows it.
fn param_before(item: Item, at: u32, byte: u8) -> Option<Param>
    ensures { IfSome result (λ param. IsBefore item at byte param) }
{
    if !is_name_byte(byte) || item_with(item, at, byte).is_some() {
        return None;
    }
    param_of(item).ok()
}

/// The parameter with an alignment, from the alignment's digits on; the place after it, and what follows.
fn aligned_at(kind: Kind, at: u32, bytes: &[u8]) -> Option<(Param, u32, &[u8])>
    ensures { (front : Length) (params : List Param)
        → IfSome result (λ r. from (State.Inside front at (Item.Align kind (run_from at))) params bytes.now
        ≡ from (State.Next front r.1) (pushed params r.0) r.2.now) }
{
    let (at, run, rest) = digits_of(at, run_from(at), bytes);
    let [byte, ..] = rest else {
        return None;
    };
    let param = param_before(Item::Align(kind, run), at, *byte)?;
    Some((param, at, rest))
}

/// The parameter that ends here or goes on with an alignment, the place after it, and what follows.
fn param_from(item: Item, at: u32, bytes: &[u8]) -> Option<(Param, u32, &[u8])>
    ensures { (front : Length) (params : List Param)
        → IfSome result (λ r. from (State.Inside front at item) params bytes.now
        ≡ from (State.Next front r.1) (pushed params r.0) r.2.now) }
{
    let [byte, tail @ ..] = bytes else {
        return None;
    };
    let param = param_before(item, at, *byte)?;
    if opens_align(param, *byte) {
        aligned_at(param.kind, after(at), tail)
    } else {
        Some((param, at, bytes))
    }
}

/// A whole parameter after which the name goes on, the place after it, and what follows.
fn param_at(at: u32, bytes: &[u8]) -> Option<(Param, u32, &[u8])>
    ensures { (front : Length) (params : List Param) → (length params == 64) ≡ false
        → IfSome result (λ r. from (State.Next front at) params bytes.now
        ≡ from (State.Next front r.1) (pushed params r.0) r.2.now) }
{
    let [byte, tail @ ..] = bytes else {
        return None;
    };
    if !is_name_byte(*byte) || *byte == b'_' {
        return None;
    }
    match item_of(*byte)? {
        Item::Bare(kind) => {
            let (item, at, rest) = step_at(kind, after(at), tail);
            param_from(item, at, rest)
        }
        item => param_from(item, after(at), tail),
    }
}

/// Where a parameter or the `_` is wanted.
fn params_run(front: Length, params: &mut Params, at: u32, bytes: &[u8]) -> State
    ensures { (result, params.new.items) ≡ from (State.Next front at) params.old.items bytes.now }
{
    let mut at = at;
    let mut rest = bytes;
    while !params.is_full()
        && let Some((param, next, tail)) = param_at(at, rest)
    {
        push(params, param);
        at = next;
        rest = tail;
    }
    if let [b'_', tail @ ..] = rest
        && let State::Scalar(found) = underscore_on(front, params.as_slice(), at)
    {
        return scalar_run(found, params, tail);
    }
    bytes_on(State::Next(front, at), params, rest)
}

// ---- the front

/// The letters in front, and what follows them.
fn letters_at(bytes: &[u8]) -> Option<(Isa, bool, &[u8])>
    ensures { (params : List Param)
        → IfSome result (λ r. from (State.Mark 0) params bytes.now ≡ from (State.AtLen r.0 r.1) params r.2.now) }
{
    let [b'_', b'Z', b'G', b'V', isa, mask, rest @ ..] = bytes else {
        return None;
    };
    if !is_name_byte(*isa) || !is_name_byte(*mask) {
        return None;
    }
    let State::AtMask(isa) = isa_on(*isa) else {
        return None;
    };
    let State::AtLen(isa, masked) = mask_on(isa, *mask) else {
        return None;
    };
    Some((isa, masked, rest))
}

/// The front with a length in digits, of which the first was read, the place after it, and what follows.
fn fixed_at(isa: Isa, masked: bool, run: Run, bytes: &[u8]) -> Option<(Length, u32, &[u8])>
    ensures { (params : List Param)
        → IfSome result (λ r. from (State.LenDigits isa masked run) params bytes.now
        ≡ from (State.Next r.0 r.1) params r.2.now) }
{
    let (_, run, rest) = digits_of(0, run, bytes);
    let [byte, ..] = rest else {
        return None;
    };
    if !is_name_byte(*byte) || byte.is_ascii_digit() {
        return None;
    }
    let lanes = number_of(1, 65535, NameRule::N4, run).ok()?;
    let len = Len::Fixed(lanes as u16);
    Some((Length { isa, masked, len }, run.len.saturating_add(6), rest))
}

/// The front after its letters, the place after it, and what follows.
fn len_at(isa: Isa, masked: bool, bytes: &[u8]) -> Option<(Length, u32, &[u8])>
    ensures { (params : List Param)
        → IfSome result (λ r. from (State.AtLen isa masked) params bytes.now ≡ from (State.Next r.0 r.1) params r.2.now) }
{
    let [byte, rest @ ..] = bytes else {
        return None;
    };
    if !is_name_byte(*byte) {
        return None;
    }
    match len_on(isa, masked, *byte) {
        State::Next(front, at) => Some((front, at, rest)),
        State::LenDigits(isa, masked, run) => fixed_at(isa, masked, run, rest),
        _ => None,
    }
}

/// The front, the place after it, and what follows.
fn front_at(bytes: &[u8]) -> Option<(Length, u32, &[u8])>
    ensures { (params : List Param)
        → IfSome result (λ r. from (State.Mark 0) params bytes.now ≡ from (State.Next r.0 r.1) params r.2.now) }
{
    let (isa, masked, rest) = letters_at(bytes)?;
    len_at(isa, masked, rest)
}

/// The state after some bytes, and the parameters, of which those that are whole are added.
pub(crate) fn run_on(state: State, params: &mut Params, bytes: &[u8]) -> State
    ensures { (result, params.new.items) ≡ from state params.old.items bytes.now }
{
    match state {
        State::Mark(0) => match front_at(bytes) {
            Some((front, at, rest)) => params_run(front, params, at, rest),
            None => bytes_on(state, params, bytes),
        },
        State::Next(front, at) => params_run(front, params, at, bytes),
        State::Scalar(found) => scalar_run(found, params, bytes),
        _ => bytes_on(state, params, bytes),
    }
}
