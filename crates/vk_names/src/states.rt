// Reading a name byte by byte, with a state of fixed size.
ghost use Rattle.std.specs.Prelude.{◌≡◌, ◌+◌, ◌≤◌, length};
ghost use Rattle.std.specs.List.{prefix_len, slice_get};
ghost use Rattle.vk_names.specs.Spelling.{is_name_byte, is_placed, is_uniform_param};
ghost use Rattle.vk_names.specs.Pieces.{told_at};
ghost use Rattle.vk_names.specs.Inner.Steps.{item_with, mark_on, isa_on, mask_on, len_on, digits_on, underscore_on, next_on, scalar_on, pushed, param_on, inside_on, byte_on, end_on, answered, state_on};

use crate::rules::{NameFault, NameRule};
use crate::steps::{
    Item, Run, after, item_of, item_with, number_of, opens_align, param_of, run_from, with_byte,
};
use crate::write::head_len;
use vk_kinds::{Isa, Kind, Len, Length, Param, Params, Step};

/// A name that ends here or goes on.
#[derive(Clone, Copy)]
pub(crate) struct Found {
    pub(crate) front: Length,
    /// The place of the scalar name's first byte.
    pub(crate) scalar_at: u32,
    /// How many bytes the name has so far.
    pub(crate) used: u32,
}

/// What the bytes so far are, but for the whole parameters.
#[derive(Clone, Copy)]
pub(crate) enum State {
    /// So many bytes of `_ZGV`.
    Mark(u8),
    /// `_ZGV`.
    AtIsa,
    /// All up to the letter of an instruction set.
    AtMask(Isa),
    /// All up to the mask letter.
    AtLen(Isa, bool),
    /// All up to some digits of the length.
    LenDigits(Isa, bool, Run),
    /// All up to this place, where a parameter or the `_` is wanted.
    Next(Length, u32),
    /// All up to this place, inside a parameter.
    Inside(Length, u32, Item),
    /// All up to some bytes of the scalar name.
    Scalar(Found),
    /// A name and a byte that ends it, whatever follows.
    Done(Found),
    /// Refused, whatever follows.
    Fault(NameFault),
}

fn refused(at: u32, rule: NameRule) -> State
    ensures { result ≡ State.Fault (record { at = at; rule = rule }) }
{
    State::Fault(NameFault { at, rule })
}

/// After so many bytes of `_ZGV`.
fn mark_on(read: u8, byte: u8) -> State
    ensures { result ≡ mark_on read byte }
{
    match (read, byte) {
        (0, b'_') => State::Mark(1),
        (1, b'Z') => State::Mark(2),
        (2, b'G') => State::Mark(3),
        (3, b'V') => State::AtIsa,
        _ => refused(u32::from(read), NameRule::N1),
    }
}

/// After `_ZGV`.
pub(crate) fn isa_on(byte: u8) -> State
    ensures { result ≡ isa_on byte }
{
    match byte {
        b'b' => State::AtMask(Isa::B),
        b'c' => State::AtMask(Isa::C),
        b'd' => State::AtMask(Isa::D),
        b'e' => State::AtMask(Isa::E),
        b'n' => State::AtMask(Isa::N),
        b's' => State::AtMask(Isa::S),
        _ => refused(4, NameRule::N2),
    }
}

/// After the letter of an instruction set.
pub(crate) fn mask_on(isa: Isa, byte: u8) -> State
    ensures { result ≡ mask_on isa byte }
{
    match byte {
        b'M' => State::AtLen(isa, true),
        b'N' => State::AtLen(isa, false),
        _ => refused(5, NameRule::N3),
    }
}

/// After the mask letter.
pub(crate) fn len_on(isa: Isa, masked: bool, byte: u8) -> State
    ensures { result ≡ len_on isa masked byte }
{
    match byte {
        b'x' => match isa {
            Isa::S if masked => State::Next(
                Length {
                    isa,
                    masked,
                    len: Len::Scalable,
                },
                7,
            ),
            _ => refused(6, NameRule::N11),
        },
        b'0'..=b'9' => State::LenDigits(isa, masked, with_byte(run_from(6), byte)),
        _ => refused(6, NameRule::N4),
    }
}

/// Whether the parameter at this place is uniform.
fn is_uniform_at(params: &[Param], at: u8) -> bool
    ensures { result ≡ is_uniform_param (slice_get params.now at) }
{
    match params.get(at as usize) {
        Some(param) => matches!(param.kind, Kind::Uniform),
        None => false,
    }
}

/// Whether the parameter's position, where it has one, names a uniform parameter.
fn is_placed(params: &[Param], param: Param) -> bool
    ensures { result ≡ is_placed params.now param }
{
    match param.kind {
        Kind::Linear(Step::Arg(at)) => is_uniform_at(params, at),
        Kind::Ref(Step::Arg(at)) => is_uniform_at(params, at),
        Kind::Val(Step::Arg(at)) => is_uniform_at(params, at),
        Kind::Uval(Step::Arg(at)) => is_uniform_at(params, at),
        _ => true,
    }
}

/// How many parameters stand before the first one whose position names no uniform parameter.
fn placed_len(params: &[Param]) -> usize
    ensures { result ≡ prefix_len (is_placed params.now) params.now }
{
    params.iter().take_while(|p| is_placed(params, **p)).count()
}

/// After the `_` that ends the parameters.
pub(crate) fn underscore_on(front: Length, params: &[Param], at: u32) -> State
    requires { length params.now ≤ 64 }
    ensures { result ≡ underscore_on front params.now at }
{
    let placed = placed_len(params);
    if placed == params.len() {
        State::Scalar(Found {
            front,
            scalar_at: after(at),
            used: after(at),
        })
    } else {
        // Before a misplaced position each number is in decimal, and the position follows a letter and `s`.
        refused(head_len(front, &params[..placed]) + 2, NameRule::N7)
    }
}

/// Where a parameter or the `_` is wanted.
fn next_on(front: Length, params: &[Param], at: u32, byte: u8) -> State
    requires { length params.now ≤ 64 }
    ensures { result ≡ next_on front params.now at byte }
{
    match item_of(byte) {
        _ if byte == b'_' => underscore_on(front, params, at),
        None => refused(at, NameRule::N5),
        Some(_) if params.len() == 64 => refused(at, NameRule::N12),
        Some(item) => State::Inside(front, after(at), item),
    }
}

/// After some digits of the length.
fn digits_on(isa: Isa, masked: bool, run: Run, params: &[Param], byte: u8) -> State
    requires { length params.now ≤ 64 }
    ensures { result ≡ digits_on isa masked run params.now byte }
{
    if byte.is_ascii_digit() {
        return State::LenDigits(isa, masked, with_byte(run, byte));
    }
    match number_of(1, 65535, NameRule::N4, run) {
        Err(fault) => State::Fault(fault),
        Ok(lanes) => {
            let front = Length {
                isa,
                masked,
                len: Len::Fixed(lanes as u16),
            };
            next_on(front, params, run.len.saturating_add(6), byte)
        }
    }
}

/// In the scalar name.
fn scalar_on(found: Found, byte: u8) -> State
    ensures { result ≡ scalar_on found byte }
{
    if found.used == found.scalar_at && byte.is_ascii_digit() {
        return refused(found.scalar_at, NameRule::N10);
    }
    if u64::from(found.used) == u64::from(found.scalar_at) + 1024 {
        return refused(found.used, NameRule::N10);
    }
    State::Scalar(Found {
        front: found.front,
        scalar_at: found.scalar_at,
        used: after(found.used),
    })
}

/// Where a parameter ended before the byte.
fn param_on(
    front: Length,
    params: &mut Params,
    at: u32,
    byte: u8,
    param: Result<Param, NameFault>,
) -> State
    ensures { (result, params.new.items) ≡ param_on front params.old.items at byte param }
{
    match param {
        Err(fault) => State::Fault(fault),
        Ok(param) if opens_align(param, byte) => State::Inside(
            front,
            after(at),
            Item::Align(param.kind, run_from(after(at))),
        ),
        Ok(param) => {
            let _fits = params.try_push(param);
            next_on(front, params.as_slice(), at, byte)
        }
    }
}

/// Inside a parameter.
fn inside_on(front: Length, params: &mut Params, at: u32, item: Item, byte: u8) -> State
    ensures { (result, params.new.items) ≡ inside_on front params.old.items at item byte (item_with item at byte) }
{
    match item_with(item, at, byte) {
        Some(longer) => State::Inside(front, after(at), longer),
        None => param_on(front, params, at, byte, param_of(item)),
    }
}

/// The state after a letter, a digit or an underscore. Parameters that are whole now are added.
#[tactic(auto, unfolding(crate::specs::Inner::Steps::byte_on))]
fn byte_on(state: State, params: &mut Params, byte: u8) -> State
    ensures { (result, params.new.items) ≡ byte_on state params.old.items byte }
{
    match state {
        State::Mark(read) => mark_on(read, byte),
        State::AtIsa => isa_on(byte),
        State::AtMask(isa) => mask_on(isa, byte),
        State::AtLen(isa, masked) => len_on(isa, masked, byte),
        State::LenDigits(isa, masked, run) => {
            digits_on(isa, masked, run, params.as_slice(), byte)
        }
        State::Next(front, at) => next_on(front, params.as_slice(), at, byte),
        State::Inside(front, at, item) => inside_on(front, params, at, item, byte),
        State::Scalar(found) => scalar_on(found, byte),
        State::Done(found) => State::Done(found),
        State::Fault(fault) => State::Fault(fault),
    }
}

/// What the bytes so far are, if the text ends here.
#[tactic(auto, unfolding(crate::specs::Inner::Steps::end_on))]
pub(crate) fn end_on(state: State) -> Result<Found, NameFault>
    ensures { result ≡ end_on state }
{
    let (at, rule) = match state {
        State::Mark(read) => (u32::from(read), NameRule::N1),
        State::AtIsa => (4, NameRule::N2),
        State::AtMask(_) => (5, NameRule::N3),
        State::AtLen(_, _) => (6, NameRule::N4),
        State::LenDigits(_, _, run) => match number_of(1, 65535, NameRule::N4, run) {
            Ok(_) => (run.len.saturating_add(6), NameRule::N9),
            Err(fault) => (fault.at, fault.rule),
        },
        State::Next(_, at) => (at, NameRule::N9),
        State::Inside(_, at, item) => match param_of(item) {
            Ok(_) => (at, NameRule::N9),
            Err(fault) => (fault.at, fault.rule),
        },
        State::Scalar(found) if found.used == found.scalar_at => (found.used, NameRule::N10),
        State::Scalar(found) => return Ok(found),
        State::Done(found) => return Ok(found),
        State::Fault(fault) => return Err(fault),
    };
    Err(NameFault { at, rule })
}

/// Whether the byte is a letter, a digit or an underscore.
pub(crate) fn is_name_byte(byte: u8) -> bool
    ensures { result ≡ is_name_byte byte }
{
    byte.is_ascii_alphanumeric() || byte == b'_'
}

/// The state after any byte.
pub(crate) fn state_on(state: State, params: &mut Params, byte: u8) -> State
    ensures { (result, params.new.items) ≡ state_on state params.old.items byte }
{
    if is_name_byte(byte) {
        return byte_on(state, params, byte);
    }
    match end_on(state) {
        Ok(found) => State::Done(found),
        Err(fault) => State::Fault(fault),
    }
}
