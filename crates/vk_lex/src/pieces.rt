// The pieces of a text.

ghost use Rattle.std.specs.Prelude.{◌≡◌, ◌≢◌, ◌≤◌, ◌∷◌, length, IfOk, IfErr, true, false};
ghost use Rattle.vk_lex.specs.declared.pieces.Mode.TheVariants.{Idle, Start};
ghost use Rattle.std.specs.List.{prefix_len};
ghost use Rattle.std.specs.Option.{option_map};
ghost use Rattle.std.specs.Char.{is_ascii_digit};
ghost use Rattle.vk_lex.specs.Characters.{is_word_start};
ghost use Rattle.vk_lex.specs.Tokens.{found_kind};
ghost use Rattle.vk_lex.specs.Lexing.{is_floating_word, is_number_byte, begins_by, ended, IsPlain, BeginsOther, BeginsToken, IsToken, IsNoToken, going, IsPiece, IsFault};

use crate::characters::{is_blank, is_word_byte, is_word_start, word_len};
use crate::comments::{after_comment, begins_blank, begins_with, is_open_comment};
use crate::headings::heading;
use crate::literals::{begins_floating, begins_fraction, literal};
use crate::signs::sign;
use vk_tokens::Mark;
use vk_types::Ty;
use vk_unit_rules::UnitRule;

/// Where a text stands in its line.
#[derive(Clone, Copy, PartialEq, Eq)]
pub(crate) enum Mode {
    /// Only blanks and comments are before it.
    Start,
    /// Other tokens are before it.
    Inside,
    /// In a line with a directive.
    Directive,
    /// In a `#pragma` line that adds nothing.
    Idle,
}

/// What a piece gives.
#[derive(Clone, Copy)]
pub(crate) enum Found<'a> {
    /// A name or keyword.
    Word(&'a [u8]),
    Int(Ty, u64),
    Sign(Mark),
    Simdfn,
    Simd,
    LineEnd,
}

/// The first piece of a text: what it gives, how the line goes on, and what follows.
#[derive(Clone, Copy)]
pub(crate) struct Piece<'a> {
    pub(crate) found: Option<Found<'a>>,
    pub(crate) mode: Mode,
    pub(crate) rest: &'a [u8],
}

// Whether this is the word of a floating type.
fn is_floating_word(word: &[u8]) -> bool
    ensures { result ≡ is_floating_word word.now }
{
    let words = [b"float".as_slice(), b"double", b"_Complex"];
    words.iter().any(|w| word == *w)
}

// Whether a byte is one of a number: a letter, a digit, an underscore or a point.
fn is_number_byte(c: u8) -> bool
    ensures { result ≡ is_number_byte c }
{
    is_word_byte(c) || c == b'.'
}

// How many such bytes stand in front.
fn number_len(text: &[u8]) -> usize
    ensures len { result ≡ prefix_len is_number_byte text.now }
    ensures within { result ≤ length text.now }
{
    text.iter().take_while(|c| is_number_byte(**c)).count()
}

// The name with which the text begins.
fn name(text: &[u8]) -> Result<(Found<'_>, &[u8]), UnitRule>
    requires { begins_by is_word_start text.now ≡ true }
    ensures token { IfOk result (λ t. IsToken text.now (found_kind t.0) t.1.now) }
    ensures fault { IfErr result (λ r. IsNoToken text.now r) }
{
    let (word, rest) = text.split_at(word_len(text));
    if is_floating_word(word) {
        Err(UnitRule::C2)
    } else {
        Ok((Found::Word(word), rest))
    }
}

// The number with which the text begins.
fn number(text: &[u8]) -> Result<(Found<'_>, &[u8]), UnitRule>
    requires { begins_by is_ascii_digit text.now ≡ true }
    ensures token { IfOk result (λ t. IsToken text.now (found_kind t.0) t.1.now) }
    ensures fault { IfErr result (λ r. IsNoToken text.now r) }
{
    if begins_floating(text) {
        return Err(UnitRule::C2);
    }
    let (digits, rest) = text.split_at(number_len(text));
    match literal(digits) {
        Ok((t, n)) => Ok((Found::Int(t, n), rest)),
        Err(rule) => Err(rule),
    }
}

// The punctuator with which the text begins.
fn punctuator(text: &[u8]) -> Result<(Found<'_>, &[u8]), UnitRule>
    requires other { BeginsOther text.now }
    requires plain { IsPlain text.now }
    ensures token { IfOk result (λ t. IsToken text.now (found_kind t.0) t.1.now) }
    ensures fault { IfErr result (λ r. IsNoToken text.now r) }
{
    match sign(text) {
        Some((mark, rest)) => Ok((Found::Sign(mark), rest)),
        None => {
            if begins_fraction(text) {
                Err(UnitRule::C2)
            } else {
                Err(UnitRule::C1)
            }
        }
    }
}

// The token with which the text begins.
fn token(text: &[u8]) -> Result<(Found<'_>, &[u8]), UnitRule>
    requires begins { BeginsToken text.now }
    requires plain { IsPlain text.now }
    ensures token { IfOk result (λ t. IsToken text.now (found_kind t.0) t.1.now) }
    ensures fault { IfErr result (λ r. IsNoToken text.now r) }
{
    match text {
        [c, ..] if is_word_start(*c) => name(text),
        [c, ..] if c.is_ascii_digit() => number(text),
        _ => punctuator(text),
    }
}

/// What the end of a line gives.
pub(crate) fn ended(mode: Mode) -> Option<Found<'static>>
    ensures { option_map found_kind result ≡ ended mode }
{
    match mode {
        Mode::Directive => Some(Found::LineEnd),
        Mode::Start | Mode::Inside | Mode::Idle => None,
    }
}

// How a line goes on behind a token.
fn going(mode: Mode) -> Mode
    ensures { result ≡ going mode }
{
    match mode {
        Mode::Start | Mode::Inside => Mode::Inside,
        Mode::Directive => Mode::Directive,
        Mode::Idle => Mode::Idle,
    }
}

// Whether the mode is that of a line that adds nothing.
fn is_idle(mode: Mode) -> bool
    ensures idle { result ≡ true → mode ≡ Idle }
    ensures other { result ≡ false → mode ≢ Idle }
{
    match mode {
        Mode::Idle => true,
        Mode::Start | Mode::Inside | Mode::Directive => false,
    }
}

// Whether the mode is that of a line's start.
fn is_start(mode: Mode) -> bool
    ensures start { result ≡ true → mode ≡ Start }
    ensures other { result ≡ false → mode ≢ Start }
{
    match mode {
        Mode::Start => true,
        Mode::Inside | Mode::Directive | Mode::Idle => false,
    }
}

// What a line says that begins with `#`, behind which the rest stands.
fn hash(mode: Mode, rest: &[u8]) -> Result<Piece<'_>, UnitRule>
    requires { mode ≢ Idle }
    ensures piece { IfOk result (λ p. IsPiece mode (35 ∷ rest.now) (option_map found_kind p.found) p.mode p.rest.now) }
    ensures fault { IfErr result (λ r. IsFault mode (35 ∷ rest.now) r) }
{
    if !is_start(mode) {
        return Err(UnitRule::C1);
    }
    match heading(rest) {
        Some(line) => Ok(Piece {
            found: line.found,
            mode: line.mode,
            rest: line.rest,
        }),
        None => Err(UnitRule::C4),
    }
}

// The first piece of a text that begins with no comment, no newline and no `#`, in a line that is not idle.
fn token_piece(mode: Mode, text: &[u8]) -> Result<Piece<'_>, UnitRule>
    requires mode { mode ≢ Idle }
    requires begins { BeginsToken text.now }
    requires plain { IsPlain text.now }
    ensures piece { IfOk result (λ p. IsPiece mode text.now (option_map found_kind p.found) p.mode p.rest.now) }
    ensures fault { IfErr result (λ r. IsFault mode text.now r) }
{
    match token(text) {
        Ok((found, rest)) => Ok(Piece {
            found: Some(found),
            mode: going(mode),
            rest,
        }),
        Err(rule) => Err(rule),
    }
}

// The first piece of a text that begins with no comment.
fn plain_piece(mode: Mode, text: &[u8]) -> Result<Piece<'_>, UnitRule>
    requires some { 1 ≤ length text.now }
    requires plain { IsPlain text.now }
    ensures piece { IfOk result (λ p. IsPiece mode text.now (option_map found_kind p.found) p.mode p.rest.now) }
    ensures fault { IfErr result (λ r. IsFault mode text.now r) }
{
    let (_, rest) = text.split_at(1);
    if begins_with(b'\n', text) {
        Ok(Piece {
            found: ended(mode),
            mode: Mode::Start,
            rest,
        })
    } else if begins_blank(text) {
        Ok(Piece {
            found: None,
            mode,
            rest,
        })
    } else if is_idle(mode) {
        Ok(Piece {
            found: None,
            mode: Mode::Idle,
            rest,
        })
    } else if begins_with(b'#', text) {
        hash(mode, rest)
    } else {
        token_piece(mode, text)
    }
}

/// The first piece of a text that stands so in its line, or the rule that is broken where it begins.
pub(crate) fn first_piece(mode: Mode, text: &[u8]) -> Result<Piece<'_>, UnitRule>
    requires { 1 ≤ length text.now }
    ensures piece { IfOk result (λ p. IsPiece mode text.now (option_map found_kind p.found) p.mode p.rest.now) }
    ensures fault { IfErr result (λ r. IsFault mode text.now r) }
{
    if is_open_comment(text) {
        return Err(UnitRule::C1);
    }
    match after_comment(text) {
        Some(rest) => Ok(Piece {
            found: None,
            mode,
            rest,
        }),
        None => plain_piece(mode, text),
    }
}
