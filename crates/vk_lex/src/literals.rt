// Numbers: integer literals and where floating ones begin.

ghost use Rattle.std.specs.Prelude.{◌≡◌, ◌+◌, ◌*◌, ◌^◌, ◌≤◌, ◌<◌, min, drop, length, IsTrue, IfOk, IfErr, IfSome};
ghost use Rattle.std.specs.Char.{is_ascii_digit, is_ascii_hexdigit};
ghost use Rattle.std.specs.List.{prefix_len};
ghost use Rattle.std.specs.Option.{option_map};
ghost use Rattle.vk_lex.specs.Characters.{after, run};
ghost use Rattle.vk_lex.specs.Literals.{begins_digit, after_sign, begins_exponent, begins_hex, begins_fraction, begins_decimal_floating, after_hex_digits, begins_hex_floating, begins_floating, is_digit_of, digit_value, radix, begins_unsigned, long_len, suffix_of, types_for, value_after, limit, first_type, base_of, body_of, literal_in, literal};
ghost use Rattle.vk_lex.specs.declared.literals.Base.TheVariants.{Hexadecimal};

use crate::comments::begins_with;
use vk_types::Ty;
use vk_unit_rules::UnitRule;

/// How the digits of an integer literal are read (C17 6.4.4.1).
#[derive(Clone, Copy, PartialEq, Eq)]
pub(crate) enum Base {
    Decimal,
    Octal,
    Hexadecimal,
}

/// What the suffix of an integer literal says (C17 6.4.4.1).
#[derive(Clone, Copy, PartialEq, Eq)]
pub(crate) struct Suffix {
    unsigned: bool,
    long: bool,
}

// How many decimal digits stand in front.
fn decimal_len(text: &[u8]) -> usize
    ensures len { result ≡ prefix_len is_ascii_digit text.now }
    ensures within { result ≤ length text.now }
{
    text.iter().take_while(|c| c.is_ascii_digit()).count()
}

// How many hexadecimal digits stand in front.
fn hex_len(text: &[u8]) -> usize
    ensures len { result ≡ prefix_len is_ascii_hexdigit text.now }
    ensures within { result ≤ length text.now }
{
    text.iter().take_while(|c| c.is_ascii_hexdigit()).count()
}

fn begins_digit(text: &[u8]) -> bool
    ensures { result ≡ begins_digit text.now }
{
    matches!(text, [c, ..] if c.is_ascii_digit())
}

// What follows a sign, where there is one.
fn after_sign(text: &[u8]) -> &[u8]
    ensures { result.now ≡ after_sign text.now }
{
    match text {
        [b'+' | b'-', rest @ ..] => rest,
        _ => text,
    }
}

// Whether an exponent begins the text, with this letter in upper or lower case.
fn begins_exponent(upper: u8, lower: u8, text: &[u8]) -> bool
    ensures { result ≡ begins_exponent upper lower text.now }
{
    match text {
        [c, rest @ ..] if *c == upper || *c == lower => begins_digit(after_sign(rest)),
        _ => false,
    }
}

// Whether `0x` begins the text.
fn begins_hex(text: &[u8]) -> bool
    ensures hex { result ≡ begins_hex text.now }
    ensures two { IsTrue result → 2 ≤ length text.now }
{
    matches!(text, [b'0', b'x' | b'X', ..])
}

/// Whether a point before a digit begins the text.
pub(crate) fn begins_fraction(text: &[u8]) -> bool
    ensures { result ≡ begins_fraction text.now }
{
    match text {
        [b'.', rest @ ..] => begins_digit(rest),
        _ => false,
    }
}

// Whether digits begin the text, with a point or an exponent behind them.
fn begins_decimal_floating(text: &[u8]) -> bool
    ensures { result ≡ begins_decimal_floating text.now }
{
    let (_, rest) = text.split_at(decimal_len(text));
    begins_with(b'.', rest) || begins_exponent(b'E', b'e', rest)
}

// What follows hexadecimal digits with at most one point among them, of which there is at least one digit.
fn after_hex_digits(text: &[u8]) -> Option<&[u8]>
    ensures { option_map (λ r. r.now) result ≡ after_hex_digits text.now }
{
    let (whole, rest) = text.split_at(hex_len(text));
    match rest {
        [b'.', rest @ ..] => {
            let (part, rest) = rest.split_at(hex_len(rest));
            if whole.is_empty() && part.is_empty() {
                None
            } else {
                Some(rest)
            }
        }
        _ if whole.is_empty() => None,
        _ => Some(rest),
    }
}

// Whether a floating literal of hexadecimal digits begins the text.
fn begins_hex_floating(text: &[u8]) -> bool
    ensures { result ≡ begins_hex_floating text.now }
{
    if !begins_hex(text) {
        return false;
    }
    match after_hex_digits(text.split_at(2).1) {
        Some(rest) => begins_exponent(b'P', b'p', rest),
        None => false,
    }
}

/// Whether a floating literal begins the text, which begins with a digit.
#[tactic(auto, unfolding(crate::specs::Literals::begins_floating))]
pub(crate) fn begins_floating(text: &[u8]) -> bool
    ensures { result ≡ begins_floating text.now }
{
    begins_decimal_floating(text) || begins_hex_floating(text)
}

// ---- integer literals

fn is_digit_of(base: Base, c: u8) -> bool
    ensures { result ≡ is_digit_of base c }
{
    match base {
        Base::Decimal => c.is_ascii_digit(),
        Base::Octal => matches!(c, b'0'..=b'7'),
        Base::Hexadecimal => c.is_ascii_hexdigit(),
    }
}

// How many digits of the base stand in front.
fn digit_len(base: Base, text: &[u8]) -> usize
    ensures len { result ≡ prefix_len (is_digit_of base) text.now }
    ensures within { result ≤ length text.now }
{
    text.iter().take_while(|c| is_digit_of(base, **c)).count()
}

// The number of a digit.
fn digit_value(c: u8) -> u8
    ensures { result ≡ digit_value c }
{
    match c {
        b'0'..=b'9' => c - b'0',
        b'A'..=b'F' => c - b'A' + 10,
        b'a'..=b'f' => c - b'a' + 10,
        _ => 0,
    }
}

fn radix(base: Base) -> u128
    ensures { result ≡ radix base }
{
    match base {
        Base::Decimal => 10,
        Base::Octal => 8,
        Base::Hexadecimal => 16,
    }
}

// Whether the text begins with `u` or `U`.
fn begins_unsigned(text: &[u8]) -> bool
    ensures unsigned { result ≡ begins_unsigned text.now }
    ensures one { IsTrue result → 1 ≤ length text.now }
{
    matches!(text, [b'u' | b'U', ..])
}

// How many bytes the `l`, `L`, `ll` or `LL` has with which the text begins; 0 where there is none.
fn long_len(text: &[u8]) -> usize
    ensures len { result ≡ long_len text.now }
    ensures within { result ≤ length text.now }
{
    match text {
        [b'l', b'l', ..] | [b'L', b'L', ..] => 2,
        [b'l' | b'L', ..] => 1,
        _ => 0,
    }
}

// At most one `u`, before or behind at most one long part.
fn suffix_of(text: &[u8]) -> Option<Suffix>
    ensures { result ≡ suffix_of text.now }
{
    let before = begins_unsigned(text);
    let text = if before { text.split_at(1).1 } else { text };
    let long = long_len(text);
    let (_, rest) = text.split_at(long);
    let behind = !before && begins_unsigned(rest);
    let rest = if behind { rest.split_at(1).1 } else { rest };
    if rest.is_empty() {
        Some(Suffix {
            unsigned: before || behind,
            long: long > 0,
        })
    } else {
        None
    }
}

// The types for a form, first ones first.
fn types_for(base: Base, suffix: Suffix) -> &'static [Ty]
    ensures { result.now ≡ types_for base suffix }
{
    match (suffix.unsigned, suffix.long) {
        (true, true) => &[Ty::U64],
        (true, false) => &[Ty::U32, Ty::U64],
        (false, true) if base == Base::Decimal => &[Ty::I64],
        (false, true) => &[Ty::I64, Ty::U64],
        (false, false) if base == Base::Decimal => &[Ty::I32, Ty::I64],
        (false, false) => &[Ty::I32, Ty::U32, Ty::I64, Ty::U64],
    }
}

// One more than any number of 64 bits.
const TOO_LARGE: u128 = 1 << 64;

// The number that the digits write, or 2 to the 64th where it is not below that.
fn value_of(base: Base, digits: &[u8]) -> u128
    ensures { result ≡ min (value_after 0 base digits.now) (2 ^ 64) }
{
    let mut value = 0u128;
    for digit in digits {
        value = (value * radix(base) + u128::from(digit_value(*digit))).min(TOO_LARGE);
    }
    value
}

// One more than the greatest number of the type.
fn limit(t: Ty) -> u128
    ensures { result ≡ limit t }
{
    match t {
        Ty::I8 => 1 << 7,
        Ty::I16 => 1 << 15,
        Ty::I32 => 1 << 31,
        Ty::I64 => 1 << 63,
        Ty::U8 => 1 << 8,
        Ty::U16 => 1 << 16,
        Ty::U32 => 1 << 32,
        Ty::U64 => 1 << 64,
    }
}

// The first of the types that holds the number.
fn first_type(types: &[Ty], value: u128) -> Option<Ty>
    ensures first { result ≡ first_type types.now value }
    ensures below { IfSome result (λ t. value < 2 ^ 64) }
{
    for t in types {
        if value < limit(*t) {
            return Some(*t);
        }
    }
    None
}

// How the digits of the text are read.
fn base_of(text: &[u8]) -> Base
    ensures base { result ≡ base_of text.now }
    ensures two { result ≡ Hexadecimal → 2 ≤ length text.now }
{
    if begins_hex(text) && digit_len(Base::Hexadecimal, text.split_at(2).1) > 0 {
        Base::Hexadecimal
    } else if begins_with(b'0', text) {
        Base::Octal
    } else {
        Base::Decimal
    }
}

// The text without the `0x`.
fn body_of(base: Base, text: &[u8]) -> &[u8]
    requires { base ≡ Hexadecimal → 2 ≤ length text.now }
    ensures { result.now ≡ body_of base text.now }
{
    match base {
        Base::Decimal | Base::Octal => text,
        Base::Hexadecimal => text.split_at(2).1,
    }
}

// The literal of this base, whose text this is without the `0x`.
fn literal_in(base: Base, body: &[u8]) -> Result<(Ty, u64), UnitRule>
    ensures { result ≡ literal_in base body.now }
{
    let (digits, rest) = body.split_at(digit_len(base, body));
    let Some(suffix) = suffix_of(rest) else {
        return Err(UnitRule::C1);
    };
    let value = value_of(base, digits);
    match first_type(types_for(base, suffix), value) {
        Some(t) => Ok((t, value as u64)),
        None => Err(UnitRule::C3),
    }
}

/// The integer literal that is all of the text: its type and value. C1 where it is none, C3 where no type of C's list
/// for its form holds it (C17 6.4.4.1).
#[tactic(auto, unfolding(crate::specs::Literals::literal))]
pub(crate) fn literal(text: &[u8]) -> Result<(Ty, u64), UnitRule>
    ensures { result ≡ literal text.now }
{
    let base = base_of(text);
    literal_in(base, body_of(base, text))
}
