// The characters of a unit.

ghost use Rattle.std.specs.Prelude.{◌≡◌, ◌≤◌, length, IfOk};
ghost use Rattle.std.specs.List.{prefix_len};
ghost use Rattle.vk_lex.specs.Characters.{characters, join_len, last_line, lines_of, text_of, is_blank, is_not_newline, is_word_byte, is_word_start};

use std::alloc::{AllocError, Global};

/// Whether a byte is a blank, a tab or a carriage return.
pub(crate) fn is_blank(c: u8) -> bool
    ensures { result ≡ is_blank c }
{
    matches!(c, b' ' | b'\t' | b'\r')
}

/// Whether a byte is a letter, a digit or an underscore.
pub(crate) fn is_word_byte(c: u8) -> bool
    ensures { result ≡ is_word_byte c }
{
    c.is_ascii_alphanumeric() || c == b'_'
}

/// Whether a byte begins an identifier.
pub(crate) fn is_word_start(c: u8) -> bool
    ensures { result ≡ is_word_start c }
{
    is_word_byte(c) && !c.is_ascii_digit()
}

// Whether a byte is no newline.
fn is_not_newline(c: u8) -> bool
    ensures { result ≡ is_not_newline c }
{
    c != b'\n'
}

/// How many bytes stand before the first newline.
pub(crate) fn line_len(text: &[u8]) -> usize
    ensures len { result ≡ prefix_len is_not_newline text.now }
    ensures within { result ≤ length text.now }
{
    text.iter().take_while(|c| is_not_newline(**c)).count()
}

/// How many letters, digits and underscores stand in front.
pub(crate) fn word_len(text: &[u8]) -> usize
    ensures len { result ≡ prefix_len is_word_byte text.now }
    ensures within { result ≤ length text.now }
{
    text.iter().take_while(|c| is_word_byte(**c)).count()
}

/// The characters of a unit once its lines are joined, in the order of the text.
#[derive(Drop)]
pub(crate) struct Characters {
    pub(crate) codes: Vec<u8>,
    /// The line of each character, from 1.
    pub(crate) lines: Vec<u32>,
    /// The line on which the bytes end.
    pub(crate) last: u32,
}

// How many bytes a join has at the front of the bytes: a backslash before a newline, or before a carriage return and a
// newline. 0 where there is none.
fn join_len(bytes: &[u8]) -> usize
    ensures len { result ≡ join_len bytes.now }
    ensures within { result ≤ length bytes.now }
{
    match bytes {
        [b'\\', b'\n', ..] => 2,
        [b'\\', b'\r', b'\n', ..] => 3,
        _ => 0,
    }
}

/// The characters of a unit of at most 1048576 bytes.
pub(crate) fn characters_of(alloc: Global, bytes: &[u8]) -> Result<Characters, AllocError>
    requires { length bytes.now ≤ 1048576 }
    ensures codes { IfOk result (λ c. c.codes.items ≡ text_of bytes.now) }
    ensures lines { IfOk result (λ c. c.lines.items ≡ lines_of (characters bytes.now)) }
    ensures last { IfOk result (λ c. c.last ≡ last_line bytes.now) }
{
    let mut codes = Vec::new(alloc);
    let mut lines = Vec::new(alloc);
    let mut last = 1u32;
    let mut rest = bytes;
    while let [b, more @ ..] = rest {
        let joined = join_len(rest);
        if joined > 0 {
            last += 1;
            rest = rest.split_at(joined).1;
        } else {
            codes.push(*b)?;
            lines.push(last)?;
            if *b == b'\n' {
                last += 1;
            }
            rest = more;
        }
    }
    Ok(Characters { codes, lines, last })
}
