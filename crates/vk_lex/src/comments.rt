// Comments and gaps.

ghost use Rattle.std.specs.Prelude.{◌≡◌, ◌<◌, ◌≤◌, length, List, ℕ, IsTrue, IfSome, None};
ghost use Rattle.std.specs.Option.{option_map};
ghost use Rattle.vk_lex.specs.Comments.{begins_with, after_close, after_comment, is_open_comment, begins_blank, Gap};
ghost use Rattle.vk_lex.specs.Characters.{is_not_newline, after};

use crate::characters::{is_blank, line_len};

/// Whether the text begins with this byte.
pub(crate) fn begins_with(b: u8, text: &[u8]) -> bool
    ensures { result ≡ begins_with b text.now }
{
    matches!(text, [c, ..] if *c == b)
}

// What follows the first `*/` of the text.
fn after_close(text: &[u8]) -> Option<&[u8]>
    ensures value { option_map (λ r. r.now) result ≡ after_close text.now }
    ensures shorter { IfSome result (λ r. length r.now < length text.now) }
{
    let mut rest = text;
    while let [c, more @ ..] = rest {
        if *c == b'*' && begins_with(b'/', more) {
            return Some(&more[1..]);
        }
        rest = more;
    }
    None
}

// What follows the line, its newline included.
fn after_line(text: &[u8]) -> &[u8]
    ensures rest { result.now ≡ after is_not_newline text.now }
    ensures shorter { length result.now ≤ length text.now }
{
    text.split_at(line_len(text)).1
}

/// What follows a comment at whose first `/` the text stands.
pub(crate) fn after_comment(text: &[u8]) -> Option<&[u8]>
    ensures value { option_map (λ r. r.now) result ≡ after_comment text.now }
    ensures shorter { IfSome result (λ r. length r.now < length text.now) }
{
    match text {
        [b'/', b'/', rest @ ..] => Some(after_line(rest)),
        [b'/', b'*', rest @ ..] => after_close(rest),
        _ => None,
    }
}

/// Whether the text begins with a comment that does not end.
pub(crate) fn is_open_comment(text: &[u8]) -> bool
    ensures { result ≡ is_open_comment text.now }
{
    match text {
        [b'/', b'*', rest @ ..] => after_close(rest).is_none(),
        _ => false,
    }
}

/// Whether the text begins with a blank.
pub(crate) fn begins_blank(text: &[u8]) -> bool
    ensures blank { result ≡ begins_blank text.now }
    ensures some { IsTrue result → 1 ≤ length text.now }
{
    matches!(text, [c, ..] if is_blank(*c))
}

// What follows a blank or a comment at the front of a text.
fn past_one(text: &[u8]) -> Option<&[u8]>
    ensures one { IfSome result (λ r. (rest : List ℕ) → Gap r.now rest → Gap text.now rest) }
    ensures none { result ≡ None → Gap text.now text.now }
    ensures shorter { IfSome result (λ r. length r.now < length text.now) }
{
    if begins_blank(text) {
        Some(text.split_at(1).1)
    } else {
        after_comment(text)
    }
}

/// What follows the blanks and comments at the front of a text.
pub(crate) fn past_gap(text: &[u8]) -> &[u8]
    ensures gap { Gap text.now result.now }
    ensures shorter { length result.now ≤ length text.now }
{
    let mut rest = text;
    while let Some(more) = past_one(rest) {
        rest = more;
    }
    rest
}
