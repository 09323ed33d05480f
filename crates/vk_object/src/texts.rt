// Texts of names, and their order.

ghost use Rattle.std.specs.Prelude.{◌≡◌};
ghost use Rattle.std.specs.List.{list_all};
ghost use Rattle.vk_object.specs.Texts.{is_before, is_digit, is_identifier, is_word};

use vk_kinds::MAX_IDENTIFIER_BYTES;

fn is_digit(byte: u8) -> bool
    ensures { result ≡ is_digit byte }
{
    b'0' <= byte && byte <= b'9'
}

/// Whether it is a letter, a digit or an underscore.
pub fn is_word(byte: u8) -> bool
    ensures { result ≡ is_word byte }
{
    (b'A' <= byte && byte <= b'Z')
        || (b'a' <= byte && byte <= b'z')
        || is_digit(byte)
        || byte == b'_'
}

fn are_words(bytes: &[u8]) -> bool
    ensures { result ≡ list_all is_word bytes.now }
{
    bytes.iter().all(|byte| is_word(*byte))
}

/// Whether the text is an identifier of at most 1024 bytes.
pub fn is_identifier(text: &[u8]) -> bool
    ensures { result ≡ is_identifier text.now }
{
    match text {
        [] => false,
        [first, rest @ ..] => is_word(*first)
            && !is_digit(*first)
            && are_words(rest)
            && rest.len() <= MAX_IDENTIFIER_BYTES - 1,
    }
}

/// Whether a text is before another: by bytes, and before the longer ones that begin with it.
pub fn is_before(a: &[u8], b: &[u8]) -> bool
    ensures { result ≡ is_before a.now b.now }
{
    for at in 0..a.len().min(b.len()) {
        if a[at] != b[at] {
            return a[at] < b[at];
        }
    }
    a.len() < b.len()
}
