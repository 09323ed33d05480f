// Punctuators.

ghost use Rattle.std.specs.Prelude.{◌≡◌, ◌≤◌, drop, length, IfSome};
ghost use Rattle.std.specs.Option.{option_map};
ghost use Rattle.vk_lex.specs.Signs.{mark_text};
ghost use Rattle.vk_lex.specs.Inner.Signs.{first_front, sign_at};

use vk_tokens::Mark;

// All punctuators, longer ones first.
const MARKS: [Mark; 43] = [
    Mark::ShlAssign,
    Mark::ShrAssign,
    Mark::AddAssign,
    Mark::SubAssign,
    Mark::MulAssign,
    Mark::DivAssign,
    Mark::RemAssign,
    Mark::AndAssign,
    Mark::OrAssign,
    Mark::XorAssign,
    Mark::Increment,
    Mark::Decrement,
    Mark::ShiftLeft,
    Mark::ShiftRight,
    Mark::EqualEqual,
    Mark::NotEqual,
    Mark::LessEqual,
    Mark::GreaterEqual,
    Mark::AndAnd,
    Mark::OrOr,
    Mark::OpenParen,
    Mark::CloseParen,
    Mark::OpenBracket,
    Mark::CloseBracket,
    Mark::OpenBrace,
    Mark::CloseBrace,
    Mark::Semicolon,
    Mark::Comma,
    Mark::Question,
    Mark::Colon,
    Mark::Assign,
    Mark::Plus,
    Mark::Minus,
    Mark::Star,
    Mark::Slash,
    Mark::Percent,
    Mark::Ampersand,
    Mark::Bar,
    Mark::Caret,
    Mark::Tilde,
    Mark::Bang,
    Mark::Less,
    Mark::Greater,
];

/// The text of a punctuator.
pub fn mark_text(mark: Mark) -> &'static [u8]
    ensures { result.now ≡ mark_text mark }
{
    match mark {
        Mark::OpenParen => b"(",
        Mark::CloseParen => b")",
        Mark::OpenBracket => b"[",
        Mark::CloseBracket => b"]",
        Mark::OpenBrace => b"{",
        Mark::CloseBrace => b"}",
        Mark::Semicolon => b";",
        Mark::Comma => b",",
        Mark::Question => b"?",
        Mark::Colon => b":",
        Mark::Assign => b"=",
        Mark::AddAssign => b"+=",
        Mark::SubAssign => b"-=",
        Mark::MulAssign => b"*=",
        Mark::DivAssign => b"/=",
        Mark::RemAssign => b"%=",
        Mark::AndAssign => b"&=",
        Mark::OrAssign => b"|=",
        Mark::XorAssign => b"^=",
        Mark::ShlAssign => b"<<=",
        Mark::ShrAssign => b">>=",
        Mark::Increment => b"++",
        Mark::Decrement => b"--",
        Mark::Plus => b"+",
        Mark::Minus => b"-",
        Mark::Star => b"*",
        Mark::Slash => b"/",
        Mark::Percent => b"%",
        Mark::Ampersand => b"&",
        Mark::Bar => b"|",
        Mark::Caret => b"^",
        Mark::Tilde => b"~",
        Mark::Bang => b"!",
        Mark::ShiftLeft => b"<<",
        Mark::ShiftRight => b">>",
        Mark::EqualEqual => b"==",
        Mark::NotEqual => b"!=",
        Mark::Less => b"<",
        Mark::Greater => b">",
        Mark::LessEqual => b"<=",
        Mark::GreaterEqual => b">=",
        Mark::AndAnd => b"&&",
        Mark::OrOr => b"||",
    }
}

// The first of the punctuators with which the text begins.
fn first_front(marks: &[Mark], text: &[u8]) -> Option<Mark>
    ensures mark { result ≡ first_front marks.now text.now }
    ensures within { IfSome result (λ m. length (mark_text m) ≤ length text.now) }
{
    for mark in marks {
        if text.starts_with(mark_text(*mark)) {
            return Some(*mark);
        }
    }
    None
}

// The longest punctuator with which the text begins.
#[tactic(auto, unfolding(crate::specs::Inner::Signs::sign_at))]
fn sign_at(text: &[u8]) -> Option<Mark>
    ensures mark { result ≡ sign_at text.now }
    ensures within { IfSome result (λ m. length (mark_text m) ≤ length text.now) }
{
    first_front(&MARKS, text)
}

/// The longest punctuator with which the text begins, and what follows it.
pub(crate) fn sign(text: &[u8]) -> Option<(Mark, &[u8])>
    ensures mark { option_map (λ r. r.0) result ≡ sign_at text.now }
    ensures rest { IfSome result (λ r. r.1.now ≡ drop (length (mark_text r.0)) text.now) }
{
    match sign_at(text) {
        Some(mark) => Some((mark, text.split_at(mark_text(mark).len()).1)),
        None => None,
    }
}
