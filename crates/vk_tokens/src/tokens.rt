// Tokens (C17 6.4).

use vk_ast::{NameId, NameTable};
use vk_types::Ty;

/// The tokens of a unit in the order of the text, with the table of their names.
#[derive(Drop)]
pub struct Tokens {
    pub list: Vec<Token>,
    pub names: NameTable,
    /// The line on which the bytes end: one more than the number of their newlines.
    pub last: u32,
}

/// A token, with the line on which it begins, from 1, counted before lines are joined.
#[derive(Clone, Copy, PartialEq, Eq, Debug)]
pub struct Token {
    pub line: u32,
    pub kind: TokenKind,
}

/// What a token is.
#[derive(Clone, Copy, PartialEq, Eq, Debug)]
pub enum TokenKind {
    /// An identifier (C17 6.4.2). Keywords and the words of clauses are names with that text.
    Name(NameId),
    /// An integer literal: its type and value (C17 6.4.4.1).
    Int(Ty, u64),
    /// A punctuator (C17 6.4.6).
    Sign(Mark),
    /// The words `#pragma omp declare simd` of a line, whose clauses follow to the line's end.
    Simdfn,
    /// The words `#pragma omp simd` of a line, whose clauses follow to the line's end.
    Simd,
    /// The end of such a line.
    LineEnd,
}

/// A punctuator.
#[derive(Clone, Copy, PartialEq, Eq, Debug)]
pub enum Mark {
    /// `(`
    OpenParen,
    /// `)`
    CloseParen,
    /// `[`
    OpenBracket,
    /// `]`
    CloseBracket,
    /// `{`
    OpenBrace,
    /// `}`
    CloseBrace,
    /// `;`
    Semicolon,
    /// `,`
    Comma,
    /// `?`
    Question,
    /// `:`
    Colon,
    /// `=`
    Assign,
    /// `+=`
    AddAssign,
    /// `-=`
    SubAssign,
    /// `*=`
    MulAssign,
    /// `/=`
    DivAssign,
    /// `%=`
    RemAssign,
    /// `&=`
    AndAssign,
    /// `|=`
    OrAssign,
    /// `^=`
    XorAssign,
    /// `<<=`
    ShlAssign,
    /// `>>=`
    ShrAssign,
    /// `++`
    Increment,
    /// `--`
    Decrement,
    /// `+`
    Plus,
    /// `-`
    Minus,
    /// `*`
    Star,
    /// `/`
    Slash,
    /// `%`
    Percent,
    /// `&`
    Ampersand,
    /// `|`
    Bar,
    /// `^`
    Caret,
    /// `~`
    Tilde,
    /// `!`
    Bang,
    /// `<<`
    ShiftLeft,
    /// `>>`
    ShiftRight,
    /// `==`
    EqualEqual,
    /// `!=`
    NotEqual,
    /// `<`
    Less,
    /// `>`
    Greater,
    /// `<=`
    LessEqual,
    /// `>=`
    GreaterEqual,
    /// `&&`
    AndAnd,
    /// `||`
    OrOr,
}
