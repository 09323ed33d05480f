// Tokens as the grammar reads them: names and keywords told apart (C17 6.4.1, 6.4.2).

use vk_ast::{BinOp, NameId, UnOp};
use vk_tokens::Mark;
use vk_types::Ty;

/// A token as the grammar reads it, with its line and its number in the unit.
#[derive(Clone, Copy, PartialEq, Eq, Debug)]
pub struct Sym {
    pub line: u32,
    pub at: u32,
    pub kind: SymKind,
}

/// What such a token is.
#[derive(Clone, Copy, PartialEq, Eq, Debug)]
pub enum SymKind {
    /// An identifier that is no keyword.
    Name(NameId),
    /// An integer literal: its type and value (C17 6.4.4.1).
    Int(Ty, u64),
    /// A punctuator (C17 6.4.6).
    Sign(Mark),
    /// A keyword of the grammar, other than the words of types.
    Keyword(Keyword),
    /// A word of an integer type.
    TypeWord(TypeWord),
    /// A keyword of C that is left out.
    LeftOut,
    /// A line `#pragma omp simd` with all its clauses: the directive's number in the unit, from 1.
    Simd(u32),
    /// A line `#pragma omp declare simd` with all its clauses: the directive's number in the unit, from 1.
    Simdfn(u32),
}

/// A keyword of the grammar (C17 6.4.1).
#[derive(Clone, Copy, PartialEq, Eq, Debug)]
pub enum Keyword {
    If,
    Else,
    While,
    Do,
    For,
    Break,
    Continue,
    Return,
    Extern,
    Const,
    Restrict,
    Void,
}

/// A word of an integer type: a keyword (C17 6.7.2), or a name of `<stdint.h>` (C17 7.20.1.1).
#[derive(Clone, Copy, PartialEq, Eq, Debug)]
pub enum TypeWord {
    Signed,
    Unsigned,
    Char,
    Short,
    Int,
    Long,
    Int8,
    Int16,
    Int32,
    Int64,
    Uint8,
    Uint16,
    Uint32,
    Uint64,
}

/// A sign before an operand (C17 6.5.3): `*`, `&`, or an operator on integers.
#[derive(Clone, Copy, PartialEq, Eq, Debug)]
pub enum Prefix {
    Deref,
    Addr,
    Unary(UnOp),
}

/// A binary operator, with its level, from 1 for the strongest, `* / %`, to 10 for the weakest, `||`.
#[derive(Clone, Copy, PartialEq, Eq, Debug)]
pub struct Operator {
    pub level: u32,
    pub op: BinOp,
}
