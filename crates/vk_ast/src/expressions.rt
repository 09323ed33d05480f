// Expressions (C17 6.5).

use crate::names::NameId;
use vk_types::Ty;

/// A unary operator on integers: `+`, `-`, `~`, `!` (C17 6.5.3.3).
#[derive(Clone, Copy, PartialEq, Eq, Debug)]
pub enum UnOp {
    Plus,
    Neg,
    Not,
    LogNot,
}

/// A binary operator (C17 6.5.5 to 6.5.14).
#[derive(Clone, Copy, PartialEq, Eq, Debug)]
pub enum BinOp {
    Add,
    Sub,
    Mul,
    Div,
    Rem,
    And,
    Or,
    Xor,
    Shl,
    Shr,
    Eq,
    Ne,
    Lt,
    Le,
    Gt,
    Ge,
    LogAnd,
    LogOr,
}

/// An expression, with the line and the number of its first token. Parentheses make no node of their own.
#[cycle(expr)]
#[derive(Drop, PartialEq, Eq, Debug)]
pub struct Expr {
    pub line: u32,
    pub token: u32,
    pub kind: ExprKind,
}

/// What an expression is.
#[cycle(expr)]
#[derive(Drop, PartialEq, Eq, Debug)]
pub enum ExprKind {
    /// An integer literal: its type and value (C17 6.4.4.1).
    Int(Ty, u64),
    Name(NameId),
    /// `base[subscript]`
    Index(Box<Expr>, Box<Expr>),
    /// `*operand`
    Deref(Box<Expr>),
    /// `&operand`
    Addr(Box<Expr>),
    Unary(UnOp, Box<Expr>),
    Binary(BinOp, Box<Expr>, Box<Expr>),
    /// `condition ? first : second`
    Cond(Box<Expr>, Box<Expr>, Box<Expr>),
    Cast(Ty, Box<Expr>),
    Call(NameId, Vec<Expr>),
}
