// Statements (C17 6.8).

use crate::directives::Directive;
use crate::expressions::{BinOp, Expr};
use crate::names::NameId;
use vk_types::Ty;

/// A statement, with the line and the number of its first token, or of the declared name.
#[cycle(stmt)]
#[derive(Drop, PartialEq, Eq, Debug)]
pub struct Stmt {
    pub line: u32,
    pub token: u32,
    pub kind: StmtKind,
}

/// What a statement is.
#[cycle(stmt)]
#[derive(Drop, PartialEq, Eq, Debug)]
pub enum StmtKind {
    Empty,
    Block(Vec<Stmt>),
    /// A local variable: its type, whether it is `const`, its name and initialiser.
    Local(Ty, bool, NameId, Option<Expr>),
    /// An assignment to a place: plain, or by an operator. `x++` is `x += 1`.
    Assign(Option<BinOp>, Expr, Expr),
    /// An expression, whose value is dropped.
    Value(Expr),
    If(Expr, Box<Stmt>, Option<Box<Stmt>>),
    While(Expr, Box<Stmt>),
    Do(Box<Stmt>, Expr),
    /// The first part, the condition, the third part and the body. A missing part is `Empty`, a missing condition none.
    For(Box<Stmt>, Option<Expr>, Box<Stmt>, Box<Stmt>),
    Break,
    Continue,
    Return(Option<Expr>),
    /// A `simd` line and the statement after it.
    Simd(Directive, Box<Stmt>),
    /// A `declare simd` line where a statement stands.
    Lost(Directive),
}
