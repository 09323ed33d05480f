// Units and their items (C17 6.9).

use crate::directives::Directive;
use crate::expressions::Expr;
use crate::names::{NameId, NameTable};
use crate::statements::Stmt;
use vk_kinds::CType;
use vk_types::Ty;

/// A unit and the names in it.
#[derive(Drop)]
pub struct Unit {
    pub items: Vec<Item>,
    pub names: NameTable,
}

/// What stands at file scope.
#[derive(Drop, PartialEq, Eq, Debug)]
pub enum Item {
    Function(Function),
    Object(Object),
    /// A `declare simd` line before an object or at the unit's end.
    Lost(Directive),
}

/// A declaration of a function, or its definition where there is a body. Line and token are those of the name.
#[derive(Drop, PartialEq, Eq, Debug)]
pub struct Function {
    pub line: u32,
    pub token: u32,
    pub name: NameId,
    pub directives: Vec<Directive>,
    pub result: CType,
    pub params: Vec<ParamDecl>,
    pub body: Option<Stmt>,
}

/// A parameter. Line and token are those of its name, or of its first token where it has none.
#[derive(Drop, PartialEq, Eq, Debug)]
pub struct ParamDecl {
    pub line: u32,
    pub token: u32,
    pub name: Option<NameId>,
    pub ctype: CType,
    /// Whether the parameter itself is `const`.
    pub fixed: bool,
}

/// A declaration of an object. Line and token are those of its name.
#[derive(Drop, PartialEq, Eq, Debug)]
pub struct Object {
    pub line: u32,
    pub token: u32,
    pub name: NameId,
    pub ty: Ty,
    /// Whether it is `const`.
    pub fixed: bool,
    /// Whether it is `extern`.
    pub outside: bool,
    /// For an array, its length where one is given.
    pub array: Option<Option<Expr>>,
    pub init: Option<Vec<Expr>>,
    /// Whether the initialiser stands in braces.
    pub braced: bool,
    /// The line and the number of the initialiser's first token, which may be a `{`; 0 where there is none.
    pub init_line: u32,
    pub init_token: u32,
}
