// What stands around an expression or a statement.

use vk_ast::NameId;
use vk_kinds::CType;

/// A parameter or a local variable: its name, its type, and whether it is itself `const`.
#[derive(Clone, Copy, PartialEq, Eq, Debug)]
pub struct Binding {
    pub name: NameId,
    pub ctype: CType,
    pub fixed: bool,
}

/// What holds an expression, and so which types it may have.
#[derive(Clone, Copy, PartialEq, Eq, Debug)]
pub enum Role {
    /// An operand, condition, subscript, initialiser, assigned or returned value: a number.
    Value,
    /// The pointer of a sum.
    Added,
    /// The operand of `*`, or the base of a subscript; `direct` in `*p` and `p[0]` that are not the operand of `&`.
    Base { direct: bool },
    /// The operand of `&`.
    Address,
    /// The place of an assignment.
    Place,
    /// An argument for a parameter of this type; none for an argument too many, or of what is no function.
    Argument(Option<CType>),
    /// The whole of a statement, whose value is dropped.
    Whole,
}

/// What is around a statement in its function.
#[derive(Clone, Copy, PartialEq, Eq, Debug)]
pub struct Around {
    /// In a function with directives, the number of the first one of its first declaration; 0 in others and at file scope.
    pub directive: u32,
    /// The function's result.
    pub result: CType,
    /// Whether a loop is around it.
    pub in_loop: bool,
}
