// Types of expressions.

use vk_types::Ty;

/// The type of an expression (C17 6.3.2.1, 6.5).
#[derive(Clone, Copy, PartialEq, Eq, Debug)]
pub enum Typing {
    /// A number that is no place.
    Number(Ty),
    /// A local variable or an integer parameter, which has no address here. It may be assigned unless it is `fixed`.
    Variable { ty: Ty, fixed: bool },
    /// A place in memory: a scalar object, or an element. It may be assigned where it is `written`.
    Cell { ty: Ty, written: bool },
    /// A pointer to elements, which may be assigned where it is `written`.
    Pointer { to: Ty, written: bool },
    /// A call of a void function.
    Nothing,
    /// The name of a function.
    Function,
    /// It breaks C8, C9 or C10, or what it holds does.
    Untyped,
}
