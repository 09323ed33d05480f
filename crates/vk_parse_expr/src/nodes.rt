// Expressions with the heights of their trees.

ghost use Rattle.std.specs.Prelude.{◌≡◌, ◌+◌, ◌<◌, ℕ, max, MatchResult, IfOk};
ghost use Rattle.vk_ast.specs.Tree.{Tree, expr_of, exprs_of};
ghost use Rattle.vk_ast.specs.Tree as tree;
ghost use Rattle.vk_grammar_expr.specs.Grammar.{tall, prefixed};
ghost use Rattle.vk_parse_expr.specs.Inner.Answers.{seen, Gets};

use crate::fail::ReadFail;
use crate::signs::start_of;
use std::alloc::Global;
use vk_ast::{BinOp, NameId};
use vk_grammar_expr::{Prefix, Sym};
use vk_nodes::{ExprBox, ExprList, Start};
use vk_types::Ty;

/// An expression and the height of its tree, in which each pair of parentheses counts as one level.
#[derive(Drop)]
pub struct High {
    pub expr: ExprBox,
    pub height: u32,
}

/// Arguments, with the greatest of their heights.
#[derive(Drop)]
pub(crate) struct Arguments {
    pub list: ExprList,
    pub height: u32,
}

/// A literal.
pub(crate) fn int_node(alloc: Global, first: Sym, ty: Ty, value: u64) -> Result<High, ReadFail>
    ensures { Gets result (tall (tree.int first.line first.at ty value) 1) }
{
    let expr = ExprBox::int(alloc, start_of(&first), ty, value)?;
    Ok(High { expr, height: 1 })
}

/// A name.
pub(crate) fn name_node(alloc: Global, first: Sym, id: NameId) -> Result<High, ReadFail>
    ensures { Gets result (tall (tree.name first.line first.at id) 1) }
{
    let expr = ExprBox::name(alloc, start_of(&first), id)?;
    Ok(High { expr, height: 1 })
}

/// A call.
pub(crate) fn call_node(
    alloc: Global,
    first: Sym,
    id: NameId,
    arguments: Arguments,
) -> Result<High, ReadFail>
    requires { arguments.height < 1000 }
    ensures { Gets result (tall (tree.call first.line first.at id (exprs_of arguments.list)) (arguments.height + 1)) }
{
    let height = arguments.height + 1;
    let expr = ExprBox::call(alloc, start_of(&first), id, arguments.list)?;
    Ok(High { expr, height })
}

// The node of a sign before an operand.
fn prefixed(
    alloc: Global,
    first: Start,
    prefix: Prefix,
    operand: ExprBox,
) -> Result<ExprBox, ReadFail>
    ensures { MatchResult result (λ e. expr_of e ≡ prefixed prefix first.line first.token (expr_of operand)) (λ fail. fail ≡ ReadFail.Memory) }
{
    let expr = match prefix {
        Prefix::Deref => ExprBox::deref(alloc, first, operand)?,
        Prefix::Addr => ExprBox::addr(alloc, first, operand)?,
        Prefix::Unary(op) => ExprBox::unary(alloc, first, op, operand)?,
    };
    Ok(expr)
}

/// A sign before an operand.
pub(crate) fn prefix_node(
    alloc: Global,
    first: Sym,
    prefix: Prefix,
    operand: High,
) -> Result<High, ReadFail>
    requires { operand.height < 1000 }
    ensures { Gets result (tall (prefixed prefix first.line first.at (expr_of operand.expr)) (operand.height + 1)) }
{
    let height = operand.height + 1;
    let expr = prefixed(alloc, start_of(&first), prefix, operand.expr)?;
    Ok(High { expr, height })
}

/// A cast.
pub(crate) fn cast_node(alloc: Global, first: Sym, ty: Ty, operand: High) -> Result<High, ReadFail>
    requires { operand.height < 1000 }
    ensures { Gets result (tall (tree.cast first.line first.at ty (expr_of operand.expr)) (operand.height + 1)) }
{
    let height = operand.height + 1;
    let expr = ExprBox::cast(alloc, start_of(&first), ty, operand.expr)?;
    Ok(High { expr, height })
}

/// A subscript behind an operand that begins at `first`.
pub(crate) fn index_node(
    alloc: Global,
    first: Start,
    base: High,
    subscript: High,
) -> Result<High, ReadFail>
    requires base { base.height < 1000 }
    requires subscript { subscript.height < 1000 }
    ensures { Gets result (tall (tree.index first.line first.token (expr_of base.expr) (expr_of subscript.expr)) (max base.height subscript.height + 1)) }
{
    let height = base.height.max(subscript.height) + 1;
    let expr = ExprBox::index(alloc, first, base.expr, subscript.expr)?;
    Ok(High { expr, height })
}

/// An operator between its operands, of which the left begins at `first`.
pub(crate) fn binary_node(
    alloc: Global,
    first: Start,
    op: BinOp,
    left: High,
    right: High,
) -> Result<High, ReadFail>
    requires left { left.height < 1000 }
    requires right { right.height < 1000 }
    ensures { Gets result (tall (tree.binary first.line first.token op (expr_of left.expr) (expr_of right.expr)) (max left.height right.height + 1)) }
{
    let height = left.height.max(right.height) + 1;
    let expr = ExprBox::binary(alloc, first, op, left.expr, right.expr)?;
    Ok(High { expr, height })
}

/// A conditional expression whose condition begins at `first`.
pub(crate) fn choice_node(
    alloc: Global,
    first: Start,
    condition: High,
    yes: High,
    other: High,
) -> Result<High, ReadFail>
    requires condition { condition.height < 1000 }
    requires yes { yes.height < 1000 }
    requires other { other.height < 1000 }
    ensures { Gets result (tall (tree.choice first.line first.token (expr_of condition.expr) (expr_of yes.expr) (expr_of other.expr))
        (max condition.height (max yes.height other.height) + 1)) }
{
    let height = condition.height.max(yes.height.max(other.height)) + 1;
    let expr = ExprBox::cond(alloc, first, condition.expr, yes.expr, other.expr)?;
    Ok(High { expr, height })
}
