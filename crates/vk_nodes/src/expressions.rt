// Expressions (C17 6.5) and lists of them.

ghost use Rattle.std.specs.Prelude.{◌≡◌, [], ◌∷◌, ◌++◌, map, IfOk};
ghost use Rattle.vk_ast.specs.Tree.{expr_of, exprs_of, kind_of};
ghost use Rattle.vk_ast.specs.Tree as tree;

use crate::start::Start;
use std::alloc::Global;
use std::marker::Model;
use vk_ast::{BinOp, Expr, ExprKind, NameId, UnOp};
use vk_memory::Memory;
use vk_types::Ty;

/// An expression on the heap, seen as its tree.
#[derive(Drop)]
pub struct ExprBox {
    expr: Box<Expr>,
}

impl Model for ExprBox {
    ghost use Rattle.std.specs.Coded.{codes};
    ghost use Rattle.vk_ast.specs.contracts.expressions.Expr as code;
    ghost use Rattle.vk_ast.specs.declared.expressions.Expr.{Expr};

    ghost Value = { Expr };

    ghost coded = { Prim.hlevel (codes, code.the_row.coded) };

    ghost view = { λ e. e.expr.value };
}

impl ExprBox {
    /// An expression of this kind that begins at `first`.
    pub fn new(alloc: Global, first: Start, kind: ExprKind) -> Result<ExprBox, Memory>
        ensures { IfOk result (λ e. expr_of e ≡ kind_of kind first.line first.token) }
    {
        let expr = Expr {
            line: first.line,
            token: first.token,
            kind,
        };
        Ok(ExprBox {
            expr: Box::new(alloc, expr)?,
        })
    }

    /// The expression itself.
    pub fn into_expr(self) -> Expr
        ensures { result ≡ self }
    {
        Box::into_inner(self.expr)
    }

    /// A literal.
    pub fn int(alloc: Global, first: Start, ty: Ty, value: u64) -> Result<ExprBox, Memory>
        ensures { IfOk result (λ e. expr_of e ≡ tree.int first.line first.token ty value) }
    {
        ExprBox::new(alloc, first, ExprKind::Int(ty, value))
    }

    /// A name.
    pub fn name(alloc: Global, first: Start, id: NameId) -> Result<ExprBox, Memory>
        ensures { IfOk result (λ e. expr_of e ≡ tree.name first.line first.token id) }
    {
        ExprBox::new(alloc, first, ExprKind::Name(id))
    }

    /// A subscript behind an operand, which begins at `first`.
    pub fn index(
        alloc: Global,
        first: Start,
        base: ExprBox,
        subscript: ExprBox,
    ) -> Result<ExprBox, Memory>
        ensures { IfOk result (λ e. expr_of e ≡ tree.index first.line first.token (expr_of base) (expr_of subscript)) }
    {
        ExprBox::new(alloc, first, ExprKind::Index(base.expr, subscript.expr))
    }

    /// `*operand`
    pub fn deref(alloc: Global, first: Start, operand: ExprBox) -> Result<ExprBox, Memory>
        ensures { IfOk result (λ e. expr_of e ≡ tree.deref first.line first.token (expr_of operand)) }
    {
        ExprBox::new(alloc, first, ExprKind::Deref(operand.expr))
    }

    /// `&operand`
    pub fn addr(alloc: Global, first: Start, operand: ExprBox) -> Result<ExprBox, Memory>
        ensures { IfOk result (λ e. expr_of e ≡ tree.addr first.line first.token (expr_of operand)) }
    {
        ExprBox::new(alloc, first, ExprKind::Addr(operand.expr))
    }

    /// An operator before its operand.
    pub fn unary(alloc: Global, first: Start, op: UnOp, operand: ExprBox) -> Result<ExprBox, Memory>
        ensures { IfOk result (λ e. expr_of e ≡ tree.unary first.line first.token op (expr_of operand)) }
    {
        ExprBox::new(alloc, first, ExprKind::Unary(op, operand.expr))
    }

    /// An operator between its operands, of which the left begins at `first`.
    pub fn binary(
        alloc: Global,
        first: Start,
        op: BinOp,
        left: ExprBox,
        right: ExprBox,
    ) -> Result<ExprBox, Memory>
        ensures { IfOk result (λ e. expr_of e ≡ tree.binary first.line first.token op (expr_of left) (expr_of right)) }
    {
        ExprBox::new(alloc, first, ExprKind::Binary(op, left.expr, right.expr))
    }

    /// A conditional expression, whose condition begins at `first`.
    pub fn cond(
        alloc: Global,
        first: Start,
        condition: ExprBox,
        yes: ExprBox,
        other: ExprBox,
    ) -> Result<ExprBox, Memory>
        ensures { IfOk result (λ e. expr_of e ≡ tree.choice first.line first.token (expr_of condition) (expr_of yes) (expr_of other)) }
    {
        let kind = ExprKind::Cond(condition.expr, yes.expr, other.expr);
        ExprBox::new(alloc, first, kind)
    }

    /// A cast.
    pub fn cast(alloc: Global, first: Start, ty: Ty, operand: ExprBox) -> Result<ExprBox, Memory>
        ensures { IfOk result (λ e. expr_of e ≡ tree.cast first.line first.token ty (expr_of operand)) }
    {
        ExprBox::new(alloc, first, ExprKind::Cast(ty, operand.expr))
    }

    /// A call of the function of this name.
    pub fn call(
        alloc: Global,
        first: Start,
        id: NameId,
        arguments: ExprList,
    ) -> Result<ExprBox, Memory>
        ensures { IfOk result (λ e. expr_of e ≡ tree.call first.line first.token id (exprs_of arguments)) }
    {
        ExprBox::new(alloc, first, ExprKind::Call(id, arguments.list))
    }
}

/// Expressions one after the other, seen as their trees.
#[derive(Drop)]
pub struct ExprList {
    list: Vec<Expr>,
}

impl Model for ExprList {
    ghost use Rattle.std.specs.Coded.{codes};
    ghost use Rattle.std.specs.Prelude.{List};
    ghost use Rattle.vk_ast.specs.contracts.expressions.Expr as code;
    ghost use Rattle.vk_ast.specs.declared.expressions.Expr.{Expr};

    ghost Value = { List Expr };

    ghost coded = { Prim.hlevel (codes, code.the_row.coded) };

    ghost view = { λ l. l.list.items };
}

impl ExprList {
    /// None.
    pub fn new(alloc: Global) -> ExprList
        ensures { result ≡ [] }
    {
        ExprList {
            list: Vec::new(alloc),
        }
    }

    /// Adds one behind the others.
    pub fn push(&mut self, expr: ExprBox) -> Result<(), Memory>
        ensures { IfOk result (λ _. self.new ≡ self.old ++ expr ∷ []) }
    {
        self.list.push(expr.into_expr())?;
        Ok(())
    }

    /// The expressions themselves.
    pub fn into_vec(self) -> Vec<Expr>
        ensures { result.items ≡ self }
    {
        self.list
    }
}
