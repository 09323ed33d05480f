// Statements (C17 6.8) and lists of them.

ghost use Rattle.std.specs.Prelude.{◌≡◌, ◌<◌, ◌↔◌, [], ◌∷◌, ◌++◌, length, IfOk, IsSome};
ghost use Rattle.std.specs.Option.{option_map, option_to_list};
ghost use Rattle.vk_ast.specs.Directives.{directive_of};
ghost use Rattle.vk_ast.specs.Statements.{stmt_of, list_stmts, stmt_kind_of};
ghost use Rattle.vk_ast.specs.Statements as tree;
ghost use Rattle.vk_ast.specs.Tree.{expr_of};

use crate::expressions::ExprBox;
use crate::lists::append;
use crate::start::Start;
use std::alloc::Global;
use std::marker::Model;
use vk_ast::{BinOp, Directive, NameId, Stmt, StmtKind};
use vk_memory::Memory;
use vk_types::Ty;

/// A statement on the heap, seen as its tree.
#[derive(Drop)]
pub struct StmtBox {
    stmt: Box<Stmt>,
}

impl Model for StmtBox {
    ghost use Rattle.std.specs.Coded.{codes};
    ghost use Rattle.vk_ast.specs.contracts.statements.Stmt as code;
    ghost use Rattle.vk_ast.specs.declared.statements.Stmt.{Stmt};

    ghost Value = { Stmt };

    ghost coded = { Prim.hlevel (codes, code.the_row.coded) };

    ghost view = { λ s. s.stmt.value };
}

impl StmtBox {
    /// A statement of this kind that begins at `first`.
    pub fn new(alloc: Global, first: Start, kind: StmtKind) -> Result<StmtBox, Memory>
        ensures { IfOk result (λ s. stmt_of s ≡ stmt_kind_of kind first.line first.token) }
    {
        let stmt = Stmt {
            line: first.line,
            token: first.token,
            kind,
        };
        StmtBox::of(alloc, stmt)
    }

    /// The statement, on the heap.
    pub fn of(alloc: Global, stmt: Stmt) -> Result<StmtBox, Memory>
        ensures { IfOk result (λ s. s ≡ stmt) }
    {
        Ok(StmtBox {
            stmt: Box::new(alloc, stmt)?,
        })
    }

    /// The statement itself.
    pub fn into_stmt(self) -> Stmt
        ensures { result ≡ self }
    {
        Box::into_inner(self.stmt)
    }

    /// An empty statement.
    pub fn empty(alloc: Global, first: Start) -> Result<StmtBox, Memory>
        ensures { IfOk result (λ s. stmt_of s ≡ tree.empty first.line first.token) }
    {
        StmtBox::new(alloc, first, StmtKind::Empty)
    }

    /// A block.
    pub fn block(alloc: Global, first: Start, list: StmtList) -> Result<StmtBox, Memory>
        ensures { IfOk result (λ s. stmt_of s ≡ tree.block first.line first.token (list_stmts list)) }
    {
        StmtBox::new(alloc, first, StmtKind::Block(list.list))
    }

    /// A local variable, whose name stands at `name`.
    pub fn local(
        alloc: Global,
        name: Start,
        ty: Ty,
        fixed: bool,
        id: NameId,
        initial: Option<ExprBox>,
    ) -> Result<StmtBox, Memory>
        ensures { IfOk result (λ s. stmt_of s ≡ tree.local name.line name.token ty fixed id (option_map expr_of initial)) }
    {
        let initial = initial.map(|e| e.into_expr());
        StmtBox::new(alloc, name, StmtKind::Local(ty, fixed, id, initial))
    }

    /// An assignment, by an operator where there is one.
    pub fn assign(
        alloc: Global,
        first: Start,
        op: Option<BinOp>,
        place: ExprBox,
        operand: ExprBox,
    ) -> Result<StmtBox, Memory>
        ensures { IfOk result (λ s. stmt_of s ≡ tree.assign first.line first.token op (expr_of place) (expr_of operand)) }
    {
        let kind = StmtKind::Assign(op, place.into_expr(), operand.into_expr());
        StmtBox::new(alloc, first, kind)
    }

    /// An expression.
    pub fn value(alloc: Global, first: Start, value: ExprBox) -> Result<StmtBox, Memory>
        ensures { IfOk result (λ s. stmt_of s ≡ tree.value first.line first.token (expr_of value)) }
    {
        StmtBox::new(alloc, first, StmtKind::Value(value.into_expr()))
    }

    /// An `if` without an `else`.
    pub fn if_only(
        alloc: Global,
        first: Start,
        condition: ExprBox,
        yes: StmtBox,
    ) -> Result<StmtBox, Memory>
        ensures { IfOk result (λ s. stmt_of s ≡ tree.if_only first.line first.token (expr_of condition) (stmt_of yes)) }
    {
        let kind = StmtKind::If(condition.into_expr(), yes.stmt, None);
        StmtBox::new(alloc, first, kind)
    }

    /// An `if` with its `else`.
    pub fn if_else(
        alloc: Global,
        first: Start,
        condition: ExprBox,
        yes: StmtBox,
        other: StmtBox,
    ) -> Result<StmtBox, Memory>
        ensures { IfOk result (λ s. stmt_of s ≡ tree.if_else first.line first.token (expr_of condition) (stmt_of yes) (stmt_of other)) }
    {
        let kind = StmtKind::If(condition.into_expr(), yes.stmt, Some(other.stmt));
        StmtBox::new(alloc, first, kind)
    }

    /// A `while` loop.
    pub fn while_loop(
        alloc: Global,
        first: Start,
        condition: ExprBox,
        body: StmtBox,
    ) -> Result<StmtBox, Memory>
        ensures { IfOk result (λ s. stmt_of s ≡ tree.while_loop first.line first.token (expr_of condition) (stmt_of body)) }
    {
        let kind = StmtKind::While(condition.into_expr(), body.stmt);
        StmtBox::new(alloc, first, kind)
    }

    /// A `do` loop.
    pub fn do_loop(
        alloc: Global,
        first: Start,
        body: StmtBox,
        condition: ExprBox,
    ) -> Result<StmtBox, Memory>
        ensures { IfOk result (λ s. stmt_of s ≡ tree.do_loop first.line first.token (stmt_of body) (expr_of condition)) }
    {
        let kind = StmtKind::Do(body.stmt, condition.into_expr());
        StmtBox::new(alloc, first, kind)
    }

    /// A `for` loop, by the three parts of its head and its body.
    pub fn for_loop(
        alloc: Global,
        start: Start,
        first: StmtBox,
        condition: Option<ExprBox>,
        third: StmtBox,
        body: StmtBox,
    ) -> Result<StmtBox, Memory>
        ensures { IfOk result (λ s. stmt_of s ≡ tree.for_loop start.line start.token (stmt_of first) (option_map expr_of condition) (stmt_of third) (stmt_of body)) }
    {
        let condition = condition.map(|e| e.into_expr());
        let kind = StmtKind::For(first.stmt, condition, third.stmt, body.stmt);
        StmtBox::new(alloc, start, kind)
    }

    /// A `break`.
    pub fn break_loop(alloc: Global, first: Start) -> Result<StmtBox, Memory>
        ensures { IfOk result (λ s. stmt_of s ≡ tree.break_loop first.line first.token) }
    {
        StmtBox::new(alloc, first, StmtKind::Break)
    }

    /// A `continue`.
    pub fn continue_loop(alloc: Global, first: Start) -> Result<StmtBox, Memory>
        ensures { IfOk result (λ s. stmt_of s ≡ tree.continue_loop first.line first.token) }
    {
        StmtBox::new(alloc, first, StmtKind::Continue)
    }

    /// A `return`.
    pub fn return_value(
        alloc: Global,
        first: Start,
        value: Option<ExprBox>,
    ) -> Result<StmtBox, Memory>
        ensures { IfOk result (λ s. stmt_of s ≡ tree.return_value first.line first.token (option_map expr_of value)) }
    {
        let value = value.map(|e| e.into_expr());
        StmtBox::new(alloc, first, StmtKind::Return(value))
    }

    /// A `simd` line and the statement behind it.
    pub fn simd(
        alloc: Global,
        first: Start,
        directive: Directive,
        body: StmtBox,
    ) -> Result<StmtBox, Memory>
        ensures { IfOk result (λ s. stmt_of s ≡ tree.simd first.line first.token (directive_of directive) (stmt_of body)) }
    {
        StmtBox::new(alloc, first, StmtKind::Simd(directive, body.stmt))
    }

    /// A `declare simd` line where a statement stands.
    pub fn lost(alloc: Global, first: Start, directive: Directive) -> Result<StmtBox, Memory>
        ensures { IfOk result (λ s. stmt_of s ≡ tree.lost first.line first.token (directive_of directive)) }
    {
        StmtBox::new(alloc, first, StmtKind::Lost(directive))
    }
}

/// Statements one after the other, seen as their trees.
#[derive(Drop)]
pub struct StmtList {
    list: Vec<Stmt>,
}

impl Model for StmtList {
    ghost use Rattle.std.specs.Coded.{codes};
    ghost use Rattle.std.specs.Prelude.{List};
    ghost use Rattle.vk_ast.specs.contracts.statements.Stmt as code;
    ghost use Rattle.vk_ast.specs.declared.statements.Stmt.{Stmt};

    ghost Value = { List Stmt };

    ghost coded = { Prim.hlevel (codes, code.the_row.coded) };

    ghost view = { λ l. l.list.items };
}

impl StmtList {
    /// None.
    pub fn new(alloc: Global) -> StmtList
        ensures { result ≡ [] }
    {
        StmtList {
            list: Vec::new(alloc),
        }
    }

    /// How many there are.
    pub fn len(&self) -> usize
        ensures { result ≡ length self.now }
    {
        self.list.len()
    }

    /// The last one, which is taken away.
    pub fn pop(&mut self) -> Option<Stmt>
        ensures items { self.old ≡ self.new ++ option_to_list result }
        ensures some { IsSome result ↔ (0 < length self.old) }
    {
        self.list.pop()
    }

    /// Adds one behind the others.
    pub fn push(&mut self, stmt: StmtBox) -> Result<(), Memory>
        ensures { IfOk result (λ _. self.new ≡ self.old ++ stmt ∷ []) }
    {
        self.list.push(stmt.into_stmt())?;
        Ok(())
    }

    /// Moves the statements of another list behind these.
    pub fn append(&mut self, more: StmtList) -> Result<(), Memory>
        ensures { IfOk result (λ _. self.new ≡ self.old ++ more) }
    {
        append(&mut self.list, more.list)
    }
}
