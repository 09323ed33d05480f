// Blocks, `if`, and statements one after another.

ghost use Rattle.std.specs.Prelude.{◌≡◌, ◌+◌, ◌&&◌, ℕ, IsTrue, OnOk, is_some};
ghost use Rattle.vk_ast.specs.Statements.{all_stmt_nodes, if_else, if_only, list_stmts, stmt_nodes, stmt_of};
ghost use Rattle.vk_ast.specs.Tree.{expr_of, nodes_of};
ghost use Rattle.vk_flat.specs.Locals.{is_numeric};
ghost use Rattle.vk_flat_statements.specs.Flat.{are_flat, is_flat};
ghost use Rattle.vk_flat_statements.specs.Frames.{HasPlace, IsReady, guards_of};
ghost use Rattle.vk_flat_statements.specs.Statements.{Compiles};
ghost use Rattle.vk_flat_nested.specs.Nested.{CompilesAll, CompilesBranch};

use std::alloc::AllocError;
use vk_ast::{Expr, Stmt, StmtKind};
use vk_flat::locals::Local;
use vk_flat::{Emitter, Place};
use vk_flat_statements::branching::{divide, unite};
use vk_flat_statements::{Guards, emit_leaf};

/// Appends the code of a statement on integer variables. What it declares is among the locals behind it.
#[cycle(statement)]
pub fn emit_statement(
    emitter: &mut Emitter,
    locals: &mut Vec<Local>,
    s: &Stmt,
    returned: Option<Place>,
    guards: Guards,
) -> Result<(), AllocError>
    requires flat { IsTrue (is_flat (is_some returned) locals.old.items (stmt_of s.now)) }
    requires place { HasPlace emitter.old returned }
    requires ready { IsReady emitter.old locals.old.items (guards_of guards) (stmt_nodes (stmt_of s.now)) }
    ensures { OnOk result (Compiles emitter.old emitter.new locals.old.items locals.new.items returned (stmt_of s.now) (guards_of guards)) }
{
    match &s.kind {
        StmtKind::Block(statements) => {
            let count = locals.len();
            emit_all(emitter, locals, statements, returned, guards)?;
            locals.truncate(count);
            Ok(())
        }
        StmtKind::If(test, first, second) => match second {
            Some(second) => emit_if_else(emitter, locals, test, first, second, returned, guards),
            None => emit_if(emitter, locals, test, first, returned, guards),
        },
        _ => emit_leaf(emitter, locals, s, returned, guards),
    }
}

/// Statements one after another.
#[cycle(statement)]
pub fn emit_all(
    emitter: &mut Emitter,
    locals: &mut Vec<Local>,
    statements: &[Stmt],
    returned: Option<Place>,
    guards: Guards,
) -> Result<(), AllocError>
    requires flat { IsTrue (are_flat (is_some returned) locals.old.items (list_stmts statements.now)) }
    requires place { HasPlace emitter.old returned }
    requires ready { IsReady emitter.old locals.old.items (guards_of guards) (all_stmt_nodes (list_stmts statements.now)) }
    ensures { OnOk result (CompilesAll emitter.old emitter.new locals.old.items locals.new.items returned (list_stmts statements.now) (guards_of guards)) }
{
    let [first, rest @ ..] = statements else {
        return Ok(());
    };
    emit_statement(emitter, locals, first, returned, guards)?;
    emit_all(emitter, locals, rest, returned, guards)
}

// A branch, whose names are not visible behind it.
#[cycle(statement)]
fn emit_branch(
    emitter: &mut Emitter,
    locals: &mut Vec<Local>,
    s: &Stmt,
    returned: Option<Place>,
    guards: Guards,
) -> Result<(), AllocError>
    requires flat { IsTrue (is_flat (is_some returned) locals.old.items (stmt_of s.now)) }
    requires place { HasPlace emitter.old returned }
    requires ready { IsReady emitter.old locals.old.items (guards_of guards) (stmt_nodes (stmt_of s.now)) }
    ensures code { OnOk result (CompilesBranch emitter.old emitter.new locals.old.items returned (stmt_of s.now) (guards_of guards)) }
    ensures same { OnOk result (locals.new.items ≡ locals.old.items) }
{
    let count = locals.len();
    emit_statement(emitter, locals, s, returned, guards)?;
    locals.truncate(count);
    Ok(())
}

// `if` without `else`.
#[cycle(statement)]
fn emit_if(
    emitter: &mut Emitter,
    locals: &mut Vec<Local>,
    test: &Expr,
    first: &Stmt,
    returned: Option<Place>,
    guards: Guards,
) -> Result<(), AllocError>
    requires flat { IsTrue (is_numeric locals.old.items (expr_of test.now) && is_flat (is_some returned) locals.old.items (stmt_of first.now)) }
    requires place { HasPlace emitter.old returned }
    requires ready { IsReady emitter.old locals.old.items (guards_of guards) (1 + nodes_of (expr_of test.now) + stmt_nodes (stmt_of first.now)) }
    ensures code { (line token : ℕ) → OnOk result (Compiles emitter.old emitter.new locals.old.items locals.old.items returned (if_only line token (expr_of test.now) (stmt_of first.now)) (guards_of guards)) }
    ensures same { OnOk result (locals.new.items ≡ locals.old.items) }
{
    divide(emitter, locals, test, guards)?;
    emit_branch(emitter, locals, first, returned, guards.first_branch())?;
    unite(emitter, guards)
}

// `if` with `else`.
#[cycle(statement)]
fn emit_if_else(
    emitter: &mut Emitter,
    locals: &mut Vec<Local>,
    test: &Expr,
    first: &Stmt,
    second: &Stmt,
    returned: Option<Place>,
    guards: Guards,
) -> Result<(), AllocError>
    requires flat { IsTrue (is_numeric locals.old.items (expr_of test.now) && is_flat (is_some returned) locals.old.items (stmt_of first.now) && is_flat (is_some returned) locals.old.items (stmt_of second.now)) }
    requires place { HasPlace emitter.old returned }
    requires ready { IsReady emitter.old locals.old.items (guards_of guards) (1 + nodes_of (expr_of test.now) + stmt_nodes (stmt_of first.now) + stmt_nodes (stmt_of second.now)) }
    ensures code { (line token : ℕ) → OnOk result (Compiles emitter.old emitter.new locals.old.items locals.old.items returned (if_else line token (expr_of test.now) (stmt_of first.now) (stmt_of second.now)) (guards_of guards)) }
    ensures same { OnOk result (locals.new.items ≡ locals.old.items) }
{
    divide(emitter, locals, test, guards)?;
    emit_branch(emitter, locals, first, returned, guards.first_branch())?;
    emit_branch(emitter, locals, second, returned, guards.second_branch())?;
    unite(emitter, guards)
}
