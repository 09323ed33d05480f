// How many nodes trees have.

ghost use Rattle.std.specs.Prelude.{◌≡◌, min};
ghost use Rattle.std.specs.Option.{option_map};
ghost use Rattle.vk_ast.specs.Statements.{stmt_of, stmt_nodes, optional_nodes};
ghost use Rattle.vk_ast.specs.Units.{function_of, function_nodes};
ghost use Rattle.vk_ast.specs.Tree.{expr_of, nodes_of};

use crate::expressions::{Expr, ExprKind};
use crate::items::Function;
use crate::statements::{Stmt, StmtKind};

/// A function that is defined has at most this many nodes.
pub const MAX_NODES: u32 = 2000;

/// The number of nodes of an expression, or 4294967295 where there are more.
pub fn expr_nodes(e: &Expr) -> u32
    ensures { result ≡ min (nodes_of (expr_of e.now)) 4294967295 }
{
    match &e.kind {
        ExprKind::Int(_, _) | ExprKind::Name(_) => 1,
        ExprKind::Deref(operand)
        | ExprKind::Addr(operand)
        | ExprKind::Unary(_, operand)
        | ExprKind::Cast(_, operand) => expr_nodes(operand).saturating_add(1),
        ExprKind::Index(first, second) | ExprKind::Binary(_, first, second) => {
            expr_nodes(first)
                .saturating_add(expr_nodes(second))
                .saturating_add(1)
        }
        ExprKind::Cond(condition, first, second) => {
            let both = expr_nodes(first).saturating_add(expr_nodes(second));
            expr_nodes(condition).saturating_add(both).saturating_add(1)
        }
        ExprKind::Call(_, arguments) => {
            let mut nodes = 1u32;
            for argument in arguments {
                nodes = nodes.saturating_add(expr_nodes(argument));
            }
            nodes
        }
    }
}

// The number of nodes of an expression that may be missing.
fn optional_nodes(e: &Option<Expr>) -> u32
    ensures { result ≡ min (optional_nodes (option_map expr_of e.now)) 4294967295 }
{
    match e {
        Some(e) => expr_nodes(e),
        None => 0,
    }
}

/// The number of nodes of a statement, or 4294967295 where there are more. Each statement and each expression in it is
/// one, but for those of directives; a local variable is one more.
pub fn stmt_nodes(s: &Stmt) -> u32
    ensures { result ≡ min (stmt_nodes (stmt_of s.now)) 4294967295 }
{
    match &s.kind {
        StmtKind::Empty | StmtKind::Break | StmtKind::Continue | StmtKind::Lost(_) => 1,
        StmtKind::Local(_, _, _, init) => optional_nodes(init).saturating_add(2),
        StmtKind::Value(e) => expr_nodes(e).saturating_add(1),
        StmtKind::Return(e) => optional_nodes(e).saturating_add(1),
        StmtKind::Assign(_, place, operand) => {
            expr_nodes(place)
                .saturating_add(expr_nodes(operand))
                .saturating_add(1)
        }
        StmtKind::If(condition, first, second) => {
            let first = expr_nodes(condition)
                .saturating_add(stmt_nodes(first))
                .saturating_add(1);
            match second {
                Some(second) => first.saturating_add(stmt_nodes(second)),
                None => first,
            }
        }
        StmtKind::While(condition, body) | StmtKind::Do(body, condition) => {
            expr_nodes(condition)
                .saturating_add(stmt_nodes(body))
                .saturating_add(1)
        }
        StmtKind::For(first, condition, third, body) => {
            let head = stmt_nodes(first).saturating_add(optional_nodes(condition));
            let rest = stmt_nodes(third).saturating_add(stmt_nodes(body));
            head.saturating_add(rest).saturating_add(1)
        }
        StmtKind::Simd(_, body) => stmt_nodes(body).saturating_add(1),
        StmtKind::Block(statements) => {
            let mut nodes = 1u32;
            for statement in statements {
                nodes = nodes.saturating_add(stmt_nodes(statement));
            }
            nodes
        }
    }
}

/// The number of nodes of a declaration or definition of a function, or 4294967295 where there are more: its parameters
/// and what stands in its body.
pub fn function_nodes(f: &Function) -> u32
    ensures { result ≡ min (function_nodes (function_of f.now)) 4294967295 }
{
    let params = u32::try_from(f.params.len()).unwrap_or(u32::MAX);
    match &f.body {
        Some(body) => params.saturating_add(stmt_nodes(body)),
        None => params,
    }
}
