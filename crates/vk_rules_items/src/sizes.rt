// How large functions are.

ghost use Rattle.std.specs.Prelude.{◌≡◌, ◌+◌, min, nat_lt};
ghost use Rattle.std.specs.Option.{option_map};
ghost use Rattle.vk_ast.specs.Statements.{stmt_of};
ghost use Rattle.vk_ast.specs.Units.{function_of};
ghost use Rattle.vk_rules_book.specs.Items.{is_too_large, locals_of};

use vk_ast::{Function, MAX_NODES, Stmt, StmtKind, function_nodes};

/// A function that is defined has at most this many parameters and local variables.
const MAX_LOCALS: u64 = 512;

/// The number of local variables in a statement, or 4294967295 where there are more.
fn locals_of(s: &Stmt) -> u32
    ensures { result ≡ min (locals_of (stmt_of s.now)) 4294967295 }
{
    match &s.kind {
        StmtKind::Local(_, _, _, _) => 1,
        StmtKind::Empty
        | StmtKind::Assign(_, _, _)
        | StmtKind::Value(_)
        | StmtKind::Break
        | StmtKind::Continue
        | StmtKind::Return(_)
        | StmtKind::Lost(_) => 0,
        StmtKind::If(_, first, second) => match second {
            Some(second) => locals_of(first).saturating_add(locals_of(second)),
            None => locals_of(first),
        },
        StmtKind::While(_, body) | StmtKind::Do(body, _) | StmtKind::Simd(_, body) => {
            locals_of(body)
        }
        StmtKind::For(first, _, third, body) => {
            locals_of(first)
                .saturating_add(locals_of(third))
                .saturating_add(locals_of(body))
        }
        StmtKind::Block(statements) => {
            let mut locals = 0u32;
            for statement in statements {
                locals = locals.saturating_add(locals_of(statement));
            }
            locals
        }
    }
}

// Whether this many parameters and the local variables of a body are too many.
fn has_many_locals(params: usize, body: &Stmt) -> bool
    ensures { result ≡ nat_lt 512 (params + locals_of (stmt_of body.now)) }
{
    (params as u64).saturating_add(u64::from(locals_of(body))) > MAX_LOCALS
}

/// Whether the definition of a function has more than 512 parameters and local variables, or more than 2000 nodes.
pub fn is_too_large(f: &Function) -> bool
    ensures { result ≡ is_too_large (function_of f.now) (option_map stmt_of f.now.body) }
{
    match &f.body {
        Some(body) => has_many_locals(f.params.len(), body) || function_nodes(f) > MAX_NODES,
        None => false,
    }
}
