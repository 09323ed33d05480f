// What the clauses of a directive say of one parameter, and of the whole function.

ghost use Rattle.std.specs.Prelude.{◌≡◌, ◌≤◌, false, length, map};
ghost use Rattle.std.specs.List.{list_any};
ghost use Rattle.std.specs.Option.{option_map};
ghost use Rattle.vk_ast.specs.Directives.{clause_of, directive_of, says_of};
ghost use Rattle.vk_ast.specs.Tree.{expr_of};
ghost use Rattle.vk_ast.specs.Units.{function_of};
ghost use Rattle.vk_rules_book.specs.Directives.{has_wrong_step};
ghost use Rattle.vk_rules_book.specs.Signatures.{align_in, align_said, alignment, branch_in, branch_said, kind_in, kind_said, simdlen_in, simdlen_said};

use crate::steps::{lists, step_of, written_step};
use vk_ast::{Clause, ClauseKind, Directive, Expr, Function, NameId};
use vk_kinds::{Branch, Kind};
use vk_numbers::constant_to;

// What a clause says of how a parameter's lanes hang together.
fn kind_said(f: &Function, d: &Directive, id: NameId, says: &ClauseKind) -> Option<Kind>
    requires few { length f.now.params.items ≤ 64 }
    requires right { has_wrong_step (function_of f.now) (directive_of d.now) (says_of says.now) ≡ false }
    ensures { result ≡ kind_said (function_of f.now) (directive_of d.now) id (says_of says.now) }
{
    match says {
        ClauseKind::Uniform(names) => {
            if lists(names, id) {
                Some(Kind::Uniform)
            } else {
                None
            }
        }
        ClauseKind::Linear(names, _, e) => {
            if lists(names, id) {
                let step = step_of(f, d, e);
                Some(Kind::Linear(written_step(&f.params, names, id, step)))
            } else {
                None
            }
        }
        ClauseKind::Simdlen(_)
        | ClauseKind::Aligned(_, _)
        | ClauseKind::Inside
        | ClauseKind::Outside
        | ClauseKind::Other => None,
    }
}

// How a parameter's lanes hang together: what the first of these clauses says that names it.
#[tactic(auto, unfolding(vk_rules_book::specs::Signatures::kind_in))]
pub(crate) fn kind_in(f: &Function, d: &Directive, id: NameId, clauses: &[Clause]) -> Kind
    requires few { length f.now.params.items ≤ 64 }
    requires right { list_any (λ c. has_wrong_step (function_of f.now) (directive_of d.now) c.says) (map clause_of clauses.now) ≡ false }
    ensures { result ≡ kind_in (function_of f.now) (directive_of d.now) id (map clause_of clauses.now) }
{
    match clauses {
        [] => Kind::Vector,
        [clause, rest @ ..] => match kind_said(f, d, id, &clause.kind) {
            Some(kind) => kind,
            None => kind_in(f, d, id, rest),
        },
    }
}

// `aligned` without a number is 16.
fn alignment(e: &Option<Expr>) -> Option<u32>
    ensures { result ≡ alignment (option_map expr_of e.now) }
{
    match e {
        None => Some(16),
        Some(e) => constant_to(65536, e),
    }
}

fn align_said(id: NameId, says: &ClauseKind) -> Option<u32>
    ensures { result ≡ align_said id (says_of says.now) }
{
    match says {
        ClauseKind::Aligned(names, e) => { if lists(names, id) { alignment(e) } else { None } }
        ClauseKind::Simdlen(_)
        | ClauseKind::Uniform(_)
        | ClauseKind::Linear(_, _, _)
        | ClauseKind::Inside
        | ClauseKind::Outside
        | ClauseKind::Other => None,
    }
}

// The alignment of a parameter by the first of these clauses that tells one.
#[tactic(auto, unfolding(vk_rules_book::specs::Signatures::align_in))]
pub(crate) fn align_in(id: NameId, clauses: &[Clause]) -> Option<u32>
    ensures { result ≡ align_in id (map clause_of clauses.now) }
{
    match clauses {
        [] => None,
        [clause, rest @ ..] => match align_said(id, &clause.kind) {
            Some(bytes) => Some(bytes),
            None => align_in(id, rest),
        },
    }
}

fn branch_said(says: &ClauseKind) -> Option<Branch>
    ensures { result ≡ branch_said (says_of says.now) }
{
    match says {
        ClauseKind::Inside => Some(Branch::Inside),
        ClauseKind::Outside => Some(Branch::Outside),
        ClauseKind::Simdlen(_)
        | ClauseKind::Uniform(_)
        | ClauseKind::Aligned(_, _)
        | ClauseKind::Linear(_, _, _)
        | ClauseKind::Other => None,
    }
}

// What the first branch clause says.
#[tactic(auto, unfolding(vk_rules_book::specs::Signatures::branch_in))]
pub(crate) fn branch_in(clauses: &[Clause]) -> Branch
    ensures { result ≡ branch_in (map clause_of clauses.now) }
{
    match clauses {
        [] => Branch::Both,
        [clause, rest @ ..] => match branch_said(&clause.kind) {
            Some(branch) => branch,
            None => branch_in(rest),
        },
    }
}

fn simdlen_said(says: &ClauseKind) -> Option<u16>
    ensures { result ≡ simdlen_said (says_of says.now) }
{
    match says {
        ClauseKind::Simdlen(e) => match constant_to(256, e) {
            Some(lanes) => Some(lanes as u16),
            None => None,
        },
        ClauseKind::Uniform(_)
        | ClauseKind::Aligned(_, _)
        | ClauseKind::Linear(_, _, _)
        | ClauseKind::Inside
        | ClauseKind::Outside
        | ClauseKind::Other => None,
    }
}

// The number of lanes that the first of these clauses that tells one asks for.
#[tactic(auto, unfolding(vk_rules_book::specs::Signatures::simdlen_in))]
pub(crate) fn simdlen_in(clauses: &[Clause]) -> Option<u16>
    ensures { result ≡ simdlen_in (map clause_of clauses.now) }
{
    match clauses {
        [] => None,
        [clause, rest @ ..] => match simdlen_said(&clause.kind) {
            Some(lanes) => Some(lanes),
            None => simdlen_in(rest),
        },
    }
}
