// The rules on clauses: D1, D4 to D7, D9 to D11, and C16 of the names in them.

ghost use Rattle.std.specs.Prelude.{◌≡◌, ◌++◌, [], List, not, map, length};
ghost use Rattle.std.specs.List.{list_any};
ghost use Rattle.std.specs.Option.{option_map};
ghost use Rattle.vk_ast.specs.Directives.{ClauseTree, clause_of, directive_of, says_of};
ghost use Rattle.vk_ast.specs.Tree.{expr_of};
ghost use Rattle.vk_unit_rules.specs.declared.rules.UnitRule.TheVariants.{C16};
ghost use Rattle.vk_rules_book.specs.Faults.{fault_at, first_among, when};
ghost use Rattle.vk_rules_book.specs.Scopes.{is_long};
ghost use Rattle.vk_ast.specs.Units.{function_of};
ghost use Rattle.vk_rules_book.specs.Noting.{found};
ghost use Rattle.vk_rules_book.specs.Visits.{clause_visits};
ghost use Rattle.vk_rules_book.specs.Signatures.{is_uniform};
ghost use Rattle.vk_rules_names.specs.Seen.{unit_of};
ghost use Rattle.vk_rules_directives.specs.Inner.Tables.{AreTypes, Holds};
ghost use Rattle.vk_rules_book.specs.Directives.{all_said_faults, has_modifier, has_wrong_step, is_empty, has_wrong_alignment, is_branch, is_of_references, is_other, is_power_from, is_simdlen, is_unknown, is_wrong_alignment, is_wrong_simdlen, long_name_faults, names_in};
ghost use Rattle.vk_rules_directives.specs.Inner.Tests.{said_faults_by};

use crate::entries::{At, directive_fault};
use crate::joins::{both, either, is_clear, join};
use crate::names::NameSet;
use crate::steps::has_wrong_step;
use vk_ast::{Clause, ClauseKind, Directive, Expr, Modifier, PlacedName};
use vk_numbers::constant_to;
use vk_rules_names::{Note, Place, fault_at};
use vk_unit_rules::UnitRule;

fn is_other(says: &ClauseKind) -> bool
    ensures { result ≡ is_other (says_of says.now) }
{
    matches!(says, ClauseKind::Other)
}

pub(crate) fn is_simdlen(says: &ClauseKind) -> bool
    ensures { result ≡ is_simdlen (says_of says.now) }
{
    matches!(says, ClauseKind::Simdlen(_))
}

pub(crate) fn is_branch(says: &ClauseKind) -> bool
    ensures { result ≡ is_branch (says_of says.now) }
{
    matches!(says, ClauseKind::Inside | ClauseKind::Outside)
}

// Whether it is a power of two from `least`, which is a power of two up to 65536, to 65536.
#[tactic(auto, unfolding(vk_rules_book::specs::Directives::powers))]
fn is_power_from(least: u32, n: Option<u32>) -> bool
    ensures { result ≡ is_power_from least n }
{
    match n {
        Some(n) => {
            least <= n
                && matches!(
                    n,
                    1 | 2
                        | 4
                        | 8
                        | 16
                        | 32
                        | 64
                        | 128
                        | 256
                        | 512
                        | 1024
                        | 2048
                        | 4096
                        | 8192
                        | 16384
                        | 32768
                        | 65536
                )
        }
        None => false,
    }
}

fn is_wrong_simdlen(says: &ClauseKind) -> bool
    ensures { result ≡ is_wrong_simdlen (says_of says.now) }
{
    match says {
        ClauseKind::Simdlen(e) => !is_power_from(2, constant_to(256, e)),
        ClauseKind::Uniform(_)
        | ClauseKind::Aligned(_, _)
        | ClauseKind::Linear(_, _, _)
        | ClauseKind::Inside
        | ClauseKind::Outside
        | ClauseKind::Other => false,
    }
}

fn is_wrong_alignment(e: &Option<Expr>) -> bool
    ensures { result ≡ is_wrong_alignment (option_map expr_of e.now) }
{
    match e {
        Some(e) => !is_power_from(1, constant_to(65536, e)),
        None => false,
    }
}

fn has_wrong_alignment(says: &ClauseKind) -> bool
    ensures { result ≡ has_wrong_alignment (says_of says.now) }
{
    match says {
        ClauseKind::Aligned(_, e) => is_wrong_alignment(e),
        ClauseKind::Simdlen(_)
        | ClauseKind::Uniform(_)
        | ClauseKind::Linear(_, _, _)
        | ClauseKind::Inside
        | ClauseKind::Outside
        | ClauseKind::Other => false,
    }
}

// A modifier that is none of the three, or two modifiers or steps.
fn has_unknown_modifier(says: &ClauseKind) -> bool
    ensures { result ≡ has_modifier is_unknown (says_of says.now) }
{
    match says {
        ClauseKind::Linear(_, Some(modifier), _) => matches!(*modifier, Modifier::Other),
        _ => false,
    }
}

// `ref` and `uval`
fn has_reference_modifier(says: &ClauseKind) -> bool
    ensures { result ≡ has_modifier is_of_references (says_of says.now) }
{
    match says {
        ClauseKind::Linear(_, Some(modifier), _) => {
            matches!(*modifier, Modifier::Ref | Modifier::Uval)
        }
        _ => false,
    }
}

// Judges what a clause says, by whether a `simdlen` and a branch clause stand before it and whether its step is wrong.
#[tactic(auto, using(vk_rules_book::proofs::Noting::among_append))]
fn judge_form(
    has_simdlen: bool,
    has_branch: bool,
    wrong_step: bool,
    d: &Directive,
    c: &Clause,
    note: &mut Note,
)
    ensures { note.new.first ≡ first_among note.old.first (said_faults_by has_simdlen has_branch wrong_step (directive_of d.now) (clause_of c.now)) }
{
    let says = &c.kind;
    note.add(is_other(says), directive_fault(d, c.token, UnitRule::D1));
    note.add(
        is_simdlen(says) && has_simdlen,
        directive_fault(d, c.token, UnitRule::D4),
    );
    note.add(
        is_branch(says) && has_branch,
        directive_fault(d, c.token, UnitRule::D5),
    );
    note.add(wrong_step, directive_fault(d, c.token, UnitRule::D6));
    note.add(
        has_unknown_modifier(says),
        directive_fault(d, c.token, UnitRule::D7),
    );
    note.add(
        is_wrong_simdlen(says),
        directive_fault(d, c.token, UnitRule::D9),
    );
    note.add(
        has_wrong_alignment(says),
        directive_fault(d, c.token, UnitRule::D10),
    );
    note.add(
        has_reference_modifier(says),
        directive_fault(d, c.token, UnitRule::D11),
    );
}

// Judges a name in a clause.
fn judge_long_name(place: &Place, n: PlacedName, note: &mut Note)
    ensures { note.new.first ≡ first_among note.old.first (when (is_long place.now.names.now n.name) (fault_at n.line n.token C16)) }
{
    let scope = place.with(&[], 0);
    note.add(
        scope.is_long(n.name),
        fault_at(n.line, n.token, UnitRule::C16),
    );
}

// Judges the names in a clause.
fn judge_long_names(place: &Place, names: &[PlacedName], note: &mut Note)
    ensures { note.new.first ≡ first_among note.old.first (long_name_faults place.now.names.now names.now) }
{
    for n in names {
        judge_long_name(place, *n, note);
    }
}

// Judges the names in a clause that has a form.
#[tactic(auto, using(vk_rules_book::proofs::Noting::among_none))]
fn judge_names(place: &Place, c: &Clause, note: &mut Note)
    ensures { note.new.first ≡ first_among note.old.first (long_name_faults place.now.names.now (names_in (clause_of c.now))) }
{
    if !is_other(&c.kind) {
        judge_long_names(place, &c.names, note);
    }
}

// Judges what a clause says, as `judge_form`; the answer is whether it breaks no rule.
#[tactic(auto, using(crate::proofs::Firsts::among_joined, crate::proofs::Firsts::none_among))]
fn judge_said(
    has_simdlen: bool,
    has_branch: bool,
    wrong_step: bool,
    d: &Directive,
    c: &Clause,
    note: &mut Note,
) -> bool
    ensures noted { note.new.first ≡ first_among note.old.first (said_faults_by has_simdlen has_branch wrong_step (directive_of d.now) (clause_of c.now)) }
    ensures sound { result ≡ is_empty (said_faults_by has_simdlen has_branch wrong_step (directive_of d.now) (clause_of c.now)) }
{
    let mut own = Note { first: None };
    judge_form(has_simdlen, has_branch, wrong_step, d, c, &mut own);
    join(note, own);
    is_clear(own)
}

// Judges a clause, by whether a `simdlen` and a branch clause stand before it; the answer is whether it breaks no rule of its form.
#[tactic(auto, using(vk_rules_book::proofs::Noting::among_append))]
fn judge_clause(
    at: &At,
    uniform: &NameSet,
    has_simdlen: bool,
    has_branch: bool,
    c: &Clause,
    note: &mut Note,
) -> bool
    requires types { AreTypes at.now.types.now at.now.f.now.params.items }
    requires uniform { Holds uniform.now (is_uniform (directive_of at.now.d.now)) }
    ensures noted { note.new.first ≡ first_among note.old.first
        (said_faults_by has_simdlen has_branch (has_wrong_step (function_of at.now.f.now) (directive_of at.now.d.now) (says_of c.now.kind)) (directive_of at.now.d.now) (clause_of c.now)
        ++ long_name_faults at.now.place.now.names.now (names_in (clause_of c.now))) }
    ensures sound { result ≡ is_empty
        (said_faults_by has_simdlen has_branch (has_wrong_step (function_of at.now.f.now) (directive_of at.now.d.now) (says_of c.now.kind)) (directive_of at.now.d.now) (clause_of c.now)) }
{
    let wrong_step = has_wrong_step(at, uniform, &c.kind);
    let sound = judge_said(has_simdlen, has_branch, wrong_step, at.d, c, note);
    judge_names(at.place, c, note);
    sound
}

// Judges the clauses of a directive, one after another; the answer is whether they break no rule of their form.
pub(crate) fn judge_clauses(at: &At, uniform: &NameSet, clauses: &[Clause], note: &mut Note) -> bool
    requires types { AreTypes at.now.types.now at.now.f.now.params.items }
    requires uniform { Holds uniform.now (is_uniform (directive_of at.now.d.now)) }
    ensures noted { note.new.first ≡ found (unit_of at.now.place.now) note.old.first
        (clause_visits (function_of at.now.f.now) (directive_of at.now.d.now) [] (map clause_of clauses.now)) }
    ensures sound { result ≡ is_empty (all_said_faults (function_of at.now.f.now) (directive_of at.now.d.now) [] (map clause_of clauses.now)) }
{
    let mut sound = true;
    let mut has_simdlen = false;
    let mut has_branch = false;
    for c in clauses {
        let right = judge_clause(at, uniform, has_simdlen, has_branch, c, note);
        sound = both(sound, right);
        has_simdlen = either(has_simdlen, is_simdlen(&c.kind));
        has_branch = either(has_branch, is_branch(&c.kind));
    }
    sound
}
