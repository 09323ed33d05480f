// The parameters of a function, one after another, then its body.

ghost use Rattle.std.specs.Prelude.{◌≡◌, ◌++◌, [], OnOk};
ghost use Rattle.std.specs.Option.{option_map};
ghost use Rattle.vk_ast.specs.Statements.{stmt_of};
ghost use Rattle.vk_rules_book.specs.Faults.{first_among};
ghost use Rattle.vk_rules_book.specs.Noting.{found};
ghost use Rattle.vk_rules_book.specs.Scopes.{with_params};
ghost use Rattle.vk_rules_book.specs.Statements.{param_name_faults, parameter_faults};
ghost use Rattle.vk_rules_book.specs.Visits.{body_visits, parameter_visits};
ghost use Rattle.vk_rules_names.specs.Seen.{scope_at, unit_of};
ghost use Rattle.vk_rules_functions.specs.Named.{bindings_of};

use std::alloc::Global;
use vk_ast::{Function, Memory, NameId, ParamDecl, Stmt};
use vk_rules_book::{Around, Binding};
use vk_rules_names::{Note, Place, fault_at};
use vk_rules_stmt::{judge_declared, judge_stmt};
use vk_unit_rules::UnitRule;

// What the name of a parameter breaks.
#[tactic(auto, using(vk_rules_book::proofs::Noting::among_none))]
fn judge_name(
    place: &Place,
    inner: &Vec<Binding>,
    line: u32,
    token: u32,
    name: Option<NameId>,
    note: &mut Note,
)
    ensures { note.new.first ≡ first_among note.old.first (param_name_faults place.now.names.now (scope_at place.now inner.now.items 0) line token name) }
{
    if let Some(id) = name {
        let scope = place.with(inner, 0);
        judge_declared(&scope, line, token, id, note);
    }
}

// What a parameter with this number breaks.
#[tactic(auto, using(vk_rules_book::proofs::Noting::among_append), unfolding(vk_rules_book::specs::Statements::parameter_faults))]
fn judge_param(place: &Place, inner: &Vec<Binding>, number: usize, p: &ParamDecl, note: &mut Note)
    ensures { note.new.first ≡ first_among note.old.first (parameter_faults place.now.names.now (scope_at place.now inner.now.items 0) number p.now) }
{
    note.add(number == 64, fault_at(p.line, p.token, UnitRule::C16));
    judge_name(place, inner, p.line, p.token, p.name, note);
}

// Makes a parameter visible, where it has a name.
fn bind(inner: &mut Vec<Binding>, p: &ParamDecl) -> Result<(), Memory>
    ensures { OnOk result (inner.new.items ≡ inner.old.items ++ bindings_of p.now) }
{
    if let Some(id) = p.name {
        inner.push(Binding {
            name: id,
            ctype: p.ctype,
            fixed: p.fixed,
        })?;
    }
    Ok(())
}

// Judges parameters one after another, and makes them visible.
fn judge_params(
    place: &Place,
    inner: &mut Vec<Binding>,
    params: &[ParamDecl],
    note: &mut Note,
) -> Result<(), Memory>
    requires { inner.old.items ≡ [] }
    ensures scope { OnOk result (scope_at place.now inner.new.items 0 ≡ with_params (scope_at place.now [] 0) params.now) }
    ensures noted { OnOk result (note.new.first ≡ found (unit_of place.now) note.old.first (parameter_visits (scope_at place.now [] 0) 0 params.now)) }
{
    for (number, p) in params.iter().enumerate() {
        judge_param(place, inner, number, p, note);
        bind(inner, p)?;
    }
    Ok(())
}

// Judges a body, where there is one.
#[tactic(auto, using(vk_rules_book::proofs::Noting::found_none))]
fn judge_body(
    place: &Place,
    inner: &mut Vec<Binding>,
    around: Around,
    body: &Option<Stmt>,
    note: &mut Note,
) -> Result<(), Memory>
    ensures { OnOk result (note.new.first ≡ found (unit_of place.now) note.old.first
        (body_visits around (scope_at place.now inner.old.items 0) (option_map stmt_of body.now))) }
{
    if let Some(body) = body {
        judge_stmt(place, inner, 0, around, true, body, note)?;
    }
    Ok(())
}

/// Judges the parameters and the body of a function that stands at this place.
#[tactic(auto, using(vk_rules_book::proofs::Noting::found_append))]
pub fn judge_function(
    alloc: Global,
    place: &Place,
    around: Around,
    f: &Function,
    note: &mut Note,
) -> Result<(), Memory>
    ensures { OnOk result (note.new.first ≡ found (unit_of place.now) note.old.first
        (parameter_visits (scope_at place.now [] 0) 0 f.now.params.items
        ++ body_visits around (with_params (scope_at place.now [] 0) f.now.params.items) (option_map stmt_of f.now.body))) }
{
    let mut inner = Vec::new(alloc);
    judge_params(place, &mut inner, &f.params, note)?;
    judge_body(place, &mut inner, around, &f.body, note)?;
    Ok(())
}
