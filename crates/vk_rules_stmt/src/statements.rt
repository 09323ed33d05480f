// The rules on statements: C8, C14, C15, C16, D12 and D15, and those on the expressions in them.

ghost use Rattle.std.specs.Prelude.{◌≡◌, ◌++◌, ◌||◌, false, length, Option, OnOk};
ghost use Rattle.std.specs.Option.{option_map};
ghost use Rattle.vk_ast.specs.Statements.{list_stmts, stmt_of};
ghost use Rattle.vk_ast.specs.Tree.{expr_of};
ghost use Rattle.vk_rules_book.specs.declared.contexts.Role.TheVariants as role;
ghost use Rattle.vk_rules_book.specs.Faults.{first_among};
ghost use Rattle.vk_rules_book.specs.Noting.{found};
ghost use Rattle.vk_rules_book.specs.Statements.{declared_faults, is_void, is_wrong_return, statement_faults};
ghost use Rattle.vk_rules_book.specs.Visits.{after, after_all, all_visits, in_loop, optional_visits, stmt_visits, visits_of};
ghost use Rattle.vk_rules_names.specs.Seen.{scope_at, scope_of, unit_of};

use vk_ast::{Expr, Memory, NameId, Stmt, StmtKind};
use vk_kinds::CType;
use vk_rules_book::{Around, Binding, Role};
use vk_rules_expr::{is_simd, judge_in_role};
use vk_rules_names::{Note, Place, Scopes, fault_at, fault_with};
use vk_unit_rules::UnitRule;

fn is_void(ctype: CType) -> bool
    ensures { result ≡ is_void ctype }
{
    matches!(ctype, CType::Void)
}

fn is_wrong_return(ctype: CType, e: &Option<Expr>) -> bool
    ensures { result ≡ is_wrong_return ctype (option_map expr_of e.now) }
{
    match e {
        Some(_) => is_void(ctype),
        None => !is_void(ctype),
    }
}

/// Judges the name of a parameter or a local variable.
#[tactic(auto, using(vk_rules_book::proofs::Noting::among_append))]
pub fn judge_declared(scope: &Scopes, line: u32, token: u32, id: NameId, note: &mut Note)
    ensures { note.new.first ≡ first_among note.old.first (declared_faults scope.now.names.now (scope_of scope.now) line token id) }
{
    let redeclared = scope.is_taken(id) || (scope.is_print(id) || scope.is_main(id));
    note.add(redeclared, fault_at(line, token, UnitRule::C8));
    note.add(scope.is_long(id), fault_at(line, token, UnitRule::C16));
}

// What a statement breaks, apart from what is in it.
#[tactic(auto, using(vk_rules_book::proofs::Noting::among_one, vk_rules_book::proofs::Noting::among_none), unfolding(vk_rules_book::specs::Statements::statement_faults))]
fn judge_statement(scope: &Scopes, around: Around, s: &Stmt, note: &mut Note)
    ensures { note.new.first ≡ first_among note.old.first (statement_faults scope.now.names.now around (scope_of scope.now) (stmt_of s.now)) }
{
    match &s.kind {
        StmtKind::Local(_, _, id, _) => judge_declared(scope, s.line, s.token, *id, note),
        StmtKind::Break | StmtKind::Continue => note.add(
            !around.in_loop,
            fault_at(s.line, s.token, UnitRule::C14),
        ),
        StmtKind::Return(e) => note.add(
            is_wrong_return(around.result, e),
            fault_at(s.line, s.token, UnitRule::C15),
        ),
        StmtKind::Lost(d) => note.add(true, fault_with(d.line, d.token, UnitRule::D12, d.number)),
        StmtKind::Simd(d, _) => note.add(
            is_simd(around),
            fault_with(d.line, d.token, UnitRule::D15, around.directive),
        ),
        StmtKind::Empty
        | StmtKind::Block(_)
        | StmtKind::Assign(_, _, _)
        | StmtKind::Value(_)
        | StmtKind::While(_, _)
        | StmtKind::Do(_, _)
        | StmtKind::For(_, _, _, _) => {}
        StmtKind::If(_, _, second) => match second {
            Some(_) => {}
            None => {}
        },
    }
}

// Judges an expression in its role, and all in it.
fn judge_whole(
    place: &Place,
    inner: &Vec<Binding>,
    outer: usize,
    around: Around,
    role: Role,
    e: &Expr,
    note: &mut Note,
)
    ensures { note.new.first ≡ found (unit_of place.now) note.old.first (visits_of around (scope_at place.now inner.now.items outer) role (expr_of e.now)) }
{
    let scope = place.with(inner, outer);
    judge_in_role(&scope, around, role, false, e, note);
}

#[tactic(auto, using(vk_rules_book::proofs::Noting::found_none))]
fn judge_optional(
    place: &Place,
    inner: &Vec<Binding>,
    outer: usize,
    around: Around,
    e: &Option<Expr>,
    note: &mut Note,
)
    ensures { note.new.first ≡ found (unit_of place.now) note.old.first (optional_visits around (scope_at place.now inner.now.items outer) (option_map expr_of e.now)) }
{
    if let Some(e) = e {
        judge_whole(place, inner, outer, around, Role::Value, e, note);
    }
}

// Judges a statement, apart from what is in it, at its place.
#[tactic(auto, using(vk_rules_book::proofs::Noting::found_one))]
fn judge_itself(
    place: &Place,
    inner: &Vec<Binding>,
    outer: usize,
    around: Around,
    s: &Stmt,
    note: &mut Note,
)
    ensures { note.new.first ≡ first_among note.old.first (statement_faults place.now.names.now around (scope_at place.now inner.now.items outer) (stmt_of s.now)) }
{
    let scope = place.with(inner, outer);
    judge_statement(&scope, around, s, note);
}

// In a loop's body.
fn looping(around: Around) -> Around
    ensures { result ≡ in_loop around }
{
    Around {
        directive: around.directive,
        result: around.result,
        in_loop: true,
    }
}

/// Judges a statement, and all in it. What it declares stays visible.
#[cycle(stating)]
#[tactic(auto, using(vk_rules_book::proofs::Noting::found_append, vk_rules_book::proofs::Noting::found_first, vk_rules_book::proofs::Noting::found_none))]
pub fn judge_stmt(
    place: &Place,
    inner: &mut Vec<Binding>,
    outer: usize,
    around: Around,
    shares: bool,
    s: &Stmt,
    note: &mut Note,
) -> Result<(), Memory>
    ensures scope { OnOk result (scope_at place.now inner.new.items outer ≡ after shares (scope_at place.now inner.old.items outer) (stmt_of s.now)) }
    ensures noted { OnOk result (note.new.first ≡ found (unit_of place.now) note.old.first
        (stmt_visits around (scope_at place.now inner.old.items outer) shares (stmt_of s.now))) }
{
    judge_itself(place, inner, outer, around, s, note);
    match &s.kind {
        StmtKind::Empty | StmtKind::Break | StmtKind::Continue | StmtKind::Lost(_) => Ok(()),
        StmtKind::Block(ss) => {
            if shares {
                judge_all(place, inner, outer, around, ss, note)?;
            } else {
                judge_block(place, inner, around, ss, note)?;
            }
            Ok(())
        }
        StmtKind::Local(ty, fixed, id, init) => {
            let binding = Binding {
                name: *id,
                ctype: CType::Int(*ty),
                fixed: *fixed,
            };
            inner.push(binding)?;
            judge_optional(place, inner, outer, around, init, note);
            Ok(())
        }
        StmtKind::Assign(_, target, operand) => {
            judge_whole(place, inner, outer, around, Role::Place, target, note);
            judge_whole(place, inner, outer, around, Role::Value, operand, note);
            Ok(())
        }
        StmtKind::Value(e) => {
            judge_whole(place, inner, outer, around, Role::Whole, e, note);
            Ok(())
        }
        StmtKind::Return(e) => {
            judge_optional(place, inner, outer, around, e, note);
            Ok(())
        }
        StmtKind::If(condition, first, second) => {
            judge_whole(place, inner, outer, around, Role::Value, condition, note);
            judge_inside(place, inner, around, first, note)?;
            match second {
                Some(second) => judge_inside(place, inner, around, second, note),
                None => Ok(()),
            }
        }
        StmtKind::While(condition, body) => {
            judge_whole(place, inner, outer, around, Role::Value, condition, note);
            judge_inside(place, inner, looping(around), body, note)
        }
        StmtKind::Do(body, condition) => {
            judge_do(place, inner, outer, around, body, condition, note)
        }
        StmtKind::For(first, condition, third, body) => {
            let mark = inner.len();
            judge_stmt(place, inner, mark, around, true, first, note)?;
            judge_optional(place, inner, mark, around, condition, note);
            judge_apart(place, inner, mark, around, third, note)?;
            judge_inside(place, inner, looping(around), body, note)?;
            inner.truncate(mark);
            Ok(())
        }
        StmtKind::Simd(_, body) => judge_inside(place, inner, around, body, note),
    }
}

// The body of a `do`, and its condition, which sees nothing of the body's block.
#[cycle(stating)]
#[tactic(auto, using(vk_rules_book::proofs::Noting::found_append))]
fn judge_do(
    place: &Place,
    inner: &mut Vec<Binding>,
    outer: usize,
    around: Around,
    body: &Stmt,
    condition: &Expr,
    note: &mut Note,
) -> Result<(), Memory>
    ensures same { OnOk result (inner.new.items ≡ inner.old.items) }
    ensures noted { OnOk result (note.new.first ≡ found (unit_of place.now) note.old.first
        (stmt_visits (in_loop around) (scope_at place.now inner.old.items (length inner.old.items)) false (stmt_of body.now)
        ++ visits_of around (scope_at place.now inner.old.items outer) role.Value (expr_of condition.now))) }
{
    let inside = looping(around);
    judge_inside(place, inner, inside, body, note)?;
    judge_whole(place, inner, outer, around, Role::Value, condition, note);
    Ok(())
}

// A statement, after which nothing that it declares is visible.
#[cycle(stating)]
fn judge_apart(
    place: &Place,
    inner: &mut Vec<Binding>,
    outer: usize,
    around: Around,
    s: &Stmt,
    note: &mut Note,
) -> Result<(), Memory>
    ensures same { OnOk result (inner.new.items ≡ inner.old.items) }
    ensures noted { OnOk result (note.new.first ≡ found (unit_of place.now) note.old.first
        (stmt_visits around (scope_at place.now inner.old.items outer) false (stmt_of s.now))) }
{
    let mark = inner.len();
    judge_stmt(place, inner, outer, around, false, s, note)?;
    inner.truncate(mark);
    Ok(())
}

// A statement in a scope of its own.
#[cycle(stating)]
fn judge_inside(
    place: &Place,
    inner: &mut Vec<Binding>,
    around: Around,
    s: &Stmt,
    note: &mut Note,
) -> Result<(), Memory>
    ensures same { OnOk result (inner.new.items ≡ inner.old.items) }
    ensures noted { OnOk result (note.new.first ≡ found (unit_of place.now) note.old.first
        (stmt_visits around (scope_at place.now inner.old.items (length inner.old.items)) false (stmt_of s.now))) }
{
    let outer = inner.len();
    judge_apart(place, inner, outer, around, s, note)
}

// A block in a scope of its own.
#[cycle(stating)]
fn judge_block(
    place: &Place,
    inner: &mut Vec<Binding>,
    around: Around,
    ss: &[Stmt],
    note: &mut Note,
) -> Result<(), Memory>
    ensures same { OnOk result (inner.new.items ≡ inner.old.items) }
    ensures noted { OnOk result (note.new.first ≡ found (unit_of place.now) note.old.first
        (all_visits around (scope_at place.now inner.old.items (length inner.old.items)) (list_stmts ss.now))) }
{
    let mark = inner.len();
    judge_all(place, inner, mark, around, ss, note)?;
    inner.truncate(mark);
    Ok(())
}

// Statements one after another.
#[cycle(stating)]
fn judge_all(
    place: &Place,
    inner: &mut Vec<Binding>,
    outer: usize,
    around: Around,
    ss: &[Stmt],
    note: &mut Note,
) -> Result<(), Memory>
    ensures scope { OnOk result (scope_at place.now inner.new.items outer ≡ after_all (scope_at place.now inner.old.items outer) (list_stmts ss.now)) }
    ensures noted { OnOk result (note.new.first ≡ found (unit_of place.now) note.old.first
        (all_visits around (scope_at place.now inner.old.items outer) (list_stmts ss.now))) }
{
    for s in ss {
        judge_stmt(place, inner, outer, around, false, s, note)?;
    }
    Ok(())
}
