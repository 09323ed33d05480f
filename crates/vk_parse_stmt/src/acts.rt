// Parts of statements in which no other statement stands: conditions, assignments, expressions and jumps.

ghost use Rattle.std.specs.Prelude.{◌≡◌, ◌+◌, ◌≤◌, ◌<◌, ℕ, length, IfOk};
ghost use Rattle.std.specs.Option.{option_map};
ghost use Rattle.vk_ast.specs.Statements as tree;
ghost use Rattle.vk_ast.specs.Tree.{expr_of};
ghost use Rattle.vk_grammar_stmt.specs.Inner.Reading as spec;
ghost use Rattle.vk_parse_expr.specs.Inner.Answers.{seen, Gives, Reads};
ghost use Rattle.vk_parse_stmt.specs.Inner.Answers.{ReadsStmt};

use crate::nodes::unit_node;
use crate::signs::{assign_at, step_at};
use std::alloc::Global;
use vk_ast::BinOp;
use vk_grammar_expr::Sym;
use vk_nodes::{ExprBox, Start, StmtBox};
use vk_parse_expr::signs::{is_sign, kind_at, start_at, start_of};
use vk_parse_expr::steps::{expect, take};
use vk_parse_expr::{High, Read, read_full, read_onwards, read_unary};
use vk_tokens::Mark;

/// `( cond )`
#[tactic(auto, unfolding(vk_grammar_stmt::specs::Inner::Reading::condition, vk_grammar_stmt::specs::Inner::Reading::cond))]
pub fn condition(alloc: Global, syms: &[Sym]) -> Read<'_, ExprBox>
    ensures value { (turns : ℕ) → length syms.now < turns → Gives (λ x. (expr_of x.0, x.1.now)) result (spec.condition 63 turns syms.now) }
    ensures shorter { IfOk result (λ x. length x.1.now + 1 ≤ length syms.now) }
{
    let (_, rest) = expect(Mark::OpenParen, syms)?;
    let (read, rest) = read_full(alloc, rest)?;
    let (_, rest) = expect(Mark::CloseParen, rest)?;
    Ok((read.expr, rest))
}

/// `[cond]`, with the sign that ends it.
#[tactic(auto, unfolding(vk_grammar_stmt::specs::Inner::Reading::optional, vk_grammar_stmt::specs::Inner::Reading::cond))]
pub fn optional(alloc: Global, end: Mark, syms: &[Sym]) -> Read<'_, Option<ExprBox>>
    ensures value { (turns : ℕ) → length syms.now < turns → Gives (λ x. (option_map expr_of x.0, x.1.now)) result (spec.optional 63 turns end syms.now) }
    ensures shorter { IfOk result (λ x. length x.1.now + 1 ≤ length syms.now) }
{
    if is_sign(end, kind_at(syms)) {
        let (_, rest) = take(syms)?;
        return Ok((None, rest));
    }
    let (read, rest) = read_full(alloc, syms)?;
    let (_, rest) = expect(end, rest)?;
    Ok((Some(read.expr), rest))
}

// At `++` or `--`.
#[tactic(auto, unfolding(vk_grammar_stmt::specs::Inner::Reading::step_before, vk_grammar_stmt::specs::Inner::Reading::unary))]
fn step_before(alloc: Global, op: BinOp, syms: &[Sym]) -> Read<'_, StmtBox>
    ensures value { (turns : ℕ) → length syms.now < turns → ReadsStmt result (spec.step_before 63 turns op syms.now) }
    ensures shorter { IfOk result (λ x. length x.1.now + 1 ≤ length syms.now) }
{
    let (sign, rest) = take(syms)?;
    let (place, rest) = read_unary(alloc, rest)?;
    let one = unit_node(alloc, sign)?;
    let node = StmtBox::assign(alloc, start_of(&sign), Some(op), place.expr, one)?;
    Ok((node, rest))
}

// An assignment, at its sign, behind the place, which begins at `first`.
#[tactic(auto, unfolding(vk_grammar_stmt::specs::Inner::Reading::assigned, vk_grammar_stmt::specs::Inner::Reading::cond))]
fn assigned(
    alloc: Global,
    first: Start,
    place: High,
    op: Option<BinOp>,
    syms: &[Sym],
) -> Read<'_, StmtBox>
    ensures value { (turns : ℕ) → length syms.now < turns
        → ReadsStmt result (spec.assigned 63 turns first.line first.token (seen place) op syms.now) }
    ensures shorter { IfOk result (λ x. length x.1.now ≤ length syms.now) }
{
    let (_, rest) = take(syms)?;
    let (operand, rest) = read_full(alloc, rest)?;
    let node = StmtBox::assign(alloc, first, op, place.expr, operand.expr)?;
    Ok((node, rest))
}

// At `++` or `--` behind the place, which begins at `first`.
#[tactic(auto, unfolding(vk_grammar_stmt::specs::Inner::Reading::stepped))]
fn stepped(alloc: Global, first: Start, place: High, op: BinOp, syms: &[Sym]) -> Read<'_, StmtBox>
    ensures value { (turns : ℕ) → ReadsStmt result (spec.stepped 63 turns first.line first.token (seen place) op syms.now) }
    ensures shorter { IfOk result (λ x. length x.1.now ≤ length syms.now) }
{
    let (sign, rest) = take(syms)?;
    let one = unit_node(alloc, sign)?;
    let node = StmtBox::assign(alloc, first, Some(op), place.expr, one)?;
    Ok((node, rest))
}

// An expression behind its first operand, which begins at `first`.
#[tactic(auto, unfolding(vk_grammar_stmt::specs::Inner::Reading::valued))]
fn valued(alloc: Global, first: Start, operand: High, syms: &[Sym]) -> Read<'_, StmtBox>
    requires low { 1 ≤ operand.height }
    requires high { operand.height ≤ 64 }
    ensures value { (turns : ℕ) → length syms.now < turns
        → ReadsStmt result (spec.valued 63 turns first.line first.token (seen operand) syms.now) }
    ensures shorter { IfOk result (λ x. length x.1.now ≤ length syms.now) }
{
    let (value, rest) = read_onwards(alloc, first, operand, syms)?;
    Ok((StmtBox::value(alloc, first, value.expr)?, rest))
}

// Behind an operand that begins at `first`: a sign of an assignment, a step, or the rest of an expression.
#[tactic(auto, unfolding(vk_grammar_stmt::specs::Inner::Reading::behind_operand))]
fn behind_operand(alloc: Global, first: Start, operand: High, syms: &[Sym]) -> Read<'_, StmtBox>
    requires low { 1 ≤ operand.height }
    requires high { operand.height ≤ 64 }
    ensures value { (turns : ℕ) → length syms.now < turns
        → ReadsStmt result (spec.behind_operand 63 turns first.line first.token (seen operand) syms.now) }
    ensures shorter { IfOk result (λ x. length x.1.now ≤ length syms.now) }
{
    let kind = kind_at(syms);
    if let Some(op) = assign_at(kind) {
        assigned(alloc, first, operand, op, syms)
    } else if let Some(op) = step_at(kind) {
        stepped(alloc, first, operand, op, syms)
    } else {
        valued(alloc, first, operand, syms)
    }
}

/// An assignment or an expression.
#[tactic(auto, unfolding(vk_grammar_stmt::specs::Inner::Reading::act, vk_grammar_stmt::specs::Inner::Reading::unary))]
pub fn act(alloc: Global, syms: &[Sym]) -> Read<'_, StmtBox>
    ensures value { (turns : ℕ) → length syms.now < turns → ReadsStmt result (spec.act 63 turns syms.now) }
    ensures shorter { IfOk result (λ x. length x.1.now + 1 ≤ length syms.now) }
{
    if let Some(op) = step_at(kind_at(syms)) {
        return step_before(alloc, op, syms);
    }
    let first = start_at(syms);
    let (operand, rest) = read_unary(alloc, syms)?;
    behind_operand(alloc, first, operand, rest)
}

/// `[act]`, with the sign that ends it, at which an empty statement stands.
#[tactic(auto, unfolding(vk_grammar_stmt::specs::Inner::Reading::part))]
pub fn part(alloc: Global, end: Mark, syms: &[Sym]) -> Read<'_, StmtBox>
    ensures value { (turns : ℕ) → length syms.now < turns → ReadsStmt result (spec.part 63 turns end syms.now) }
    ensures shorter { IfOk result (λ x. length x.1.now + 1 ≤ length syms.now) }
{
    if is_sign(end, kind_at(syms)) {
        let (sign, rest) = take(syms)?;
        return Ok((StmtBox::empty(alloc, start_of(&sign))?, rest));
    }
    let (node, rest) = act(alloc, syms)?;
    let (_, rest) = expect(end, rest)?;
    Ok((node, rest))
}

/// `break ;`, at the keyword.
#[tactic(auto, unfolding(vk_grammar_stmt::specs::Inner::Reading::jump))]
pub fn broken(alloc: Global, syms: &[Sym]) -> Read<'_, StmtBox>
    ensures value { (turns : ℕ) → ReadsStmt result (spec.jump 63 turns tree.break_loop syms.now) }
    ensures shorter { IfOk result (λ x. length x.1.now + 1 ≤ length syms.now) }
{
    let (first, rest) = take(syms)?;
    let (_, rest) = expect(Mark::Semicolon, rest)?;
    Ok((StmtBox::break_loop(alloc, start_of(&first))?, rest))
}

/// `continue ;`, at the keyword.
#[tactic(auto, unfolding(vk_grammar_stmt::specs::Inner::Reading::jump))]
pub fn continued(alloc: Global, syms: &[Sym]) -> Read<'_, StmtBox>
    ensures value { (turns : ℕ) → ReadsStmt result (spec.jump 63 turns tree.continue_loop syms.now) }
    ensures shorter { IfOk result (λ x. length x.1.now + 1 ≤ length syms.now) }
{
    let (first, rest) = take(syms)?;
    let (_, rest) = expect(Mark::Semicolon, rest)?;
    Ok((StmtBox::continue_loop(alloc, start_of(&first))?, rest))
}

/// `return [cond] ;`, at the keyword.
#[tactic(auto, unfolding(vk_grammar_stmt::specs::Inner::Reading::returned))]
pub fn returned(alloc: Global, syms: &[Sym]) -> Read<'_, StmtBox>
    ensures value { (turns : ℕ) → length syms.now < turns → ReadsStmt result (spec.returned 63 turns syms.now) }
    ensures shorter { IfOk result (λ x. length x.1.now + 1 ≤ length syms.now) }
{
    let (first, rest) = take(syms)?;
    let (value, rest) = optional(alloc, Mark::Semicolon, rest)?;
    Ok((StmtBox::return_value(alloc, start_of(&first), value)?, rest))
}
