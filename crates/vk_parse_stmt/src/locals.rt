// Declarations of local variables (C17 6.7).

ghost use Rattle.std.specs.Prelude.{◌≡◌, ◌+◌, ◌≤◌, ◌<◌, ℕ, length, IfOk};
ghost use Rattle.std.specs.Option.{option_map};
ghost use Rattle.vk_ast.specs.Tree.{expr_of};
ghost use Rattle.vk_grammar_stmt.specs.Inner.Reading as spec;
ghost use Rattle.vk_parse_expr.specs.Inner.Answers.{Gives};
ghost use Rattle.vk_parse_stmt.specs.Inner.Answers.{ReadsStmt, ReadsStmts};

use crate::nodes::single_node;
use crate::signs::{has_const, name_at};
use std::alloc::Global;
use vk_ast::NameId;
use vk_grammar_expr::Sym;
use vk_nodes::{ExprBox, StmtBox, StmtList};
use vk_parse_expr::signs::{is_sign, kind_at, start_at, start_of};
use vk_parse_expr::steps::{expect, take};
use vk_parse_expr::words::{type_in, type_words};
use vk_parse_expr::{Read, ReadFail, read_full};
use vk_tokens::Mark;
use vk_types::Ty;

// Behind the name of a variable: its initialiser, if there is one.
#[tactic(auto, unfolding(vk_grammar_stmt::specs::Inner::Reading::initial, vk_grammar_stmt::specs::Inner::Reading::cond))]
fn initial(alloc: Global, syms: &[Sym]) -> Read<'_, Option<ExprBox>>
    ensures value { (turns : ℕ) → length syms.now < turns → Gives (λ x. (option_map expr_of x.0, x.1.now)) result (spec.initial 63 turns syms.now) }
    ensures shorter { IfOk result (λ x. length x.1.now ≤ length syms.now) }
{
    if !is_sign(Mark::Assign, kind_at(syms)) {
        return Ok((None, syms));
    }
    let (_, rest) = take(syms)?;
    let (read, rest) = read_full(alloc, rest)?;
    Ok((Some(read.expr), rest))
}

#[tactic(auto, unfolding(vk_grammar_stmt::specs::Inner::Reading::named_local))]
fn named_local(alloc: Global, ty: Ty, fixed: bool, id: NameId, syms: &[Sym]) -> Read<'_, StmtBox>
    ensures value { (turns : ℕ) → length syms.now < turns → ReadsStmt result (spec.named_local 63 turns ty fixed id syms.now) }
    ensures shorter { IfOk result (λ x. length x.1.now + 1 ≤ length syms.now) }
{
    let (name, rest) = take(syms)?;
    let (value, rest) = initial(alloc, rest)?;
    let node = StmtBox::local(alloc, start_of(&name), ty, fixed, id, value)?;
    Ok((node, rest))
}

// A variable, from its name on.
#[tactic(auto, unfolding(vk_grammar_stmt::specs::Inner::Reading::local))]
fn local(alloc: Global, ty: Ty, fixed: bool, syms: &[Sym]) -> Read<'_, StmtBox>
    ensures value { (turns : ℕ) → length syms.now < turns → ReadsStmt result (spec.local 63 turns ty fixed syms.now) }
    ensures shorter { IfOk result (λ x. length x.1.now + 1 ≤ length syms.now) }
{
    match name_at(kind_at(syms)) {
        Some(id) => named_local(alloc, ty, fixed, id, syms),
        None => Err(ReadFail::Syntax(syms.len())),
    }
}

// A variable behind a comma; `room` tells whether there may be several.
#[tactic(auto, unfolding(vk_grammar_stmt::specs::Inner::Reading::later_local))]
fn later_local(alloc: Global, room: bool, ty: Ty, fixed: bool, syms: &[Sym]) -> Read<'_, StmtBox>
    ensures value { (turns : ℕ) → length syms.now < turns → ReadsStmt result (spec.later_local 63 turns room ty fixed syms.now) }
    ensures shorter { IfOk result (λ x. length x.1.now + 1 ≤ length syms.now) }
{
    if !room {
        return Err(ReadFail::Deep(syms.len()));
    }
    let (_, rest) = take(syms)?;
    local(alloc, ty, fixed, rest)
}

// The variables behind a type.
#[tactic(auto, unfolding(vk_grammar_stmt::specs::Inner::Reading::local_list))]
fn local_list(alloc: Global, room: bool, ty: Ty, fixed: bool, syms: &[Sym]) -> Read<'_, StmtList>
    ensures value { (turns : ℕ) → length syms.now < turns → ReadsStmts result (spec.local_list 63 turns room ty fixed syms.now) }
    ensures shorter { IfOk result (λ x. length x.1.now + 1 ≤ length syms.now) }
{
    let (first, mut rest) = local(alloc, ty, fixed, syms)?;
    let mut list = StmtList::new(alloc);
    list.push(first)?;
    'variables: while is_sign(Mark::Comma, kind_at(rest)) {
        let (variable, after) = match later_local(alloc, room, ty, fixed, rest) {
            Ok(read) => read,
            Err(fail) => return Err(fail),
        };
        list.push(variable)?;
        rest = after;
    }
    Ok((list, rest))
}

/// A declaration of variables, each a statement of its own; `room` tells whether there may be several.
#[tactic(auto, unfolding(vk_grammar_stmt::specs::Inner::Reading::locals))]
pub fn locals(alloc: Global, room: bool, syms: &[Sym]) -> Read<'_, StmtList>
    ensures value { (turns : ℕ) → length syms.now < turns → ReadsStmts result (spec.locals 63 turns room syms.now) }
    ensures shorter { IfOk result (λ x. length x.1.now + 1 ≤ length syms.now) }
{
    let (words, rest) = type_words(syms)?;
    let (list, rest) = local_list(alloc, room, type_in(words), has_const(words), rest)?;
    let (_, rest) = expect(Mark::Semicolon, rest)?;
    Ok((list, rest))
}

/// A declaration where one statement is wanted: of several variables, a block.
#[tactic(auto, unfolding(vk_grammar_stmt::specs::Inner::Reading::one_locals))]
pub fn one_locals(alloc: Global, room: bool, syms: &[Sym]) -> Read<'_, StmtBox>
    ensures value { (turns : ℕ) → length syms.now < turns → ReadsStmt result (spec.one_locals 63 turns room syms.now) }
    ensures shorter { IfOk result (λ x. length x.1.now + 1 ≤ length syms.now) }
{
    let first = start_at(syms);
    let (list, rest) = locals(alloc, room, syms)?;
    Ok((single_node(alloc, first, list)?, rest))
}
