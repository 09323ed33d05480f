// Functions, and items of both kinds (C17 6.7.6.3, 6.9.1).

ghost use Rattle.std.specs.Prelude.{◌≡◌, ◌+◌, ◌≤◌, ◌<◌, ℕ, map, length, IfOk};
ghost use Rattle.std.specs.Option.{option_map};
ghost use Rattle.vk_ast.specs.Directives.{directive_of};
ghost use Rattle.vk_ast.specs.Statements.{stmt_of};
ghost use Rattle.vk_parse_expr.specs.Inner.Answers.{Gives};
ghost use Rattle.vk_grammar_stmt.specs.Trees.{Clauses};
ghost use Rattle.vk_grammar_unit.specs.Inner.Reading as spec;
ghost use Rattle.vk_parse_unit.specs.Inner.Answers.{named_of, type_of, next_item, ReadsItem, ReadsItems};

use crate::lines::lines;
use crate::nodes::{Named, ObjectType, all_named, function_node, single};
use crate::objects::objects;
use crate::params::params;
use crate::words::{extern_word, name};
use std::alloc::Global;
use vk_ast::{Item, ParamDecl};
use vk_grammar_expr::{Keyword, Sym};
use vk_kinds::CType;
use vk_nodes::{DirectiveList, ItemList, StmtBox};
use vk_parse_expr::signs::{is_sign, kind_at};
use vk_parse_expr::steps::{expect, take};
use vk_parse_expr::words::{type_in, type_words};
use vk_parse_expr::{Read, ReadFail};
use vk_parse_stmt::signs::{has_const, is_keyword};
use vk_parse_stmt::{Directives, read_body};
use vk_tokens::Mark;

// The block of a function, each of whose parameters has to have a name.
#[tactic(auto, unfolding(vk_grammar_unit::specs::Inner::Reading::definition))]
fn definition<'a, D: Directives>(
    alloc: Global,
    directives: &D,
    params: &[ParamDecl],
    syms: &'a [Sym],
) -> Read<'a, Option<StmtBox>>
    ensures value { (turns : ℕ) → length syms.now < turns
        → Gives (λ x. (option_map stmt_of x.0, x.1.now)) result (spec.definition (D.clauses directives.now) 63 65 turns params.now syms.now) }
    ensures shorter { IfOk result (λ x. length x.1.now + 1 ≤ length syms.now) }
{
    if !all_named(params) {
        return Err(ReadFail::Syntax(syms.len()));
    }
    let (body, rest) = read_body(alloc, directives, syms)?;
    Ok((Some(body), rest))
}

// `";" | block`
#[tactic(auto, unfolding(vk_grammar_unit::specs::Inner::Reading::function_end))]
fn function_end<'a, D: Directives>(
    alloc: Global,
    directives: &D,
    params: &[ParamDecl],
    syms: &'a [Sym],
) -> Read<'a, Option<StmtBox>>
    ensures value { (turns : ℕ) → length syms.now < turns
        → Gives (λ x. (option_map stmt_of x.0, x.1.now)) result (spec.function_end (D.clauses directives.now) 63 65 turns params.now syms.now) }
    ensures shorter { IfOk result (λ x. length x.1.now + 1 ≤ length syms.now) }
{
    if is_sign(Mark::Semicolon, kind_at(syms)) {
        let (_, rest) = take(syms)?;
        return Ok((None, rest));
    }
    definition(alloc, directives, params, syms)
}

// Behind the name of a function.
#[tactic(auto, unfolding(vk_grammar_unit::specs::Inner::Reading::function))]
fn function<'a, D: Directives>(
    alloc: Global,
    directives: &D,
    lines: DirectiveList,
    result_type: CType,
    name: Named,
    syms: &'a [Sym],
) -> Read<'a, Item>
    ensures value { (turns : ℕ) → length syms.now < turns
        → ReadsItem result (spec.function (D.clauses directives.now) 63 65 turns (map directive_of lines) result_type (named_of name) syms.now) }
    ensures shorter { IfOk result (λ x. length x.1.now + 1 ≤ length syms.now) }
{
    let (_, rest) = expect(Mark::OpenParen, syms)?;
    let (params, rest) = params(alloc, rest)?;
    let (_, rest) = expect(Mark::CloseParen, rest)?;
    let (body, rest) = function_end(alloc, directives, &params, rest)?;
    Ok((function_node(name, lines, result_type, params, body), rest))
}

#[tactic(auto, unfolding(vk_grammar_unit::specs::Inner::Reading::one_function))]
fn one_function<'a, D: Directives>(
    alloc: Global,
    directives: &D,
    lines: DirectiveList,
    result_type: CType,
    name: Named,
    syms: &'a [Sym],
) -> Read<'a, ItemList>
    ensures value { (turns : ℕ) → length syms.now < turns
        → ReadsItems result (spec.one_function (D.clauses directives.now) 63 65 turns (map directive_of lines) result_type (named_of name) syms.now) }
    ensures shorter { IfOk result (λ x. length x.1.now + 1 ≤ length syms.now) }
{
    let (item, rest) = function(alloc, directives, lines, result_type, name, syms)?;
    Ok((single(alloc, item)?, rest))
}

// A function without a result, at the `void`.
#[tactic(auto, unfolding(vk_grammar_unit::specs::Inner::Reading::void_function))]
fn void_function<'a, D: Directives>(
    alloc: Global,
    directives: &D,
    lines: DirectiveList,
    syms: &'a [Sym],
) -> Read<'a, ItemList>
    ensures value { (turns : ℕ) → length syms.now < turns
        → ReadsItems result (spec.void_function (D.clauses directives.now) 63 65 turns (map directive_of lines) syms.now) }
    ensures shorter { IfOk result (λ x. length x.1.now + 1 ≤ length syms.now) }
{
    let (_, rest) = take(syms)?;
    let (name, rest) = name(rest)?;
    one_function(alloc, directives, lines, CType::Void, name, rest)
}

// Objects, behind the name of the first; lines of directives before them are items by themselves.
#[tactic(auto, unfolding(vk_grammar_unit::specs::Inner::Reading::lost_objects), using(crate::proofs::Names::lost_before))]
fn lost_objects(
    alloc: Global,
    lines: DirectiveList,
    of: ObjectType,
    name: Named,
    syms: &[Sym],
) -> Read<'_, ItemList>
    ensures value { (clauses : Clauses) (turns : ℕ) → length syms.now < turns
        → ReadsItems result (spec.lost_objects clauses 63 65 turns (map directive_of lines) (type_of of) (named_of name) syms.now) }
    ensures shorter { IfOk result (λ x. length x.1.now + 1 ≤ length syms.now) }
{
    let (more, rest) = objects(alloc, of, name, syms)?;
    let mut list = lines.into_items(alloc)?;
    list.append(more)?;
    Ok((list, rest))
}

// Behind a type and the first name.
#[tactic(auto, unfolding(vk_grammar_unit::specs::Inner::Reading::typed_item))]
fn typed_item<'a, D: Directives>(
    alloc: Global,
    directives: &D,
    lines: DirectiveList,
    of: ObjectType,
    name: Named,
    syms: &'a [Sym],
) -> Read<'a, ItemList>
    ensures value { (turns : ℕ) → length syms.now < turns
        → ReadsItems result (spec.typed_item (D.clauses directives.now) 63 65 turns (map directive_of lines) (type_of of) (named_of name) syms.now) }
    ensures shorter { IfOk result (λ x. length x.1.now + 1 ≤ length syms.now) }
{
    if is_sign(Mark::OpenParen, kind_at(syms)) {
        one_function(alloc, directives, lines, CType::Int(of.ty), name, syms)
    } else {
        lost_objects(alloc, lines, of, name, syms)
    }
}

// An item that begins with a type.
#[tactic(auto, unfolding(vk_grammar_unit::specs::Inner::Reading::typed))]
fn typed<'a, D: Directives>(
    alloc: Global,
    directives: &D,
    lines: DirectiveList,
    outside: bool,
    syms: &'a [Sym],
) -> Read<'a, ItemList>
    ensures value { (turns : ℕ) → length syms.now < turns
        → ReadsItems result (spec.typed (D.clauses directives.now) 63 65 turns (map directive_of lines) outside syms.now) }
    ensures shorter { IfOk result (λ x. length x.1.now + 1 ≤ length syms.now) }
{
    let (words, rest) = type_words(syms)?;
    let (name, rest) = name(rest)?;
    let of = ObjectType {
        ty: type_in(words),
        fixed: has_const(words),
        outside,
    };
    typed_item(alloc, directives, lines, of, name, rest)
}

// What an item makes, behind its lines of directives.
#[tactic(auto, unfolding(vk_grammar_unit::specs::Inner::Reading::item))]
fn item<'a, D: Directives>(
    alloc: Global,
    directives: &D,
    lines: DirectiveList,
    syms: &'a [Sym],
) -> Read<'a, ItemList>
    ensures value { (turns : ℕ) → length syms.now < turns
        → ReadsItems result (spec.item (D.clauses directives.now) 63 65 turns (map directive_of lines) syms.now) }
    ensures shorter { IfOk result (λ x. length x.1.now + 1 ≤ length syms.now) }
{
    let (outside, rest) = extern_word(syms)?;
    if is_keyword(Keyword::Void, kind_at(rest)) {
        void_function(alloc, directives, lines, rest)
    } else {
        typed(alloc, directives, lines, outside, rest)
    }
}

/// The lines of directives that stand here, and what the item behind them makes; at the end the lines alone.
#[tactic(auto, using(crate::proofs::Names::lost_alone))]
pub(crate) fn next_item<'a, D: Directives>(
    alloc: Global,
    directives: &D,
    syms: &'a [Sym],
) -> Read<'a, ItemList>
    ensures value { (turns : ℕ) → length syms.now < turns → ReadsItems result (next_item (D.clauses directives.now) turns syms.now) }
    ensures shorter { IfOk result (λ x. length x.1.now ≤ length syms.now) }
    ensures onwards { 0 < length syms.now → IfOk result (λ x. length x.1.now + 1 ≤ length syms.now) }
{
    let (lines, rest) = lines(alloc, directives, syms)?;
    if rest.is_empty() {
        return Ok((lines.into_items(alloc)?, rest));
    }
    item(alloc, directives, lines, rest)
}
