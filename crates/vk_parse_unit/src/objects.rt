// Objects and their initialisers (C17 6.7.6.2, 6.7.9).

ghost use Rattle.std.specs.Prelude.{◌≡◌, ◌+◌, ◌≤◌, ◌<◌, ℕ, map, length, IfOk};
ghost use Rattle.std.specs.Option.{option_map};
ghost use Rattle.vk_ast.specs.Tree.{expr_of};
ghost use Rattle.vk_parse_expr.specs.Inner.Answers.{Gives};
ghost use Rattle.vk_grammar_unit.specs.Inner.Reading as spec;
ghost use Rattle.vk_parse_unit.specs.Inner.Answers.{named_of, type_of, initial_of, behind_comma, object_list, ReadsItem, ReadsItems};

use crate::nodes::{Initial, Named, ObjectType, no_initial, object_node};
use crate::words::name;
use std::alloc::Global;
use vk_ast::Item;
use vk_grammar_expr::Sym;
use vk_nodes::{ExprBox, ExprList, ItemList};
use vk_parse_expr::signs::{is_sign, kind_at, start_at};
use vk_parse_expr::steps::{expect, take};
use vk_parse_expr::{Read, read_full};
use vk_parse_stmt::acts::optional;
use vk_tokens::Mark;

// `[ "[" [cond] "]" ]`
#[tactic(auto, unfolding(vk_grammar_unit::specs::Inner::Reading::array_length))]
fn array_length(alloc: Global, syms: &[Sym]) -> Read<'_, Option<Option<ExprBox>>>
    ensures value { (turns : ℕ) → length syms.now < turns
        → Gives (λ x. (option_map (option_map expr_of) x.0, x.1.now)) result (spec.array_length 63 turns syms.now) }
    ensures shorter { IfOk result (λ x. length x.1.now ≤ length syms.now) }
{
    if !is_sign(Mark::OpenBracket, kind_at(syms)) {
        return Ok((None, syms));
    }
    let (_, rest) = take(syms)?;
    let (length, rest) = optional(alloc, Mark::CloseBracket, rest)?;
    Ok((Some(length), rest))
}

// The tokens behind a comma, if one stands here.
fn behind_comma(syms: &[Sym]) -> Option<&[Sym]>
    ensures { option_map (λ r. r.now) result ≡ behind_comma syms.now }
{
    match syms {
        [_, rest @ ..] if is_sign(Mark::Comma, kind_at(syms)) => Some(rest),
        _ => None,
    }
}

// The values before a `}`, behind which a comma may stand.
#[tactic(auto, unfolding(vk_grammar_unit::specs::Inner::Reading::values))]
fn values(alloc: Global, syms: &[Sym]) -> Read<'_, ExprList>
    ensures value { (turns : ℕ) → length syms.now < turns → Gives (λ x. (map expr_of x.0, x.1.now)) result (spec.values 63 turns syms.now) }
    ensures shorter { IfOk result (λ x. length x.1.now ≤ length syms.now) }
{
    let mut list = ExprList::new(alloc);
    let mut rest = syms;
    'values: while !is_sign(Mark::CloseBrace, kind_at(rest)) {
        let (value, after) = match read_full(alloc, rest) {
            Ok(read) => read,
            Err(fail) => return Err(fail),
        };
        list.push(value.expr)?;
        let Some(next) = behind_comma(after) else {
            return Ok((list, after));
        };
        rest = next;
    }
    Ok((list, rest))
}

// An initialiser in braces, at the `{`.
#[tactic(auto, unfolding(vk_grammar_unit::specs::Inner::Reading::braced_initial))]
fn braced_initial(alloc: Global, syms: &[Sym]) -> Read<'_, Initial>
    ensures value { (turns : ℕ) → length syms.now < turns → Gives (λ x. (initial_of x.0, x.1.now)) result (spec.braced_initial 63 turns syms.now) }
    ensures shorter { IfOk result (λ x. length x.1.now ≤ length syms.now) }
{
    let (first, rest) = take(syms)?;
    let (items, rest) = values(alloc, rest)?;
    let (_, rest) = expect(Mark::CloseBrace, rest)?;
    let initial = Initial {
        items: Some(items),
        braced: true,
        line: first.line,
        token: first.at,
    };
    Ok((initial, rest))
}

// An initialiser that is one expression.
#[tactic(auto, unfolding(vk_grammar_unit::specs::Inner::Reading::scalar_initial, vk_grammar_stmt::specs::Inner::Reading::cond))]
fn scalar_initial(alloc: Global, syms: &[Sym]) -> Read<'_, Initial>
    ensures value { (turns : ℕ) → length syms.now < turns → Gives (λ x. (initial_of x.0, x.1.now)) result (spec.scalar_initial 63 turns syms.now) }
    ensures shorter { IfOk result (λ x. length x.1.now ≤ length syms.now) }
{
    let first = start_at(syms);
    let (value, rest) = read_full(alloc, syms)?;
    let mut items = ExprList::new(alloc);
    items.push(value.expr)?;
    let initial = Initial {
        items: Some(items),
        braced: false,
        line: first.line,
        token: first.token,
    };
    Ok((initial, rest))
}

// Behind the name of an object: its initialiser, if there is one.
#[tactic(auto, unfolding(vk_grammar_unit::specs::Inner::Reading::initial))]
fn initial(alloc: Global, syms: &[Sym]) -> Read<'_, Initial>
    ensures value { (turns : ℕ) → length syms.now < turns → Gives (λ x. (initial_of x.0, x.1.now)) result (spec.initial 63 turns syms.now) }
    ensures shorter { IfOk result (λ x. length x.1.now ≤ length syms.now) }
{
    if !is_sign(Mark::Assign, kind_at(syms)) {
        return Ok((no_initial(), syms));
    }
    let (_, rest) = take(syms)?;
    if is_sign(Mark::OpenBrace, kind_at(rest)) {
        braced_initial(alloc, rest)
    } else {
        scalar_initial(alloc, rest)
    }
}

// Behind the name of an object.
#[tactic(auto, unfolding(vk_grammar_unit::specs::Inner::Reading::object))]
fn object(alloc: Global, of: ObjectType, name: Named, syms: &[Sym]) -> Read<'_, Item>
    ensures value { (turns : ℕ) → length syms.now < turns → ReadsItem result (spec.object 63 turns (type_of of) (named_of name) syms.now) }
    ensures shorter { IfOk result (λ x. length x.1.now ≤ length syms.now) }
{
    let (array, rest) = array_length(alloc, syms)?;
    let (init, rest) = initial(alloc, rest)?;
    Ok((object_node(of, name, array, init), rest))
}

// An object behind a comma.
#[tactic(auto, unfolding(vk_grammar_unit::specs::Inner::Reading::later_object))]
fn later_object(alloc: Global, of: ObjectType, syms: &[Sym]) -> Read<'_, Item>
    ensures value { (turns : ℕ) → length syms.now < turns → ReadsItem result (spec.later_object 63 turns (type_of of) syms.now) }
    ensures shorter { IfOk result (λ x. length x.1.now + 1 ≤ length syms.now) }
{
    let (_, rest) = take(syms)?;
    let (name, rest) = name(rest)?;
    object(alloc, of, name, rest)
}

// The objects of a declaration before the `;`, behind the name of the first.
fn object_list(alloc: Global, of: ObjectType, name: Named, syms: &[Sym]) -> Read<'_, ItemList>
    ensures value { (turns : ℕ) → length syms.now < turns → ReadsItems result (object_list (type_of of) (named_of name) turns syms.now) }
    ensures shorter { IfOk result (λ x. length x.1.now ≤ length syms.now) }
{
    let (first, mut rest) = object(alloc, of, name, syms)?;
    let mut list = ItemList::new(alloc);
    list.push(first)?;
    'objects: while is_sign(Mark::Comma, kind_at(rest)) {
        let (object, after) = match later_object(alloc, of, rest) {
            Ok(read) => read,
            Err(fail) => return Err(fail),
        };
        list.push(object)?;
        rest = after;
    }
    Ok((list, rest))
}

/// The objects of a declaration, each an item of its own, behind the name of the first.
#[tactic(auto, unfolding(vk_grammar_unit::specs::Inner::Reading::objects))]
pub(crate) fn objects(
    alloc: Global,
    of: ObjectType,
    name: Named,
    syms: &[Sym],
) -> Read<'_, ItemList>
    ensures value { (turns : ℕ) → length syms.now < turns → ReadsItems result (spec.objects 63 turns (type_of of) (named_of name) syms.now) }
    ensures shorter { IfOk result (λ x. length x.1.now + 1 ≤ length syms.now) }
{
    let (list, rest) = object_list(alloc, of, name, syms)?;
    let (_, rest) = expect(Mark::Semicolon, rest)?;
    Ok((list, rest))
}
