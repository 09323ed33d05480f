// Parameters (C17 6.7.6.3). The type of one begins at `first`.

ghost use Rattle.std.specs.Prelude.{◌≡◌, ◌+◌, ◌≤◌, ◌<◌, ℕ, length, IfOk};
ghost use Rattle.vk_parse_expr.specs.Inner.Answers.{Gives};
ghost use Rattle.vk_grammar_unit.specs.Inner.Reading as spec;
ghost use Rattle.vk_parse_unit.specs.Inner.Answers.{named_of, ReadsParam};

use crate::nodes::{Named, pointer_to, with_name, without_name};
use crate::words::{named, qualifiers};
use std::alloc::Global;
use vk_ast::ParamDecl;
use vk_grammar_expr::{Keyword, Sym};
use vk_kinds::CType;
use vk_nodes::Start;
use vk_parse_expr::Read;
use vk_parse_expr::signs::{is_sign, kind_at, start_at};
use vk_parse_expr::steps::take;
use vk_parse_expr::words::{type_in, type_words};
use vk_parse_stmt::acts::optional;
use vk_parse_stmt::signs::{has_const, is_keyword, name_at};
use vk_tokens::Mark;
use vk_types::Ty;

// Behind the name of a parameter that is no pointer: an array is a pointer, and its length is not used.
#[tactic(auto, unfolding(vk_grammar_unit::specs::Inner::Reading::array_param))]
fn array_param(alloc: Global, ty: Ty, fixed: bool, name: Named, syms: &[Sym]) -> Read<'_, ParamDecl>
    ensures value { (turns : ℕ) → length syms.now < turns → ReadsParam result (spec.array_param 63 turns ty fixed (named_of name) syms.now) }
    ensures shorter { IfOk result (λ x. length x.1.now ≤ length syms.now) }
{
    if !is_sign(Mark::OpenBracket, kind_at(syms)) {
        return Ok((with_name(name, CType::Int(ty), fixed), syms));
    }
    let (_, rest) = take(syms)?;
    let (_, rest) = optional(alloc, Mark::CloseBracket, rest)?;
    Ok((with_name(name, pointer_to(ty, fixed), false), rest))
}

#[tactic(auto, unfolding(vk_grammar_unit::specs::Inner::Reading::value_param))]
fn value_param(
    alloc: Global,
    first: Start,
    ty: Ty,
    fixed: bool,
    syms: &[Sym],
) -> Read<'_, ParamDecl>
    ensures value { (turns : ℕ) → length syms.now < turns → ReadsParam result (spec.value_param 63 turns first.line first.token ty fixed syms.now) }
    ensures shorter { IfOk result (λ x. length x.1.now ≤ length syms.now) }
{
    let Some(id) = name_at(kind_at(syms)) else {
        return Ok((without_name(first, CType::Int(ty), fixed), syms));
    };
    let (sym, rest) = take(syms)?;
    array_param(alloc, ty, fixed, named(sym, id), rest)
}

// Behind the qualifiers of a pointer.
#[tactic(auto, unfolding(vk_grammar_unit::specs::Inner::Reading::pointer_name))]
fn pointer_name(first: Start, ctype: CType, fixed: bool, syms: &[Sym]) -> Read<'_, ParamDecl>
    ensures value { (turns : ℕ) → ReadsParam result (spec.pointer_name 63 turns first.line first.token ctype fixed syms.now) }
    ensures shorter { IfOk result (λ x. length x.1.now ≤ length syms.now) }
{
    let Some(id) = name_at(kind_at(syms)) else {
        return Ok((without_name(first, ctype, fixed), syms));
    };
    let (sym, rest) = take(syms)?;
    Ok((with_name(named(sym, id), ctype, fixed), rest))
}

// At the `*` of a pointer.
#[tactic(auto, unfolding(vk_grammar_unit::specs::Inner::Reading::pointer_param))]
fn pointer_param(first: Start, ty: Ty, fixed: bool, syms: &[Sym]) -> Read<'_, ParamDecl>
    ensures value { (turns : ℕ) → length syms.now < turns → ReadsParam result (spec.pointer_param 63 turns first.line first.token ty fixed syms.now) }
    ensures shorter { IfOk result (λ x. length x.1.now ≤ length syms.now) }
{
    let (_, rest) = take(syms)?;
    let (list, rest) = qualifiers(rest);
    pointer_name(first, pointer_to(ty, fixed), has_const(list), rest)
}

#[tactic(auto, unfolding(vk_grammar_unit::specs::Inner::Reading::param_rest))]
fn param_rest(alloc: Global, first: Start, ty: Ty, fixed: bool, syms: &[Sym]) -> Read<'_, ParamDecl>
    ensures value { (turns : ℕ) → length syms.now < turns → ReadsParam result (spec.param_rest 63 turns first.line first.token ty fixed syms.now) }
    ensures shorter { IfOk result (λ x. length x.1.now ≤ length syms.now) }
{
    if is_sign(Mark::Star, kind_at(syms)) {
        pointer_param(first, ty, fixed, syms)
    } else {
        value_param(alloc, first, ty, fixed, syms)
    }
}

// A parameter.
#[tactic(auto, unfolding(vk_grammar_unit::specs::Inner::Reading::param))]
fn param(alloc: Global, syms: &[Sym]) -> Read<'_, ParamDecl>
    ensures value { (turns : ℕ) → length syms.now < turns → ReadsParam result (spec.param 63 turns syms.now) }
    ensures shorter { IfOk result (λ x. length x.1.now ≤ length syms.now) }
{
    let first = start_at(syms);
    let (words, rest) = type_words(syms)?;
    param_rest(alloc, first, type_in(words), has_const(words), rest)
}

// A parameter behind a comma.
#[tactic(auto, unfolding(vk_grammar_unit::specs::Inner::Reading::later_param))]
fn later_param(alloc: Global, syms: &[Sym]) -> Read<'_, ParamDecl>
    ensures value { (turns : ℕ) → length syms.now < turns → ReadsParam result (spec.later_param 63 turns syms.now) }
    ensures shorter { IfOk result (λ x. length x.1.now + 1 ≤ length syms.now) }
{
    let (_, rest) = take(syms)?;
    param(alloc, rest)
}

#[tactic(auto, unfolding(vk_grammar_unit::specs::Inner::Reading::some_params))]
fn some_params(alloc: Global, syms: &[Sym]) -> Read<'_, Vec<ParamDecl>>
    ensures value { (turns : ℕ) → length syms.now < turns → Gives (λ x. (x.0.items, x.1.now)) result (spec.some_params 63 turns syms.now) }
    ensures shorter { IfOk result (λ x. length x.1.now ≤ length syms.now) }
{
    let (first, mut rest) = param(alloc, syms)?;
    let mut list = Vec::new(alloc);
    list.push(first)?;
    'params: while is_sign(Mark::Comma, kind_at(rest)) {
        let (param, after) = match later_param(alloc, rest) {
            Ok(read) => read,
            Err(fail) => return Err(fail),
        };
        list.push(param)?;
        rest = after;
    }
    Ok((list, rest))
}

/// The parameters before a `)`.
#[tactic(auto, unfolding(vk_grammar_unit::specs::Inner::Reading::params))]
pub(crate) fn params(alloc: Global, syms: &[Sym]) -> Read<'_, Vec<ParamDecl>>
    ensures value { (turns : ℕ) → length syms.now < turns → Gives (λ x. (x.0.items, x.1.now)) result (spec.params 63 turns syms.now) }
    ensures shorter { IfOk result (λ x. length x.1.now ≤ length syms.now) }
{
    let kind = kind_at(syms);
    if is_sign(Mark::CloseParen, kind) {
        return Ok((Vec::new(alloc), syms));
    }
    if is_keyword(Keyword::Void, kind) {
        let (_, rest) = take(syms)?;
        return Ok((Vec::new(alloc), rest));
    }
    some_params(alloc, syms)
}
