// What a first token is to an item: a name, a qualifier, a line of a directive.

ghost use Rattle.std.specs.Prelude.{◌≡◌, ◌+◌, ◌≤◌, ◌<◌, ℕ, Ok, length, IfOk};
ghost use Rattle.vk_grammar_expr.specs.Inner.Parser.{many, take as take_one};
ghost use Rattle.vk_parse_expr.specs.Inner.Answers.{Gives};
ghost use Rattle.vk_grammar_unit.specs.Items as items;
ghost use Rattle.vk_grammar_unit.specs.Inner.Reading as spec;
ghost use Rattle.vk_parse_unit.specs.Inner.Answers.{named_of, qualifier_count};

use crate::nodes::Named;
use vk_ast::NameId;
use vk_grammar_expr::{Keyword, Sym, SymKind};
use vk_parse_expr::signs::kind_at;
use vk_parse_expr::steps::take;
use vk_parse_expr::{Read, ReadFail};
use vk_parse_stmt::signs::{is_keyword, name_at};

/// Whether `const` or `restrict` stands here.
#[tactic(auto, unfolding(vk_grammar_unit::specs::Items::is_qualifier))]
pub(crate) fn is_qualifier(kind: Option<SymKind>) -> bool
    ensures { result ≡ items.is_qualifier kind }
{
    matches!(
        kind,
        Some(SymKind::Keyword(Keyword::Const | Keyword::Restrict))
    )
}

/// The number of the directive whose line of `declare simd` stands here.
#[tactic(auto, unfolding(vk_grammar_unit::specs::Items::line_at))]
pub(crate) fn line_at(kind: Option<SymKind>) -> Option<u32>
    ensures { result ≡ items.line_at kind }
{
    match kind {
        Some(SymKind::Simdfn(number)) => Some(number),
        _ => None,
    }
}

/// Whether such a line stands here.
#[tactic(auto, unfolding(vk_grammar_unit::specs::Items::line_at))]
pub(crate) fn is_line(kind: Option<SymKind>) -> bool
    ensures { result ≡ items.is_line (items.line_at kind) }
{
    matches!(kind, Some(SymKind::Simdfn(_)))
}

/// An identifier, which stands at this token.
pub(crate) fn named(sym: Sym, id: NameId) -> Named
    ensures { named_of result ≡ spec.named_by sym id }
{
    Named {
        line: sym.line,
        token: sym.at,
        id,
    }
}

/// An identifier.
#[tactic(auto, unfolding(vk_grammar_unit::specs::Inner::Reading::name))]
pub(crate) fn name(syms: &[Sym]) -> Read<'_, Named>
    ensures value { Gives (λ x. (named_of x.0, x.1.now)) result (spec.name syms.now) }
    ensures shorter { IfOk result (λ x. length x.1.now + 1 ≤ length syms.now) }
{
    let Some(id) = name_at(kind_at(syms)) else {
        return Err(ReadFail::Syntax(syms.len()));
    };
    let (sym, rest) = take(syms)?;
    Ok((named(sym, id), rest))
}

/// `[extern]`, and whether it stands here.
#[tactic(auto, unfolding(vk_grammar_unit::specs::Inner::Reading::extern_word))]
pub(crate) fn extern_word(syms: &[Sym]) -> Read<'_, bool>
    ensures value { Gives (λ x. (x.0, x.1.now)) result (spec.extern_word syms.now) }
    ensures shorter { IfOk result (λ x. length x.1.now ≤ length syms.now) }
{
    if !is_keyword(Keyword::Extern, kind_at(syms)) {
        return Ok((false, syms));
    }
    let (_, rest) = take(syms)?;
    Ok((true, rest))
}

fn qualifier_count(syms: &[Sym]) -> usize
    ensures count { result ≡ qualifier_count syms.now }
    ensures within { result ≤ length syms.now }
{
    syms.iter()
        .take_while(|sym| is_qualifier(Some(sym.kind)))
        .count()
}

/// The qualifiers that stand here, and the tokens behind them.
#[tactic(auto, using(crate::proofs::Qualifiers::qualifiers_read))]
pub(crate) fn qualifiers(syms: &[Sym]) -> (&[Sym], &[Sym])
    ensures value { (turns : ℕ) → length syms.now < turns → many turns items.is_qualifier take_one syms.now ≡ Ok (result.0.now, result.1.now) }
    ensures shorter { length result.1.now ≤ length syms.now }
{
    syms.split_at(qualifier_count(syms))
}
