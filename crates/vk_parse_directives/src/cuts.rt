// How the tokens of a directive line are cut.

ghost use Rattle.std.specs.Prelude.{◌≡◌, ◌+◌, ◌-◌, ◌≤◌, ◌<◌, length, take, Some, IfSome};
ghost use Rattle.std.specs.Option.{option_map};
ghost use Rattle.vk_parse_directives.specs.Cuts.{is_any_word, is_open, is_close, is_comma, is_colon, group_len, piece_len, begins_clause, skips_comma, before_colon, behind_colon, has_comma, is_modifier, begins_modifier, has_modifiers};
ghost use Rattle.vk_parse_directives.specs.Inner.Reading.{inside};
ghost use Rattle.vk_parse_directives.specs.Inner.Answers.{Gives};
ghost use Rattle.std.specs.List.{position};

use crate::miss::Miss;
use crate::words::{Word, word_at};
use vk_ast::NameTable;
use vk_grammar_expr::{Sym, SymKind};
use vk_parse_expr::signs::{is_sign, kind_at};
use vk_tokens::Mark;

fn is_any_word(kind: SymKind) -> bool
    ensures { result ≡ is_any_word kind }
{
    matches!(
        kind,
        SymKind::Name(_) | SymKind::Keyword(_) | SymKind::TypeWord(_) | SymKind::LeftOut
    )
}

fn is_open(sym: Sym) -> bool
    ensures { result ≡ is_open sym }
{
    is_sign(Mark::OpenParen, Some(sym.kind))
}

fn is_close(sym: Sym) -> bool
    ensures { result ≡ is_close sym }
{
    is_sign(Mark::CloseParen, Some(sym.kind))
}

/// Whether a token is a comma.
pub fn is_comma(sym: Sym) -> bool
    ensures { result ≡ is_comma sym }
{
    is_sign(Mark::Comma, Some(sym.kind))
}

fn is_colon(sym: Sym) -> bool
    ensures { result ≡ is_colon sym }
{
    is_sign(Mark::Colon, Some(sym.kind))
}

// How many tokens go to the `)` that closes the first of the open parentheses, or to the end.
fn group_len(syms: &[Sym]) -> usize
    ensures count { result ≡ group_len 0 syms.now }
    ensures within { result ≤ length syms.now }
{
    let mut depth = 0usize;
    for (at, sym) in syms.iter().enumerate() {
        if is_open(*sym) {
            depth += 1;
        } else if is_close(*sym) {
            if depth <= 1 {
                return at + 1;
            }
            depth -= 1;
        }
    }
    syms.len()
}

/// How many tokens stand together at the front: a word with what stands in parentheses directly behind it, or one token.
pub fn piece_len(syms: &[Sym]) -> usize
    ensures count { result ≡ piece_len syms.now }
    ensures within { result ≤ length syms.now }
    ensures some { 1 ≤ length syms.now → 1 ≤ result }
{
    match syms {
        [] => 0,
        [first, rest @ ..] => {
            if is_any_word(first.kind) && is_sign(Mark::OpenParen, kind_at(rest)) {
                1 + group_len(rest)
            } else {
                1
            }
        }
    }
}

/// Whether a comma stands here that is skipped before a clause.
pub fn skips_comma(syms: &[Sym]) -> bool
    ensures { result ≡ skips_comma syms.now }
{
    match syms {
        [comma, next, ..] => is_comma(*comma) && !is_comma(*next),
        _ => false,
    }
}

// Whether a comma stands outside parentheses.
fn has_comma(syms: &[Sym]) -> bool
    ensures { result ≡ has_comma 0 syms.now }
{
    let mut depth = 0usize;
    for sym in syms {
        if is_open(*sym) {
            depth += 1;
        } else if is_close(*sym) {
            depth = depth.saturating_sub(1);
        } else if is_comma(*sym) && depth == 0 {
            return true;
        }
    }
    false
}

// Whether the tokens begin with a word that is a modifier wherever it stands first behind the `:`.
fn begins_modifier(names: &NameTable, syms: &[Sym]) -> bool
    ensures { result ≡ begins_modifier names.now syms.now }
{
    match syms {
        [] => false,
        [first, rest @ ..] => match word_at(names, first.kind) {
            Some(Word::Val | Word::Ref | Word::Uval) => true,
            Some(Word::Step) => is_sign(Mark::OpenParen, kind_at(rest)),
            _ => false,
        },
    }
}

/// Whether modifiers stand behind the `:` of `linear`, and no step.
pub fn has_modifiers(names: &NameTable, syms: &[Sym]) -> bool
    ensures { result ≡ has_modifiers names.now syms.now }
{
    begins_modifier(names, syms) || has_comma(syms)
}

// Where the first `:` stands.
fn colon(syms: &[Sym]) -> Option<usize>
    ensures place { result ≡ position is_colon syms.now }
    ensures within { IfSome result (λ at. at < length syms.now) }
{
    syms.iter().position(|sym| is_colon(*sym))
}

/// What stands before the first `:`, and what behind it, where there is one.
pub fn at_colon(syms: &[Sym]) -> (&[Sym], Option<&[Sym]>)
    ensures before { result.0.now ≡ before_colon syms.now }
    ensures behind { option_map (λ r. r.now) result.1 ≡ behind_colon syms.now }
{
    match colon(syms) {
        Some(at) => (&syms[..at], Some(&syms[at + 1..])),
        None => (syms, None),
    }
}

/// What stands in the parentheses.
pub fn inside(syms: &[Sym]) -> Result<&[Sym], Miss>
    ensures { Gives (λ r. r.now) result (inside syms.now) }
{
    let [first, inner @ .., last] = syms else {
        return Err(Miss::NoForm);
    };
    if !is_open(*first) {
        return Err(Miss::NoForm);
    }
    if is_close(*last) {
        Ok(inner)
    } else {
        Err(Miss::NoForm)
    }
}
