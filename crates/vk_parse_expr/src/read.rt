// The readers that others call.

ghost use Rattle.std.specs.Prelude.{◌≡◌, ◌+◌, ◌≤◌, ◌<◌, [], ℕ, length, MatchResult, IfOk};
ghost use Rattle.vk_ast.specs.Tree.{Tree, expr_of};
ghost use Rattle.vk_grammar_expr.specs.Grammar.{Spells, IsExpression, IsExpressionWithin, tall, full, level};
ghost use Rattle.vk_grammar_expr.specs.Inner.Reading as spec;
ghost use Rattle.vk_grammar_expr.specs.Texts.{IsPlace, IsDeepPlace};
ghost use Rattle.vk_parse_expr.specs.Inner.Answers.{seen, Gives, Reads};

use crate::fail::{Read, ReadFail};
use crate::nodes::High;
use crate::reader::{expression, onwards, operand};
use std::alloc::Global;
use vk_grammar_expr::Sym;
use vk_nodes::Start;

// The most levels of an expression.
const MOST_LEVELS: u32 = 64;

/// A `cond` of at most 64 levels at the front of the tokens, and the tokens behind it: as far as an expression goes (C17 6.5).
pub fn read_full(alloc: Global, syms: &[Sym]) -> Read<'_, High>
    ensures value { (turns : ℕ) → length syms.now < turns → Reads result (spec.expression turns 64 full syms.now) }
    ensures shorter { IfOk result (λ x. length x.1.now + 1 ≤ length syms.now) }
    ensures low { IfOk result (λ x. 1 ≤ x.0.height) }
    ensures high { IfOk result (λ x. x.0.height ≤ 64) }
{
    expression(alloc, MOST_LEVELS, syms)
}

/// A `unary` of at most 64 levels at the front of the tokens (C17 6.5.3, 6.5.4), and the tokens behind it.
pub fn read_unary(alloc: Global, syms: &[Sym]) -> Read<'_, High>
    ensures value { (turns : ℕ) → length syms.now < turns → Reads result (spec.expression turns 64 (level 0) syms.now) }
    ensures shorter { IfOk result (λ x. length x.1.now + 1 ≤ length syms.now) }
    ensures low { IfOk result (λ x. 1 ≤ x.0.height) }
    ensures high { IfOk result (λ x. x.0.height ≤ 64) }
{
    operand(alloc, MOST_LEVELS, 0, syms)
}

/// What goes on behind a `unary` that begins at `first`, to a whole `cond` of at most 64 levels, and the tokens behind it.
pub fn read_onwards(alloc: Global, first: Start, left: High, syms: &[Sym]) -> Read<'_, High>
    requires low { 1 ≤ left.height }
    requires high { left.height ≤ 64 }
    ensures value { (turns : ℕ) → length syms.now < turns
        → Reads result (spec.onwards 63 turns (spec.expression turns 63) first.line first.token (seen left) syms.now) }
    ensures shorter { IfOk result (λ x. length x.1.now ≤ length syms.now) }
    ensures low { IfOk result (λ x. 1 ≤ x.0.height) }
    ensures high { IfOk result (λ x. x.0.height ≤ 64) }
{
    onwards(alloc, MOST_LEVELS - 1, first, left, syms)
}

fn whole(alloc: Global, syms: &[Sym]) -> Result<High, ReadFail>
    ensures { (turns : ℕ) → length syms.now < turns → Gives (λ x. (seen x, [])) result (spec.whole_expression turns 64 syms.now) }
{
    let (read, rest) = read_full(alloc, syms)?;
    if rest.is_empty() {
        Ok(read)
    } else {
        Err(ReadFail::Syntax(rest.len()))
    }
}

/// Reads the tokens as one expression (C17 6.5), all of them, with at most 64 levels; a pair of parentheses is one level.
///
/// # Errors
///
/// `Syntax` with the place of C5, the first token that no expression has there, the end counting as a last token. `Deep`
/// with a place of C6, a token up to which the tokens begin some expression, each with more than 64 levels. A place is
/// told as the number of tokens from it on. `Memory` if an allocation fails.
pub fn read_expr(alloc: Global, syms: &[Sym]) -> Result<High, ReadFail>
    ensures found { IfOk result (λ x. Spells full (expr_of x.expr) x.height syms.now) }
    ensures within { IfOk result (λ x. x.height ≤ 64) }
    ensures only { (e : Tree) (h : ℕ) → Spells full e h syms.now → h ≤ 64
        → MatchResult result (λ x. seen x ≡ tall e h) (λ fail. fail ≡ ReadFail.Memory) }
    ensures syntax { (n : ℕ) → result ≡ Err (ReadFail.Syntax n) → IsPlace IsExpression syms.now n }
    ensures deep { (n : ℕ) → result ≡ Err (ReadFail.Deep n) → IsDeepPlace IsExpression (IsExpressionWithin 64) syms.now n }
{
    whole(alloc, syms)
}
