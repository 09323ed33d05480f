// The tree of a unit.

ghost use Rattle.std.specs.Prelude.{◌≡◌, ◌≤◌, ◌-◌, ℕ, List, Err, drop, length, IfOk, MatchResult};
ghost use Rattle.std.specs.List.{All};
ghost use Rattle.vk_ast.specs.Units.{ItemTree, items_of};
ghost use Rattle.vk_tokens.specs.declared.tokens.Token.{Token};
ghost use Rattle.vk_unit_rules.specs.declared.rules.UnitRule.{UnitRule as UnitRuleOf};
ghost use Rattle.vk_unit_rules.specs.declared.rules.UnitFail.TheVariants.{Fault, Memory as MemoryFail};
ghost use Rattle.vk_tokens.specs.Names.{IsNamed};
ghost use Rattle.vk_parse_words.specs.Lines.{outside};
ghost use Rattle.vk_parse.specs.Inner.Answers.{judged, in_words, first_of, told, IsAnswer, IsLeft};
ghost use Rattle.vk_parse_directives.specs.Directives.{unit_clauses};
ghost use Rattle.vk_parse.specs.Parsing.{line_left, Parses, IsWithin, KeepsWords, IsFault};

use crate::lines::Lines;
use crate::table::copy_table;
use std::alloc::Global;
use vk_ast::{Item, Unit};
use vk_grammar_expr::Sym;
use vk_parse_expr::ReadFail;
use vk_parse_stmt::Directives;
use vk_parse_unit::read_unit;
use vk_parse_words::{classify, first_word_fault};
use vk_tokens::Tokens;
use vk_unit_rules::{UnitFail, UnitRule};

// Why there are no items.
enum Miss {
    // The rule and its place, told as the number of tokens from it on.
    At { rule: UnitRule, left: usize },
    // An allocation failed.
    Memory,
}

// Of a place of C5 or C6 and one of C7 the first; C7 where both are one.
fn first_of(rule: UnitRule, left: usize, words: Option<usize>) -> Miss
    ensures { result ≡ first_of rule left words }
{
    let Some(word) = words else {
        return Miss::At { rule, left };
    };
    if word < left {
        Miss::At { rule, left }
    } else {
        Miss::At {
            rule: UnitRule::C7,
            left: word,
        }
    }
}

fn in_words(items: Vec<Item>, words: Option<usize>) -> Result<Vec<Item>, Miss>
    ensures { result ≡ in_words items words }
{
    match words {
        None => Ok(items),
        Some(left) => Err(Miss::At {
            rule: UnitRule::C7,
            left,
        }),
    }
}

fn judged(read: Result<Vec<Item>, ReadFail>, words: Option<usize>) -> Result<Vec<Item>, Miss>
    ensures { result ≡ judged read words }
{
    match read {
        Ok(items) => in_words(items, words),
        Err(ReadFail::Syntax(left)) => Err(first_of(UnitRule::C5, left, words)),
        Err(ReadFail::Deep(left)) => Err(first_of(UnitRule::C6, left, words)),
        Err(ReadFail::Memory) => Err(Miss::Memory),
    }
}

// The items of the tokens outside directive lines.
fn items<D: Directives>(alloc: Global, directives: &D, syms: &[Sym]) -> Result<Vec<Item>, Miss>
    ensures { (names : List (List ℕ)) (ts : List Token) → syms.now ≡ outside names ts → D.clauses directives.now ≡ unit_clauses names ts → IsAnswer names ts result }
{
    judged(read_unit(alloc, directives, syms), first_word_fault(syms))
}

// The line of a place; the end stands on the last line.
fn line_at(syms: &[Sym], last: u32, left: usize) -> u32
    requires { left ≤ length syms.now }
    ensures { result ≡ line_left last (drop (length syms.now - left) syms.now) }
{
    if left == 0 {
        last
    } else {
        syms[syms.len() - left].line
    }
}

fn told(syms: &[Sym], last: u32, miss: Miss) -> UnitFail
    requires { IsLeft (length syms.now) miss }
    ensures { result ≡ told last syms.now miss }
{
    match miss {
        Miss::At { rule, left } => UnitFail::Fault {
            line: line_at(syms, last, left),
            rule,
        },
        Miss::Memory => UnitFail::Memory,
    }
}

/// The tree of a unit (C17 6.9), by its tokens. It has a table of names of its own, which is the tokens' table.
///
/// # Errors
///
/// `Fault` with the first fault by place and its line: C5 at the first token that no unit has there, the end counting as a
/// last token; C6 at a token up to which the tokens begin some unit, each with an expression of more than 64 levels or a
/// statement in more than 64; C7 at a keyword that is left out or words that are no type. C7 is told where it is at the place
/// of another. Where the first is a C6, a later C6, the C5 or the C7 may be told instead. `Memory` if an allocation fails.
pub fn parse(alloc: Global, tokens: &Tokens) -> Result<Unit, UnitFail>
    requires count { length tokens.now.list.items ≤ 1048576 }
    requires few { length tokens.now.names ≤ 1048576 }
    requires named { All (λ t. IsNamed tokens.now.names t.kind) tokens.now.list.items }
    ensures found { IfOk result (λ u. (h : ℕ) × (Parses tokens.now.names tokens.now.list.items (items_of u) h
        × (IsWithin tokens.now.names tokens.now.list.items (items_of u) h × KeepsWords tokens.now.names tokens.now.list.items))) }
    ensures names { IfOk result (λ u. u.names ≡ tokens.now.names) }
    ensures every { (items : List ItemTree) (h : ℕ) → Parses tokens.now.names tokens.now.list.items items h
        → IsWithin tokens.now.names tokens.now.list.items items h → KeepsWords tokens.now.names tokens.now.list.items
        → MatchResult result (λ u. items_of u ≡ items) (λ fail. fail ≡ MemoryFail) }
    ensures fault { (line : ℕ) (rule : UnitRuleOf) → result ≡ Err (Fault line rule) → IsFault tokens.now.names tokens.now.list.items tokens.now.last line rule }
{
    let syms = classify(alloc, tokens)?;
    let lines = Lines {
        names: &tokens.names,
        syms: &syms,
    };
    match items(alloc, &lines, &syms.outside) {
        Ok(items) => Ok(Unit {
            items,
            names: copy_table(alloc, &tokens.names)?,
        }),
        Err(miss) => Err(told(&syms.outside, tokens.last, miss)),
    }
}
