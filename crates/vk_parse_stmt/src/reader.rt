// The reader of statements by recursive descent, each function as that of its name among the readers on lists.
//
// `below` is how many levels of statements may stand below one, and in `statement` and `entry` with that one. A function
// reads from the front of the tokens and answers what is left.

ghost use Rattle.std.specs.Prelude.{◌≡◌, ◌+◌, ◌≤◌, ◌<◌, ℕ, List, length, IfOk};
ghost use Rattle.vk_ast.specs.Statements.{StmtTree, stmt_of};
ghost use Rattle.vk_ast.specs.Tree.{expr_of};
ghost use Rattle.vk_grammar_expr.specs.declared.symbols.Sym.{Sym};
ghost use Rattle.vk_grammar_stmt.specs.Inner.Reading as spec;
ghost use Rattle.vk_grammar_stmt.specs.Trees.{Clauses};
ghost use Rattle.vk_parse_expr.specs.Inner.Answers.{Fails};
ghost use Rattle.vk_parse_stmt.specs.Inner.Answers.{over, inside, entries, ReadsStmt, ReadsStmts};

use crate::acts::{broken, condition, continued, optional, part, returned};
use crate::directives::Directives;
use crate::locals::{locals, one_locals};
use crate::nodes::block_node;
use crate::signs::{expect_word, is_keyword, is_stmt_start};
use std::alloc::Global;
use vk_grammar_expr::{Keyword, Sym, SymKind};
use vk_nodes::{ExprBox, StmtBox, StmtList};
use vk_parse_expr::signs::{is_sign, is_type_part, kind_at, start_of};
use vk_parse_expr::steps::{expect, take};
use vk_parse_expr::{Read, ReadFail};
use vk_tokens::Mark;

// Where no level may stand: too deep where a statement begins.
#[tactic(auto, unfolding(vk_grammar_stmt::specs::Inner::Reading::no_level))]
fn no_level(syms: &[Sym]) -> ReadFail
    ensures one { Fails {A = StmtTree × List Sym} result (spec.no_level syms.now) }
    ensures several { Fails {A = List StmtTree × List Sym} result (spec.no_level syms.now) }
{
    if is_stmt_start(kind_at(syms)) {
        ReadFail::Deep(syms.len())
    } else {
        ReadFail::Syntax(syms.len())
    }
}

/// A statement of at most `below` levels, where one is wanted.
#[cycle(reading)]
#[tactic(auto, unfolding(vk_grammar_stmt::specs::Inner::Reading::statement))]
pub(crate) fn statement<'a, D: Directives>(
    alloc: Global,
    directives: &D,
    below: u32,
    syms: &'a [Sym],
) -> Read<'a, StmtBox>
    requires { below ≤ 65 }
    ensures value { (turns : ℕ) → length syms.now < turns → ReadsStmt result (spec.statement (D.clauses directives.now) 63 turns below syms.now) }
    ensures shorter { IfOk result (λ x. length x.1.now + 1 ≤ length syms.now) }
{
    if below == 0 {
        Err(no_level(syms))
    } else {
        one_statement(alloc, directives, below - 1, syms)
    }
}

// The statements that one in a block makes, of at most `below` levels.
#[cycle(reading)]
#[tactic(auto, unfolding(vk_grammar_stmt::specs::Inner::Reading::entry))]
fn entry<'a, D: Directives>(
    alloc: Global,
    directives: &D,
    below: u32,
    syms: &'a [Sym],
) -> Read<'a, StmtList>
    requires { below ≤ 65 }
    ensures value { (turns : ℕ) → length syms.now < turns → ReadsStmts result (spec.entry (D.clauses directives.now) 63 turns below syms.now) }
    ensures shorter { IfOk result (λ x. length x.1.now + 1 ≤ length syms.now) }
{
    if below == 0 {
        Err(no_level(syms))
    } else {
        one_entry(alloc, directives, below - 1, syms)
    }
}

// The statements before a `}`.
#[cycle(reading)]
fn entries<'a, D: Directives>(
    alloc: Global,
    directives: &D,
    below: u32,
    syms: &'a [Sym],
) -> Read<'a, StmtList>
    requires { below < 65 }
    ensures value { (turns : ℕ) → length syms.now < turns → ReadsStmts result (entries (D.clauses directives.now) below turns syms.now) }
    ensures shorter { IfOk result (λ x. length x.1.now ≤ length syms.now) }
{
    let mut list = StmtList::new(alloc);
    let mut rest = syms;
    'entries: while !is_sign(Mark::CloseBrace, kind_at(rest)) {
        let (more, after) = match entry(alloc, directives, below, rest) {
            Ok(read) => read,
            Err(fail) => return Err(fail),
        };
        list.append(more)?;
        rest = after;
    }
    Ok((list, rest))
}

// At a `{`.
#[cycle(reading)]
#[tactic(auto, unfolding(vk_grammar_stmt::specs::Inner::Reading::block))]
fn block<'a, D: Directives>(
    alloc: Global,
    directives: &D,
    below: u32,
    syms: &'a [Sym],
) -> Read<'a, StmtBox>
    requires { below < 65 }
    ensures value { (turns : ℕ) → length syms.now < turns → ReadsStmt result (over spec.block (D.clauses directives.now) below turns syms.now) }
    ensures shorter { IfOk result (λ x. length x.1.now + 1 ≤ length syms.now) }
{
    let (first, rest) = take(syms)?;
    let (list, rest) = entries(alloc, directives, below, rest)?;
    let (_, rest) = expect(Mark::CloseBrace, rest)?;
    Ok((block_node(alloc, start_of(&first), list)?, rest))
}

// Behind the first branch of an `if`.
#[cycle(reading)]
#[tactic(auto, unfolding(vk_grammar_stmt::specs::Inner::Reading::else_part))]
fn else_part<'a, D: Directives>(
    alloc: Global,
    directives: &D,
    below: u32,
    first: Sym,
    condition: ExprBox,
    yes: StmtBox,
    syms: &'a [Sym],
) -> Read<'a, StmtBox>
    requires { below < 65 }
    ensures value { (turns : ℕ) → length syms.now < turns
        → ReadsStmt result (over spec.else_part (D.clauses directives.now) below turns first (expr_of condition) (stmt_of yes) syms.now) }
    ensures shorter { IfOk result (λ x. length x.1.now ≤ length syms.now) }
{
    if !is_keyword(Keyword::Else, kind_at(syms)) {
        let node = StmtBox::if_only(alloc, start_of(&first), condition, yes)?;
        return Ok((node, syms));
    }
    let (_, rest) = take(syms)?;
    let (other, rest) = statement(alloc, directives, below, rest)?;
    let node = StmtBox::if_else(alloc, start_of(&first), condition, yes, other)?;
    Ok((node, rest))
}

// At an `if`.
#[cycle(reading)]
#[tactic(auto, unfolding(vk_grammar_stmt::specs::Inner::Reading::choice))]
fn choice<'a, D: Directives>(
    alloc: Global,
    directives: &D,
    below: u32,
    syms: &'a [Sym],
) -> Read<'a, StmtBox>
    requires { below < 65 }
    ensures value { (turns : ℕ) → length syms.now < turns → ReadsStmt result (inside (over spec.choice (D.clauses directives.now) below turns) below syms.now) }
    ensures shorter { IfOk result (λ x. length x.1.now + 1 ≤ length syms.now) }
{
    if below == 0 {
        return Err(ReadFail::Deep(syms.len()));
    }
    let (first, rest) = take(syms)?;
    let (condition, rest) = condition(alloc, rest)?;
    let (yes, rest) = statement(alloc, directives, below, rest)?;
    else_part(alloc, directives, below, first, condition, yes, rest)
}

// At the `while` of a loop that begins with it.
#[cycle(reading)]
#[tactic(auto, unfolding(vk_grammar_stmt::specs::Inner::Reading::while_loop))]
fn while_loop<'a, D: Directives>(
    alloc: Global,
    directives: &D,
    below: u32,
    syms: &'a [Sym],
) -> Read<'a, StmtBox>
    requires { below < 65 }
    ensures value { (turns : ℕ) → length syms.now < turns → ReadsStmt result (inside (over spec.while_loop (D.clauses directives.now) below turns) below syms.now) }
    ensures shorter { IfOk result (λ x. length x.1.now + 1 ≤ length syms.now) }
{
    if below == 0 {
        return Err(ReadFail::Deep(syms.len()));
    }
    let (first, rest) = take(syms)?;
    let (condition, rest) = condition(alloc, rest)?;
    let (body, rest) = statement(alloc, directives, below, rest)?;
    let node = StmtBox::while_loop(alloc, start_of(&first), condition, body)?;
    Ok((node, rest))
}

// At a `do`.
#[cycle(reading)]
#[tactic(auto, unfolding(vk_grammar_stmt::specs::Inner::Reading::do_loop))]
fn do_loop<'a, D: Directives>(
    alloc: Global,
    directives: &D,
    below: u32,
    syms: &'a [Sym],
) -> Read<'a, StmtBox>
    requires { below < 65 }
    ensures value { (turns : ℕ) → length syms.now < turns → ReadsStmt result (inside (over spec.do_loop (D.clauses directives.now) below turns) below syms.now) }
    ensures shorter { IfOk result (λ x. length x.1.now + 1 ≤ length syms.now) }
{
    if below == 0 {
        return Err(ReadFail::Deep(syms.len()));
    }
    let (first, rest) = take(syms)?;
    let (body, rest) = statement(alloc, directives, below, rest)?;
    let (_, rest) = expect_word(Keyword::While, rest)?;
    let (condition, rest) = condition(alloc, rest)?;
    let (_, rest) = expect(Mark::Semicolon, rest)?;
    let node = StmtBox::do_loop(alloc, start_of(&first), body, condition)?;
    Ok((node, rest))
}

// The first part in the head of a `for`, which is a level below it.
#[tactic(auto, unfolding(vk_grammar_stmt::specs::Inner::Reading::first_part))]
fn first_part(alloc: Global, below: u32, syms: &[Sym]) -> Read<'_, StmtBox>
    ensures value { (clauses : Clauses) (turns : ℕ) → length syms.now < turns → ReadsStmt result (over spec.first_part clauses below turns syms.now) }
    ensures shorter { IfOk result (λ x. length x.1.now + 1 ≤ length syms.now) }
{
    if is_type_part(kind_at(syms)) {
        one_locals(alloc, below > 1, syms)
    } else {
        part(alloc, Mark::Semicolon, syms)
    }
}

// The rest of a `for` behind the first part of its head.
#[cycle(reading)]
#[tactic(auto, unfolding(vk_grammar_stmt::specs::Inner::Reading::for_rest))]
fn for_rest<'a, D: Directives>(
    alloc: Global,
    directives: &D,
    below: u32,
    for_word: Sym,
    first: StmtBox,
    syms: &'a [Sym],
) -> Read<'a, StmtBox>
    requires { below < 65 }
    ensures value { (turns : ℕ) → length syms.now < turns
        → ReadsStmt result (over spec.for_rest (D.clauses directives.now) below turns for_word (stmt_of first) syms.now) }
    ensures shorter { IfOk result (λ x. length x.1.now ≤ length syms.now) }
{
    let (condition, rest) = optional(alloc, Mark::Semicolon, syms)?;
    let (third, rest) = part(alloc, Mark::CloseParen, rest)?;
    let (body, rest) = statement(alloc, directives, below, rest)?;
    let node = StmtBox::for_loop(alloc, start_of(&for_word), first, condition, third, body)?;
    Ok((node, rest))
}

// At a `for`.
#[cycle(reading)]
#[tactic(auto, unfolding(vk_grammar_stmt::specs::Inner::Reading::for_loop))]
fn for_loop<'a, D: Directives>(
    alloc: Global,
    directives: &D,
    below: u32,
    syms: &'a [Sym],
) -> Read<'a, StmtBox>
    requires { below < 65 }
    ensures value { (turns : ℕ) → length syms.now < turns → ReadsStmt result (inside (over spec.for_loop (D.clauses directives.now) below turns) below syms.now) }
    ensures shorter { IfOk result (λ x. length x.1.now + 1 ≤ length syms.now) }
{
    if below == 0 {
        return Err(ReadFail::Deep(syms.len()));
    }
    let (for_word, rest) = take(syms)?;
    let (_, rest) = expect(Mark::OpenParen, rest)?;
    let (first, rest) = first_part(alloc, below, rest)?;
    for_rest(alloc, directives, below, for_word, first, rest)
}

// At a line of `simd`.
#[cycle(reading)]
#[tactic(auto, unfolding(vk_grammar_stmt::specs::Inner::Reading::simd_line))]
fn simd_line<'a, D: Directives>(
    alloc: Global,
    directives: &D,
    below: u32,
    number: u32,
    syms: &'a [Sym],
) -> Read<'a, StmtBox>
    requires { below < 65 }
    ensures value { (turns : ℕ) → length syms.now < turns → ReadsStmt result (inside (over spec.simd_line (D.clauses directives.now) below turns number) below syms.now) }
    ensures shorter { IfOk result (λ x. length x.1.now + 1 ≤ length syms.now) }
{
    if below == 0 {
        return Err(ReadFail::Deep(syms.len()));
    }
    let (first, rest) = take(syms)?;
    let (body, rest) = statement(alloc, directives, below, rest)?;
    let directive = directives.directive(alloc, first, number)?;
    let node = StmtBox::simd(alloc, start_of(&first), directive, body)?;
    Ok((node, rest))
}

// At a line of `declare simd`.
#[tactic(auto, unfolding(vk_grammar_stmt::specs::Inner::Reading::lost_line))]
fn lost_line<'a, D: Directives>(
    alloc: Global,
    directives: &D,
    number: u32,
    syms: &'a [Sym],
) -> Read<'a, StmtBox>
    ensures value { (below turns : ℕ) → ReadsStmt result (over spec.lost_line (D.clauses directives.now) below turns number syms.now) }
    ensures shorter { IfOk result (λ x. length x.1.now + 1 ≤ length syms.now) }
{
    let (first, rest) = take(syms)?;
    let directive = directives.directive(alloc, first, number)?;
    Ok((StmtBox::lost(alloc, start_of(&first), directive)?, rest))
}

// A statement that is no declaration.
#[cycle(reading)]
#[tactic(auto, unfolding(vk_grammar_stmt::specs::Inner::Reading::plain))]
fn plain<'a, D: Directives>(
    alloc: Global,
    directives: &D,
    below: u32,
    syms: &'a [Sym],
) -> Read<'a, StmtBox>
    requires { below < 65 }
    ensures value { (turns : ℕ) → length syms.now < turns → ReadsStmt result (over spec.plain (D.clauses directives.now) below turns syms.now) }
    ensures shorter { IfOk result (λ x. length x.1.now + 1 ≤ length syms.now) }
{
    match kind_at(syms) {
        Some(SymKind::Sign(Mark::OpenBrace)) => block(alloc, directives, below, syms),
        Some(SymKind::Keyword(Keyword::If)) => choice(alloc, directives, below, syms),
        Some(SymKind::Keyword(Keyword::While)) => while_loop(alloc, directives, below, syms),
        Some(SymKind::Keyword(Keyword::Do)) => do_loop(alloc, directives, below, syms),
        Some(SymKind::Keyword(Keyword::For)) => for_loop(alloc, directives, below, syms),
        Some(SymKind::Keyword(Keyword::Break)) => broken(alloc, syms),
        Some(SymKind::Keyword(Keyword::Continue)) => continued(alloc, syms),
        Some(SymKind::Keyword(Keyword::Return)) => returned(alloc, syms),
        Some(SymKind::Simd(number)) => simd_line(alloc, directives, below, number, syms),
        Some(SymKind::Simdfn(number)) => lost_line(alloc, directives, number, syms),
        _ => part(alloc, Mark::Semicolon, syms),
    }
}

// A statement where one is wanted, with at most `below` levels below it.
#[cycle(reading)]
#[tactic(auto, unfolding(vk_grammar_stmt::specs::Inner::Reading::one_statement))]
fn one_statement<'a, D: Directives>(
    alloc: Global,
    directives: &D,
    below: u32,
    syms: &'a [Sym],
) -> Read<'a, StmtBox>
    requires { below < 65 }
    ensures value { (turns : ℕ) → length syms.now < turns → ReadsStmt result (over spec.one_statement (D.clauses directives.now) below turns syms.now) }
    ensures shorter { IfOk result (λ x. length x.1.now + 1 ≤ length syms.now) }
{
    if is_type_part(kind_at(syms)) {
        one_locals(alloc, below > 0, syms)
    } else {
        plain(alloc, directives, below, syms)
    }
}

// The statements that one in a block makes, each with at most `below` levels below it.
#[cycle(reading)]
#[tactic(auto, unfolding(vk_grammar_stmt::specs::Inner::Reading::one_entry))]
fn one_entry<'a, D: Directives>(
    alloc: Global,
    directives: &D,
    below: u32,
    syms: &'a [Sym],
) -> Read<'a, StmtList>
    requires { below < 65 }
    ensures value { (turns : ℕ) → length syms.now < turns → ReadsStmts result (over spec.one_entry (D.clauses directives.now) below turns syms.now) }
    ensures shorter { IfOk result (λ x. length x.1.now + 1 ≤ length syms.now) }
{
    if is_type_part(kind_at(syms)) {
        return locals(alloc, true, syms);
    }
    let (only, rest) = plain(alloc, directives, below, syms)?;
    let mut list = StmtList::new(alloc);
    list.push(only)?;
    Ok((list, rest))
}
