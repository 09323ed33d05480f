// The clauses of a line, and directives.

ghost use Rattle.std.specs.Prelude.{◌≡◌, ◌≤◌, List, map, length, IfOk};
ghost use Rattle.vk_ast.specs.Directives.{ClauseTree, clause_of, directive_of};
ghost use Rattle.vk_parse_directives.specs.Clauses.{AreClauses};
ghost use Rattle.vk_parse_directives.specs.Directives.{line_clauses};
ghost use Rattle.vk_parse_directives.specs.Inner.Reading as spec;

use crate::clauses::read_clause;
use crate::cuts::{piece_len, skips_comma};
use std::alloc::Global;
use vk_ast::{Clause, Directive, NameTable};
use vk_grammar_expr::Sym;
use vk_memory::Memory;
use vk_parse_words::Syms;

// The clauses of a line, as the reader on lists tells them.
fn clauses_of(alloc: Global, names: &NameTable, line: &[Sym]) -> Result<Vec<Clause>, Memory>
    ensures { IfOk result (λ v. map clause_of v.items ≡ spec.clauses_of names.now line.now) }
{
    let mut list = Vec::new(alloc);
    let mut rest = line;
    while let [_, behind @ ..] = rest {
        if skips_comma(rest) {
            rest = behind;
            continue;
        }
        let (text, next) = rest.split_at(piece_len(rest));
        list.push(read_clause(alloc, names, text)?)?;
        rest = next;
    }
    Ok(list)
}

/// The clauses of a directive line, by the tokens behind the words with which it begins (OpenMP 5.2, declare simd and
/// simd). What is of no form is a clause `Other`: a word with what stands in parentheses directly behind it, or a token.
pub fn read_clauses(alloc: Global, names: &NameTable, line: &[Sym]) -> Result<Vec<Clause>, Memory>
    // The clauses are those of the tokens, and no others are.
    ensures found { IfOk result (λ v. AreClauses names.now (map clause_of v.items) line.now) }
    ensures only { (cs : List ClauseTree) → AreClauses names.now cs line.now → IfOk result (λ v. map clause_of v.items ≡ cs) }
    ensures value { IfOk result (λ v. map clause_of v.items ≡ spec.clauses_of names.now line.now) }
{
    clauses_of(alloc, names, line)
}

/// The directive of the line `number`, whose first token is `sym`.
pub fn read_directive(
    alloc: Global,
    names: &NameTable,
    syms: &Syms,
    sym: Sym,
    number: u32,
) -> Result<Directive, Memory>
    requires some { 1 ≤ number }
    requires within { number ≤ length syms.now.lines.items }
    ensures { IfOk result (λ d. directive_of d ≡ record { line = sym.line; token = sym.at; number = number; clauses = line_clauses names.now syms.now number }) }
{
    let clauses = read_clauses(alloc, names, syms.clauses(number))?;
    Ok(Directive {
        line: sym.line,
        token: sym.at,
        number,
        clauses,
    })
}
