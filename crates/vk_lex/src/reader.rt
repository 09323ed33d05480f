// The tokens of a unit.

ghost use Rattle.std.specs.Prelude.{◌≡◌, ◌<◌, ◌≤◌, ℕ, List, length, IfOk, IfErr, OnOk, OnErr, MatchResult};
ghost use Rattle.vk_lex.specs.Characters.{characters as characters_in, last_line, line_of, lines_of};
ghost use Rattle.vk_tokens.specs.Names.{IsNamed};
ghost use Rattle.vk_lex.specs.Tokens.{Tok, found_kind, kind_of, Grows, Tells};
ghost use Rattle.std.specs.Option.{option_map};
ghost use Rattle.vk_unit_rules.specs.declared.rules.UnitFail.TheVariants.{Memory as MemoryFail};
ghost use Rattle.vk_lex.specs.Lexing.{Lexes, Refuses};
ghost use Rattle.vk_lex.specs.Tables.{AreTokens};
ghost use Rattle.vk_lex.specs.Answers.{IsTokensOrMemory, IsFaultOrMemory, IsRefusedOrMemory};
ghost use Rattle.vk_unit_rules.specs.declared.rules.UnitRule.{UnitRule as UnitRuleOf};

use crate::characters::{Characters, characters_of};
use crate::pieces::{Found, Mode, ended, first_piece};
use std::alloc::Global;
use vk_ast::NameTable;
use vk_memory::Memory;
use vk_tokens::{Token, TokenKind, Tokens};
use vk_unit_rules::UnitFail;

// The line of a place, told by how many characters are left from it on.
fn line_at(characters: &Characters, left: usize) -> u32
    requires { left ≤ length characters.now.lines.items }
    ensures { (bytes : List ℕ) → characters.now.lines.items ≡ lines_of (characters_in bytes) → characters.now.last ≡ last_line bytes
        → result ≡ line_of bytes left }
{
    if left == 0 {
        characters.last
    } else {
        characters.lines[characters.lines.len() - left]
    }
}

// The kind of the token that was found, with its name in the table.
fn token_kind(names: &mut NameTable, found: Found<'_>) -> Result<TokenKind, Memory>
    requires { length names.old < 4294967295 }
    ensures kind { IfOk result (λ k. kind_of names.new k ≡ found_kind found.entry) }
    ensures named { IfOk result (λ k. IsNamed names.new k) }
    ensures grows { OnOk result (Grows names.old names.new (found_kind found.entry)) }
    ensures same { OnErr result (names.new ≡ names.old) }
{
    match found {
        Found::Word(text) => Ok(TokenKind::Name(names.add(text)?)),
        Found::Int(t, n) => Ok(TokenKind::Int(t, n)),
        Found::Sign(mark) => Ok(TokenKind::Sign(mark)),
        Found::Simdfn => Ok(TokenKind::Simdfn),
        Found::Simd => Ok(TokenKind::Simd),
        Found::LineEnd => Ok(TokenKind::LineEnd),
    }
}

// One token more, where the piece gives one.
fn push_found(
    list: &mut Vec<Token>,
    names: &mut NameTable,
    line: u32,
    found: Option<Found<'_>>,
) -> Result<(), UnitFail>
    requires { length names.old < 4294967295 }
    ensures tells { OnOk result (Tells (option_map found_kind found.entry) line list.old.items list.new.items names.old names.new) }
    ensures memory { IfErr result (λ fail. fail ≡ MemoryFail) }
{
    match found {
        Some(found) => {
            let kind = token_kind(names, found)?;
            list.push(Token { line, kind })?;
            Ok(())
        }
        None => Ok(()),
    }
}

/// The tokens of a unit of at most 1048576 bytes, and the table of its names.
///
/// Lines are joined first (C17 5.1.1.2), comments are blanks (C17 6.4.9), and lines that begin with `#` are
/// `#include <stdint.h>`, `#pragma omp simd`, `#pragma omp declare simd`, or other `#pragma` lines, which add nothing. A
/// fault is the first by place, with the line on which it stands: C1 for a byte, a comment or a number that is no token,
/// C2 for a floating literal or type, C3 for a literal that no type holds, C4 for another line that begins with `#`.
pub fn lex(alloc: Global, bytes: &[u8]) -> Result<Tokens, UnitFail>
    requires { length bytes.now ≤ 1048576 }
    // The tokens and the table of their names are those of the bytes, and no others are.
    ensures tokens { IfOk result (λ ts. AreTokens bytes.now ts.names ts.list.items) }
    ensures every { (all : List Tok) → Lexes bytes.now all → IsTokensOrMemory result all }
    // The fault is the first of the bytes.
    ensures fault { IfErr result (λ fail. IsFaultOrMemory fail (Refuses bytes.now)) }
    ensures every_fault { (line : ℕ) (rule : UnitRuleOf) → Refuses bytes.now line rule → IsRefusedOrMemory result line rule }
    ensures last { IfOk result (λ ts. ts.last ≡ last_line bytes.now) }
    ensures count { IfOk result (λ ts. length ts.list.items ≤ length bytes.now) }
    ensures few { IfOk result (λ ts. length ts.names ≤ length ts.list.items) }
{
    let characters = characters_of(alloc, bytes)?;
    let mut list = Vec::new(alloc);
    let mut names = NameTable::new(alloc);
    let mut mode = Mode::Start;
    let mut rest = characters.codes.as_slice();
    while !rest.is_empty() {
        let line = line_at(&characters, rest.len());
        let piece = match first_piece(mode, rest) {
            Ok(piece) => piece,
            Err(rule) => return Err(UnitFail::Fault { line, rule }),
        };
        push_found(&mut list, &mut names, line, piece.found)?;
        mode = piece.mode;
        rest = piece.rest;
    }
    push_found(&mut list, &mut names, characters.last, ended(mode))?;
    let _count = names.len();
    Ok(Tokens {
        list,
        names,
        last: characters.last,
    })
}
