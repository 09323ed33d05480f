// The reader that others call.

ghost use Rattle.std.specs.Prelude.{◌≡◌, ◌+◌, ◌≤◌, ◌<◌, ℕ, length, IfOk};
ghost use Rattle.vk_grammar_stmt.specs.Inner.Reading.{body};
ghost use Rattle.vk_parse_stmt.specs.Inner.Answers.{ReadsStmt};

use crate::directives::Directives;
use crate::reader::statement;
use std::alloc::Global;
use vk_grammar_expr::Sym;
use vk_nodes::StmtBox;
use vk_parse_expr::signs::{is_sign, kind_at};
use vk_parse_expr::{Read, ReadFail};
use vk_tokens::Mark;

// A function's block, and 64 statements one in the other within it.
const MOST_LEVELS: u32 = 65;

/// The block of a function (C17 6.8.2) at the front of the tokens, and the tokens behind it. A statement in it stands within
/// at most 64 statements, the block being one of them, and each expression has at most 64 levels.
///
/// # Errors
///
/// `Syntax` and `Deep` as the reader on lists tells them, with the number of tokens from the place on. `Memory` if an
/// allocation fails.
pub fn read_body<'a, D: Directives>(
    alloc: Global,
    directives: &D,
    syms: &'a [Sym],
) -> Read<'a, StmtBox>
    ensures value { (turns : ℕ) → length syms.now < turns → ReadsStmt result (body (D.clauses directives.now) 63 turns 65 syms.now) }
    ensures shorter { IfOk result (λ x. length x.1.now + 1 ≤ length syms.now) }
{
    if is_sign(Mark::OpenBrace, kind_at(syms)) {
        statement(alloc, directives, MOST_LEVELS, syms)
    } else {
        Err(ReadFail::Syntax(syms.len()))
    }
}
