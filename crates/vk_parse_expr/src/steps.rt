// One token.

ghost use Rattle.std.specs.Prelude.{◌≡◌, ◌+◌, length, IfOk};
ghost use Rattle.vk_grammar_expr.specs.Inner.Parser as spec;
ghost use Rattle.vk_parse_expr.specs.Inner.Answers.{Gives};

use crate::fail::{Read, ReadFail};
use crate::signs::{is_sign, kind_at};
use vk_grammar_expr::Sym;
use vk_tokens::Mark;

/// The first token, whatever it is, and those behind it.
pub fn take(syms: &[Sym]) -> Read<'_, Sym>
    ensures value { Gives (λ x. (x.0, x.1.now)) result (spec.take syms.now) }
    ensures shorter { IfOk result (λ x. length x.1.now + 1 ≡ length syms.now) }
    ensures memory { result ≡ Err ReadFail.Memory → ⊥ }
{
    match syms {
        [] => Err(ReadFail::Syntax(0)),
        [first, rest @ ..] => Ok((*first, rest)),
    }
}

/// This sign, and the tokens behind it.
pub fn expect(mark: Mark, syms: &[Sym]) -> Read<'_, Sym>
    ensures value { Gives (λ x. (x.0, x.1.now)) result (spec.expect mark syms.now) }
    ensures shorter { IfOk result (λ x. length x.1.now + 1 ≡ length syms.now) }
    ensures memory { result ≡ Err ReadFail.Memory → ⊥ }
{
    if is_sign(mark, kind_at(syms)) {
        take(syms)
    } else {
        Err(ReadFail::Syntax(syms.len()))
    }
}
