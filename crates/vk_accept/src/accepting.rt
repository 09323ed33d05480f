// From the bytes of a unit to an accepted unit.

ghost use Rattle.std.specs.Prelude.{◌≡◌, ◌≤◌, ℕ, length, IfOk, IsErrOf};
ghost use Rattle.vk_unit_rules.specs.declared.rules.UnitRule.{UnitRule as RuleOf};
ghost use Rattle.vk_rules.specs.UnitNames.{HaveIdentifiers};
ghost use Rattle.vk_rules.specs.Verdicts.{judged};
ghost use Rattle.vk_accept.specs.Accepted.{HasSimdLine, IsAccepted, IsUnitRefused};
ghost use Rattle.vk_accept.specs.Inner.Told.{told_unaccepted, told_unread};
ghost use Rattle.vk_accept.specs.Units.{has_simd_line, is_simd};

use std::alloc::Global;
use vk_kinds::Target;
use vk_lex::laws::names_are_identifiers;
use vk_lex::lex;
use vk_parse::parse;
use vk_rules::{CheckFail, Checked, check};
use vk_tokens::{Token, TokenKind};
use vk_unit_rules::{UnitFail, UnitRule};

/// Why there is no accepted unit.
#[derive(Clone, Copy, PartialEq, Eq, Debug)]
pub enum NoUnit {
    /// The first rule that is broken, its line, from 1, and the number of the directive that is concerned, from 1; 0 where none is.
    Rule {
        line: u32,
        directive: u32,
        rule: UnitRule,
    },
    /// The unit has a SIMD line, which is not built yet.
    NotYet,
    /// There was no memory left.
    Memory,
}

// A line `#pragma omp simd`.
fn is_simd(kind: TokenKind) -> bool
    ensures { result ≡ is_simd kind }
{
    match kind {
        TokenKind::Simd => true,
        TokenKind::Name(_) => false,
        TokenKind::Int(_, _) => false,
        TokenKind::Sign(_) => false,
        TokenKind::Simdfn => false,
        TokenKind::LineEnd => false,
    }
}

// Whether there is such a line.
fn has_simd_line(tokens: &[Token]) -> bool
    ensures { result ≡ has_simd_line tokens.now }
{
    tokens.iter().any(|t| is_simd(t.kind))
}

// A unit that was not read.
fn unread(fail: UnitFail) -> NoUnit
    ensures { result ≡ told_unread fail }
{
    match fail {
        UnitFail::Fault { line, rule } => NoUnit::Rule {
            line,
            directive: 0,
            rule,
        },
        UnitFail::Memory => NoUnit::Memory,
    }
}

// A unit that was not accepted.
fn unaccepted(fail: CheckFail) -> NoUnit
    ensures { result ≡ told_unaccepted fail }
{
    match fail {
        CheckFail::Rule {
            line,
            directive,
            rule,
        } => NoUnit::Rule {
            line,
            directive,
            rule,
        },
        CheckFail::Memory => NoUnit::Memory,
    }
}

/// The unit of these bytes, at most 1048576, where it keeps the rules C1 to C18 and D1 to D19, else the first rule that it breaks: of
/// C1 to C4, else of C5 to C7, else of the others. A unit with a SIMD line is refused before C8.
pub fn accepted_of(alloc: Global, bytes: &[u8], target: Target) -> Result<Checked, NoUnit>
    requires { length bytes.now ≤ 1048576 }
    ensures accepted { IfOk result (λ unit. IsAccepted bytes.now (judged unit)) }
    ensures target { IfOk result (λ unit. (judged unit).target ≡ target) }
    ensures identifiers { IfOk result (λ unit. HaveIdentifiers (judged unit)) }
    ensures refused { (line directive : ℕ) (rule : RuleOf) → IsErrOf result (NoUnit.Rule line directive rule) →
        IsUnitRefused bytes.now target line directive rule }
    ensures not_yet { IsErrOf result NoUnit.NotYet → HasSimdLine bytes.now }
{
    names_are_identifiers();
    let tokens = match lex(alloc, bytes) {
        Ok(tokens) => tokens,
        Err(fail) => return Err(unread(fail)),
    };
    let unit = match parse(alloc, &tokens) {
        Ok(unit) => unit,
        Err(fail) => return Err(unread(fail)),
    };
    if has_simd_line(&tokens.list) {
        return Err(NoUnit::NotYet);
    }
    match check(alloc, unit, target) {
        Ok(checked) => Ok(checked),
        Err(fail) => Err(unaccepted(fail)),
    }
}
