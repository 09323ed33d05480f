// What a first token is to a statement: which keyword, which sign of an assignment, and what may begin with it.

ghost use Rattle.std.specs.Prelude.{◌≡◌, ◌+◌, length, IfOk};
ghost use Rattle.std.specs.List.{list_any};
ghost use Rattle.vk_grammar_stmt.specs.Words as spec;
ghost use Rattle.vk_grammar_stmt.specs.Inner.Reading.{expect_word};
ghost use Rattle.vk_parse_expr.specs.Inner.Answers.{Gives};
ghost use Rattle.vk_parse_stmt.specs.Inner.Answers.{is_const};

use vk_ast::{BinOp, NameId};
use vk_grammar_expr::{Keyword, Sym, SymKind};
use vk_parse_expr::signs::{is_start, is_type_part, kind_at};
use vk_parse_expr::steps::take;
use vk_parse_expr::{Read, ReadFail};
use vk_tokens::Mark;

/// Whether this keyword stands here.
#[tactic(auto, unfolding(vk_grammar_stmt::specs::Words::is_keyword, vk_grammar_stmt::specs::Words::same_keyword))]
pub fn is_keyword(keyword: Keyword, kind: Option<SymKind>) -> bool
    ensures { result ≡ spec.is_keyword keyword kind }
{
    match kind {
        Some(SymKind::Keyword(found)) => found == keyword,
        _ => false,
    }
}

/// This keyword, and the tokens behind it.
pub fn expect_word(keyword: Keyword, syms: &[Sym]) -> Read<'_, Sym>
    ensures value { Gives (λ x. (x.0, x.1.now)) result (expect_word keyword syms.now) }
    ensures shorter { IfOk result (λ x. length x.1.now + 1 ≡ length syms.now) }
{
    if is_keyword(keyword, kind_at(syms)) {
        take(syms)
    } else {
        Err(ReadFail::Syntax(syms.len()))
    }
}

/// The name that stands here.
#[tactic(auto, unfolding(vk_grammar_stmt::specs::Words::name_at))]
pub fn name_at(kind: Option<SymKind>) -> Option<NameId>
    ensures { result ≡ spec.name_at kind }
{
    match kind {
        Some(SymKind::Name(id)) => Some(id),
        _ => None,
    }
}

fn is_const(kind: SymKind) -> bool
    ensures { result ≡ is_const kind }
{
    is_keyword(Keyword::Const, Some(kind))
}

fn any_const(syms: &[Sym]) -> bool
    ensures { result ≡ list_any (λ t. is_const t.kind) syms.now }
{
    syms.iter().any(|sym| is_const(sym.kind))
}

/// Whether `const` is among the tokens.
#[tactic(auto, using(crate::proofs::Words::any_const))]
pub fn has_const(syms: &[Sym]) -> bool
    ensures { result ≡ spec.has_const syms.now }
{
    any_const(syms)
}

/// The signs of assignments, each with the operator that it applies to the place first (C17 6.5.16).
#[tactic(auto, unfolding(vk_grammar_stmt::specs::Words::assign_of))]
pub fn assign_of(mark: Mark) -> Option<Option<BinOp>>
    ensures { result ≡ spec.assign_of mark }
{
    let op = match mark {
        Mark::Assign => return Some(None),
        Mark::AddAssign => BinOp::Add,
        Mark::SubAssign => BinOp::Sub,
        Mark::MulAssign => BinOp::Mul,
        Mark::DivAssign => BinOp::Div,
        Mark::RemAssign => BinOp::Rem,
        Mark::AndAssign => BinOp::And,
        Mark::OrAssign => BinOp::Or,
        Mark::XorAssign => BinOp::Xor,
        Mark::ShlAssign => BinOp::Shl,
        Mark::ShrAssign => BinOp::Shr,
        _ => return None,
    };
    Some(Some(op))
}

/// The sign of an assignment that stands here.
#[tactic(auto, unfolding(vk_grammar_stmt::specs::Words::assign_at))]
pub fn assign_at(kind: Option<SymKind>) -> Option<Option<BinOp>>
    ensures { result ≡ spec.assign_at kind }
{
    match kind {
        Some(SymKind::Sign(mark)) => assign_of(mark),
        _ => None,
    }
}

/// `++` or `--` (C17 6.5.2.4, 6.5.3.1), by the operator that it applies.
#[tactic(auto, unfolding(vk_grammar_stmt::specs::Words::step_of))]
pub fn step_of(mark: Mark) -> Option<BinOp>
    ensures { result ≡ spec.step_of mark }
{
    match mark {
        Mark::Increment => Some(BinOp::Add),
        Mark::Decrement => Some(BinOp::Sub),
        _ => None,
    }
}

/// The `++` or `--` that stands here.
#[tactic(auto, unfolding(vk_grammar_stmt::specs::Words::step_at))]
pub fn step_at(kind: Option<SymKind>) -> Option<BinOp>
    ensures { result ≡ spec.step_at kind }
{
    match kind {
        Some(SymKind::Sign(mark)) => step_of(mark),
        _ => None,
    }
}

/// Whether a statement may begin here.
#[tactic(auto, unfolding(vk_grammar_stmt::specs::Words::is_stmt_start, vk_grammar_stmt::specs::Words::begins_here, vk_grammar_expr::specs::Symbols::is_type_part, vk_grammar_expr::specs::Symbols::is_start))]
pub fn is_stmt_start(kind: Option<SymKind>) -> bool
    ensures { result ≡ spec.is_stmt_start kind }
{
    match kind {
        Some(
            SymKind::Sign(Mark::OpenBrace | Mark::Semicolon | Mark::Increment | Mark::Decrement),
        ) => true,
        Some(
            SymKind::Keyword(
                Keyword::If
                | Keyword::While
                | Keyword::Do
                | Keyword::For
                | Keyword::Break
                | Keyword::Continue
                | Keyword::Return,
            ),
        ) => true,
        Some(SymKind::Simd(_) | SymKind::Simdfn(_)) => true,
        _ => is_type_part(kind) || is_start(kind),
    }
}
