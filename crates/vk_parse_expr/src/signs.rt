// What a first token is: which sign, which operator, and what may begin with it.

ghost use Rattle.std.specs.Prelude.{◌≡◌, ◌≤◌, ◌<◌, IfSome};
ghost use Rattle.vk_grammar_expr.specs.Symbols as spec;

use vk_ast::{BinOp, UnOp};
use vk_grammar_expr::{Keyword, Operator, Prefix, Sym, SymKind};
use vk_nodes::Start;
use vk_tokens::Mark;

/// The kind of the first token.
pub fn kind_at(syms: &[Sym]) -> Option<SymKind>
    ensures { result ≡ spec.head syms.now }
{
    match syms {
        [] => None,
        [first, ..] => Some(first.kind),
    }
}

/// Where the first token stands, or 0 and 0 at the end.
pub fn start_at(syms: &[Sym]) -> Start
    ensures line { result.line ≡ spec.line_at syms.now }
    ensures token { result.token ≡ spec.number_at syms.now }
{
    match syms {
        [] => Start { line: 0, token: 0 },
        [first, ..] => start_of(first),
    }
}

/// Where this token stands.
pub fn start_of(sym: &Sym) -> Start
    ensures { result ≡ record { line = sym.now.line; token = sym.now.at } }
{
    Start {
        line: sym.line,
        token: sym.at,
    }
}

/// Whether this sign stands here.
#[tactic(auto, unfolding(vk_grammar_expr::specs::Symbols::is_sign, vk_grammar_expr::specs::Symbols::same_mark))]
pub fn is_sign(mark: Mark, kind: Option<SymKind>) -> bool
    ensures { result ≡ spec.is_sign mark kind }
{
    match kind {
        Some(SymKind::Sign(found)) => found == mark,
        _ => false,
    }
}

/// The binary operators (C17 6.5.5 to 6.5.14).
#[tactic(auto, unfolding(vk_grammar_expr::specs::Symbols::operator_of))]
pub fn operator_of(mark: Mark) -> Option<Operator>
    ensures { result ≡ spec.operator_of mark }
{
    let (level, op) = match mark {
        Mark::Star => (1, BinOp::Mul),
        Mark::Slash => (1, BinOp::Div),
        Mark::Percent => (1, BinOp::Rem),
        Mark::Plus => (2, BinOp::Add),
        Mark::Minus => (2, BinOp::Sub),
        Mark::ShiftLeft => (3, BinOp::Shl),
        Mark::ShiftRight => (3, BinOp::Shr),
        Mark::Less => (4, BinOp::Lt),
        Mark::Greater => (4, BinOp::Gt),
        Mark::LessEqual => (4, BinOp::Le),
        Mark::GreaterEqual => (4, BinOp::Ge),
        Mark::EqualEqual => (5, BinOp::Eq),
        Mark::NotEqual => (5, BinOp::Ne),
        Mark::Ampersand => (6, BinOp::And),
        Mark::Caret => (7, BinOp::Xor),
        Mark::Bar => (8, BinOp::Or),
        Mark::AndAnd => (9, BinOp::LogAnd),
        Mark::OrOr => (10, BinOp::LogOr),
        _ => return None,
    };
    Some(Operator { level, op })
}

/// The operator of this level whose sign stands here.
#[tactic(auto, unfolding(vk_grammar_expr::specs::Symbols::operator_at))]
pub fn operator_at(level: u32, kind: Option<SymKind>) -> Option<BinOp>
    ensures { result ≡ spec.operator_at level kind }
{
    match kind {
        Some(SymKind::Sign(mark)) => match operator_of(mark) {
            Some(operator) if operator.level == level => Some(operator.op),
            _ => None,
        },
        _ => None,
    }
}

/// The signs before an operand (C17 6.5.3).
#[tactic(auto, unfolding(vk_grammar_expr::specs::Symbols::prefix_of))]
pub fn prefix_of(mark: Mark) -> Option<Prefix>
    ensures { result ≡ spec.prefix_of mark }
{
    match mark {
        Mark::Star => Some(Prefix::Deref),
        Mark::Ampersand => Some(Prefix::Addr),
        Mark::Plus => Some(Prefix::Unary(UnOp::Plus)),
        Mark::Minus => Some(Prefix::Unary(UnOp::Neg)),
        Mark::Tilde => Some(Prefix::Unary(UnOp::Not)),
        Mark::Bang => Some(Prefix::Unary(UnOp::LogNot)),
        _ => None,
    }
}

/// The sign before an operand that stands here.
#[tactic(auto, unfolding(vk_grammar_expr::specs::Symbols::prefix_at))]
pub fn prefix_at(kind: Option<SymKind>) -> Option<Prefix>
    ensures { result ≡ spec.prefix_at kind }
{
    match kind {
        Some(SymKind::Sign(mark)) => prefix_of(mark),
        _ => None,
    }
}

/// Whether a word of an integer type, or `const`, stands here.
#[tactic(auto, unfolding(vk_grammar_expr::specs::Symbols::is_type_part))]
pub fn is_type_part(kind: Option<SymKind>) -> bool
    ensures { result ≡ spec.is_type_part kind }
{
    matches!(
        kind,
        Some(SymKind::TypeWord(_) | SymKind::Keyword(Keyword::Const))
    )
}

/// Whether an expression may begin here: with a literal, a name, a `(` or a sign before an operand.
#[tactic(auto, unfolding(vk_grammar_expr::specs::Symbols::is_start))]
pub fn is_start(kind: Option<SymKind>) -> bool
    ensures { result ≡ spec.is_start kind }
{
    match kind {
        Some(SymKind::Int(_, _) | SymKind::Name(_)) => true,
        Some(SymKind::Sign(mark)) => matches!(
            mark,
            Mark::OpenParen
                | Mark::Star
                | Mark::Ampersand
                | Mark::Plus
                | Mark::Minus
                | Mark::Tilde
                | Mark::Bang
        ),
        _ => false,
    }
}
