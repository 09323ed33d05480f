// Where words are no type, or a keyword is left out.

ghost use Rattle.std.specs.Prelude.{◌≡◌, ◌≤◌, ℕ, List, length, Some, None, false, IfSome};
ghost use Rattle.std.specs.List.{prefix_len};
ghost use Rattle.vk_grammar_expr.specs.Symbols.{is_type_part};
ghost use Rattle.vk_grammar_expr.specs.declared.symbols.Sym.{Sym as SymOf};
ghost use Rattle.vk_parse_words.specs.Faults.{run_of, ends_in_words, goes_on, is_no_type, is_front_fault, is_fault, IsC7};

use vk_grammar_expr::{Keyword, Sym, SymKind};
use vk_parse_expr::signs::is_type_part;
use vk_parse_expr::words::type_of;

// How many of the first tokens are words of types or `const`.
fn part_count(syms: &[Sym]) -> usize
    ensures count { result ≡ prefix_len (λ t. is_type_part (Some t.kind)) syms.now }
    ensures within { result ≤ length syms.now }
{
    syms.iter()
        .take_while(|sym| is_type_part(Some(sym.kind)))
        .count()
}

// The words of types and the `const` that stand at the front.
#[tactic(auto, unfolding(crate::specs::Faults::run_of))]
fn run_of(syms: &[Sym]) -> &[Sym]
    ensures { result.now ≡ run_of syms.now }
{
    syms.split_at(part_count(syms)).0
}

// Whether the words of the run at the front are no type.
fn is_no_type(syms: &[Sym]) -> bool
    ensures { result ≡ is_no_type syms.now }
{
    type_of(run_of(syms)).is_none()
}

// Whether the fault is at the front, where a run with words stands directly before or not.
fn is_front_fault(in_words: bool, syms: &[Sym]) -> bool
    ensures { (before : List SymOf) → in_words ≡ ends_in_words before → result ≡ is_front_fault before syms.now }
{
    match syms {
        [] => false,
        [first, ..] => match first.kind {
            SymKind::LeftOut => true,
            SymKind::TypeWord(_) => !in_words && is_no_type(syms),
            _ => false,
        },
    }
}

// Whether a run with words ends with this token, where one ended before it or not.
fn goes_on(in_words: bool, kind: SymKind) -> bool
    ensures { result ≡ goes_on in_words kind }
{
    match kind {
        SymKind::TypeWord(_) => true,
        SymKind::Keyword(Keyword::Const) => in_words,
        _ => false,
    }
}

/// The place of C7 in the tokens outside directive lines: the first keyword that is left out or first word of a run of
/// words of types and `const` that is no type (C17 6.4.1, 6.7.2). It is told as the number of tokens from it on.
pub fn first_word_fault(syms: &[Sym]) -> Option<usize>
    ensures found { IfSome result (λ n. IsC7 syms.now n) }
    ensures none { result ≡ None → (k : ℕ) → is_fault syms.now k ≡ false }
    ensures only { (n : ℕ) → IsC7 syms.now n → result ≡ Some n }
{
    let mut in_words = false;
    for (at, sym) in syms.iter().enumerate() {
        if is_front_fault(in_words, &syms[at..]) {
            return Some(syms.len() - at);
        }
        in_words = goes_on(in_words, sym.kind);
    }
    None
}
