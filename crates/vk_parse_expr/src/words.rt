// Types in casts: words of integer types, and `const`.

ghost use Rattle.std.specs.Prelude.{◌≡◌, ◌+◌, ◌≤◌, ◌<◌, ℕ, length, take, drop, IfOk};
ghost use Rattle.std.specs.List.{list_any};
ghost use Rattle.vk_grammar_expr.specs.Inner.Reading as spec;
ghost use Rattle.vk_grammar_expr.specs.Symbols.{is_type_part};
ghost use Rattle.vk_grammar_expr.specs.Types.{words_of, has_words, times, same_words, type_of, type_in};
ghost use Rattle.vk_parse_expr.specs.Inner.Answers.{Gives};
ghost use Rattle.vk_parse_expr.specs.Inner.TypeRows.{part_count, is_word, is_any_word, in_rows};

use crate::fail::{Read, ReadFail};
use crate::signs::{is_type_part, kind_at};
use vk_grammar_expr::{Sym, SymKind, TypeWord};
use vk_types::Ty;

const ALL_WORDS: [TypeWord; 14] = [
    TypeWord::Signed,
    TypeWord::Unsigned,
    TypeWord::Char,
    TypeWord::Short,
    TypeWord::Int,
    TypeWord::Long,
    TypeWord::Int8,
    TypeWord::Int16,
    TypeWord::Int32,
    TypeWord::Int64,
    TypeWord::Uint8,
    TypeWord::Uint16,
    TypeWord::Uint32,
    TypeWord::Uint64,
];

/// Words that are together a type.
#[derive(Clone, Copy, PartialEq, Eq, Debug)]
pub(crate) struct TypeRow {
    pub words: &'static [TypeWord],
    pub ty: Ty,
}

// The lists of C17 6.7.2, without plain `char`, with `long long` as `long`, and the names of `<stdint.h>`.
#[rattlefmt::skip]
static TYPES: [TypeRow; 33] = [
    TypeRow { words: &[TypeWord::Signed, TypeWord::Char], ty: Ty::I8 },
    TypeRow { words: &[TypeWord::Unsigned, TypeWord::Char], ty: Ty::U8 },
    TypeRow { words: &[TypeWord::Short], ty: Ty::I16 },
    TypeRow { words: &[TypeWord::Signed, TypeWord::Short], ty: Ty::I16 },
    TypeRow { words: &[TypeWord::Short, TypeWord::Int], ty: Ty::I16 },
    TypeRow { words: &[TypeWord::Signed, TypeWord::Short, TypeWord::Int], ty: Ty::I16 },
    TypeRow { words: &[TypeWord::Unsigned, TypeWord::Short], ty: Ty::U16 },
    TypeRow { words: &[TypeWord::Unsigned, TypeWord::Short, TypeWord::Int], ty: Ty::U16 },
    TypeRow { words: &[TypeWord::Int], ty: Ty::I32 },
    TypeRow { words: &[TypeWord::Signed], ty: Ty::I32 },
    TypeRow { words: &[TypeWord::Signed, TypeWord::Int], ty: Ty::I32 },
    TypeRow { words: &[TypeWord::Unsigned], ty: Ty::U32 },
    TypeRow { words: &[TypeWord::Unsigned, TypeWord::Int], ty: Ty::U32 },
    TypeRow { words: &[TypeWord::Long], ty: Ty::I64 },
    TypeRow { words: &[TypeWord::Signed, TypeWord::Long], ty: Ty::I64 },
    TypeRow { words: &[TypeWord::Long, TypeWord::Int], ty: Ty::I64 },
    TypeRow { words: &[TypeWord::Signed, TypeWord::Long, TypeWord::Int], ty: Ty::I64 },
    TypeRow { words: &[TypeWord::Unsigned, TypeWord::Long], ty: Ty::U64 },
    TypeRow { words: &[TypeWord::Unsigned, TypeWord::Long, TypeWord::Int], ty: Ty::U64 },
    TypeRow { words: &[TypeWord::Long, TypeWord::Long], ty: Ty::I64 },
    TypeRow { words: &[TypeWord::Signed, TypeWord::Long, TypeWord::Long], ty: Ty::I64 },
    TypeRow { words: &[TypeWord::Long, TypeWord::Long, TypeWord::Int], ty: Ty::I64 },
    TypeRow { words: &[TypeWord::Signed, TypeWord::Long, TypeWord::Long, TypeWord::Int], ty: Ty::I64 },
    TypeRow { words: &[TypeWord::Unsigned, TypeWord::Long, TypeWord::Long], ty: Ty::U64 },
    TypeRow { words: &[TypeWord::Unsigned, TypeWord::Long, TypeWord::Long, TypeWord::Int], ty: Ty::U64 },
    TypeRow { words: &[TypeWord::Int8], ty: Ty::I8 },
    TypeRow { words: &[TypeWord::Int16], ty: Ty::I16 },
    TypeRow { words: &[TypeWord::Int32], ty: Ty::I32 },
    TypeRow { words: &[TypeWord::Int64], ty: Ty::I64 },
    TypeRow { words: &[TypeWord::Uint8], ty: Ty::U8 },
    TypeRow { words: &[TypeWord::Uint16], ty: Ty::U16 },
    TypeRow { words: &[TypeWord::Uint32], ty: Ty::U32 },
    TypeRow { words: &[TypeWord::Uint64], ty: Ty::U64 },
];

fn is_word(word: TypeWord, kind: SymKind) -> bool
    ensures { result ≡ is_word word kind }
{
    matches!(kind, SymKind::TypeWord(found) if found == word)
}

fn is_any_word(kind: SymKind) -> bool
    ensures { result ≡ is_any_word kind }
{
    matches!(kind, SymKind::TypeWord(_))
}

// How often a word stands among the tokens.
fn times_in(word: TypeWord, syms: &[Sym]) -> usize
    ensures { result ≡ times word (words_of syms.now) }
{
    syms.iter().filter(|sym| is_word(word, sym.kind)).count()
}

// How often a word stands in a row of the table.
fn times(word: TypeWord, words: &[TypeWord]) -> usize
    ensures { result ≡ times word words.now }
{
    words.iter().filter(|found| **found == word).count()
}

// Whether the words among the tokens are these, in any order.
fn same_words(syms: &[Sym], words: &[TypeWord]) -> bool
    ensures { result ≡ same_words (words_of syms.now) words.now }
{
    ALL_WORDS
        .iter()
        .all(|word| times_in(*word, syms) == times(*word, words))
}

// The type of the first row whose words are those among the tokens.
fn in_rows(syms: &[Sym], rows: &[TypeRow]) -> Option<Ty>
    ensures { result ≡ in_rows (words_of syms.now) rows.now }
{
    match rows {
        [] => None,
        [row, rest @ ..] => {
            if same_words(syms, row.words) {
                Some(row.ty)
            } else {
                in_rows(syms, rest)
            }
        }
    }
}

/// The type that the words among the tokens are together (C17 6.7.2).
#[tactic(auto, unfolding(vk_grammar_expr::specs::Types::type_of, vk_grammar_expr::specs::Types::type_table))]
pub fn type_of(syms: &[Sym]) -> Option<Ty>
    ensures { result ≡ type_of (words_of syms.now) }
{
    in_rows(syms, &TYPES)
}

/// The type of a cast, or `int` where the words are no type.
#[tactic(auto, unfolding(vk_grammar_expr::specs::Types::type_in))]
pub fn type_in(syms: &[Sym]) -> Ty
    ensures { result ≡ type_in syms.now }
{
    type_of(syms).unwrap_or(Ty::I32)
}

// Whether a word of a type is among the tokens.
fn has_words(syms: &[Sym]) -> bool
    ensures { result ≡ list_any (λ t. is_any_word t.kind) syms.now }
{
    syms.iter().any(|sym| is_any_word(sym.kind))
}

// How many of the first tokens are words of a type or `const`.
fn part_count(syms: &[Sym]) -> usize
    ensures count { result ≡ part_count syms.now }
    ensures within { result ≤ length syms.now }
{
    syms.iter()
        .take_while(|sym| is_type_part(Some(sym.kind)))
        .count()
}

/// The words of a type that stand here, with at least one besides `const`, and the tokens behind them.
#[tactic(auto, unfolding(vk_grammar_expr::specs::Inner::Reading::type_words), using(crate::proofs::Parts::parts_read, crate::proofs::Parts::any_word))]
pub fn type_words(syms: &[Sym]) -> Read<'_, &[Sym]>
    ensures value { (turns : ℕ) → length syms.now < turns → Gives (λ x. (x.0.now, x.1.now)) result (spec.type_words turns syms.now) }
    ensures shorter { IfOk result (λ x. length x.1.now ≤ length syms.now) }
    ensures memory { result ≡ Err ReadFail.Memory → ⊥ }
{
    let (words, rest) = syms.split_at(part_count(syms));
    if has_words(words) {
        Ok((words, rest))
    } else {
        Err(ReadFail::Syntax(rest.len()))
    }
}
