// The words of clauses (OpenMP 5.2, declare simd).

ghost use Rattle.std.specs.Prelude.{◌≡◌, [], slice_get};
ghost use Rattle.std.specs.Option.{unwrap_or};
ghost use Rattle.vk_parse_words.specs.Words.{with_text};
ghost use Rattle.vk_parse_directives.specs.Words.{word_text, word_of, word_at};

use vk_ast::{NameId, NameTable};
use vk_grammar_expr::SymKind;

/// A word of a clause.
#[derive(Clone, Copy, PartialEq, Eq, Debug)]
pub enum Word {
    Simdlen,
    Uniform,
    Aligned,
    Linear,
    Inbranch,
    Notinbranch,
    Val,
    Ref,
    Uval,
    Step,
}

const WORDS: [Word; 10] = [
    Word::Simdlen,
    Word::Uniform,
    Word::Aligned,
    Word::Linear,
    Word::Inbranch,
    Word::Notinbranch,
    Word::Val,
    Word::Ref,
    Word::Uval,
    Word::Step,
];

fn word_text(word: Word) -> &'static [u8]
    ensures { result.now ≡ word_text word }
{
    match word {
        Word::Simdlen => b"simdlen",
        Word::Uniform => b"uniform",
        Word::Aligned => b"aligned",
        Word::Linear => b"linear",
        Word::Inbranch => b"inbranch",
        Word::Notinbranch => b"notinbranch",
        Word::Val => b"val",
        Word::Ref => b"ref",
        Word::Uval => b"uval",
        Word::Step => b"step",
    }
}

// The first of the words with this text.
fn first_word(words: &[Word], text: &[u8]) -> Option<Word>
    ensures { result ≡ with_text word_text words.now text.now }
{
    for word in words {
        if word_text(*word) == text {
            return Some(*word);
        }
    }
    None
}

#[tactic(auto, unfolding(crate::specs::Words::word_of))]
fn word_of(text: &[u8]) -> Option<Word>
    ensures { result ≡ word_of text.now }
{
    first_word(&WORDS, text)
}

// The word with the text of this name; a name that is not in the table has none.
fn named_word(names: &NameTable, id: NameId) -> Option<Word>
    ensures { result ≡ word_of (unwrap_or (slice_get names.now id.0) []) }
{
    if (id.0 as usize) < names.len() {
        word_of(names.text(id))
    } else {
        None
    }
}

/// The word that a token is.
pub fn word_at(names: &NameTable, kind: SymKind) -> Option<Word>
    ensures { result ≡ word_at names.now kind }
{
    match kind {
        SymKind::Name(id) => named_word(names, id),
        _ => None,
    }
}
