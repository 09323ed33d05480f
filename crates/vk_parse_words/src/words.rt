// Keywords and words of types by their texts (C17 6.4.1, 7.20.1.1).

ghost use Rattle.std.specs.Prelude.{◌≡◌};
ghost use Rattle.std.specs.List.{list_any};
ghost use Rattle.vk_parse_words.specs.Words.{same_text, with_text, keyword_of, keyword_text, type_word_of, type_word_text, is_left_out, name_kind};

use vk_ast::NameId;
use vk_grammar_expr::{Keyword, SymKind, TypeWord};

const KEYWORDS: [Keyword; 12] = [
    Keyword::If,
    Keyword::Else,
    Keyword::While,
    Keyword::Do,
    Keyword::For,
    Keyword::Break,
    Keyword::Continue,
    Keyword::Return,
    Keyword::Extern,
    Keyword::Const,
    Keyword::Restrict,
    Keyword::Void,
];

const TYPE_WORDS: [TypeWord; 14] = [
    TypeWord::Signed,
    TypeWord::Unsigned,
    TypeWord::Char,
    TypeWord::Short,
    TypeWord::Int,
    TypeWord::Long,
    TypeWord::Int8,
    TypeWord::Int16,
    TypeWord::Int32,
    TypeWord::Int64,
    TypeWord::Uint8,
    TypeWord::Uint16,
    TypeWord::Uint32,
    TypeWord::Uint64,
];

// The keywords that are left out.
static LEFT_OUT: [&[u8]; 23] = [
    b"auto",
    b"case",
    b"default",
    b"enum",
    b"goto",
    b"inline",
    b"register",
    b"sizeof",
    b"static",
    b"struct",
    b"switch",
    b"typedef",
    b"union",
    b"volatile",
    b"_Alignas",
    b"_Alignof",
    b"_Atomic",
    b"_Bool",
    b"_Generic",
    b"_Imaginary",
    b"_Noreturn",
    b"_Static_assert",
    b"_Thread_local",
];

fn keyword_text(keyword: Keyword) -> &'static [u8]
    ensures { result.now ≡ keyword_text keyword }
{
    match keyword {
        Keyword::If => b"if",
        Keyword::Else => b"else",
        Keyword::While => b"while",
        Keyword::Do => b"do",
        Keyword::For => b"for",
        Keyword::Break => b"break",
        Keyword::Continue => b"continue",
        Keyword::Return => b"return",
        Keyword::Extern => b"extern",
        Keyword::Const => b"const",
        Keyword::Restrict => b"restrict",
        Keyword::Void => b"void",
    }
}

fn type_word_text(word: TypeWord) -> &'static [u8]
    ensures { result.now ≡ type_word_text word }
{
    match word {
        TypeWord::Signed => b"signed",
        TypeWord::Unsigned => b"unsigned",
        TypeWord::Char => b"char",
        TypeWord::Short => b"short",
        TypeWord::Int => b"int",
        TypeWord::Long => b"long",
        TypeWord::Int8 => b"int8_t",
        TypeWord::Int16 => b"int16_t",
        TypeWord::Int32 => b"int32_t",
        TypeWord::Int64 => b"int64_t",
        TypeWord::Uint8 => b"uint8_t",
        TypeWord::Uint16 => b"uint16_t",
        TypeWord::Uint32 => b"uint32_t",
        TypeWord::Uint64 => b"uint64_t",
    }
}

// The first of the keywords with this text.
fn first_keyword(keywords: &[Keyword], text: &[u8]) -> Option<Keyword>
    ensures { result ≡ with_text keyword_text keywords.now text.now }
{
    for keyword in keywords {
        if keyword_text(*keyword) == text {
            return Some(*keyword);
        }
    }
    None
}

// The first of the words of types with this text.
fn first_type_word(words: &[TypeWord], text: &[u8]) -> Option<TypeWord>
    ensures { result ≡ with_text type_word_text words.now text.now }
{
    for word in words {
        if type_word_text(*word) == text {
            return Some(*word);
        }
    }
    None
}

/// The keyword of the grammar with this text.
#[tactic(auto, unfolding(crate::specs::Words::keyword_of))]
pub fn keyword_of(text: &[u8]) -> Option<Keyword>
    ensures { result ≡ keyword_of text.now }
{
    first_keyword(&KEYWORDS, text)
}

/// The word of an integer type with this text.
#[tactic(auto, unfolding(crate::specs::Words::type_word_of))]
pub fn type_word_of(text: &[u8]) -> Option<TypeWord>
    ensures { result ≡ type_word_of text.now }
{
    first_type_word(&TYPE_WORDS, text)
}

// Whether one of the words has this text.
fn is_any(words: &[&[u8]], text: &[u8]) -> bool
    ensures { result ≡ list_any (λ w. same_text w.now text.now) words.now }
{
    words.iter().any(|word| *word == text)
}

/// Whether this is the text of a keyword that is left out.
#[tactic(auto, unfolding(crate::specs::Words::is_left_out))]
pub fn is_left_out(text: &[u8]) -> bool
    ensures { result ≡ is_left_out text.now }
{
    is_any(&LEFT_OUT, text)
}

/// What a name with this text is to the grammar.
pub fn name_kind(text: &[u8], id: NameId) -> SymKind
    ensures { result ≡ name_kind text.now id }
{
    if let Some(keyword) = keyword_of(text) {
        SymKind::Keyword(keyword)
    } else if let Some(word) = type_word_of(text) {
        SymKind::TypeWord(word)
    } else if is_left_out(text) {
        SymKind::LeftOut
    } else {
        SymKind::Name(id)
    }
}
