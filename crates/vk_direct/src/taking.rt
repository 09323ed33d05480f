// On which words an entry may be called from outside.

ghost use Rattle.std.specs.Prelude.{◌≡◌};
ghost use Rattle.std.specs.List.{list_all};
ghost use Rattle.vk_code.specs.Listing.{listing_of};
ghost use Rattle.vk_steps.specs.Places.{image_tables};
ghost use Rattle.vk_direct.specs.Taking.{are_words_of, is_word_of, takes_call, takes_words};

use vk_code::Code;
use vk_code::types::is_canonical;
use vk_kinds::CType;
use vk_object::Image;
use vk_types::Word;

/// Whether an entry may be called from outside in so many lanes on these words: for each parameter one canonical word for each
/// lane, one parameter after another.
pub fn takes_call(image: &Image, entry: usize, lanes: usize, words: &[Word]) -> bool
    ensures { result ≡ takes_call (image_tables image.now) entry lanes words.now }
{
    if entry >= 1 << 32 {
        return false;
    }
    let Some(row) = image.entries.get(entry) else {
        return false;
    };
    if lanes != usize::from(row.lanes) {
        return false;
    }
    match image.codes.get(row.code as usize) {
        Some(code) => takes_words(code, lanes, words),
        None => false,
    }
}

fn takes_words(code: &Code, lanes: usize, words: &[Word]) -> bool
    ensures { result ≡ takes_words lanes words.now (listing_of code.now) }
{
    let params = usize::from(code.params);
    params <= code.regs.len() && are_words_of(&code.regs[..params], lanes, words)
}

// Whether there is for each type one word of it for each lane, and no more.
fn are_words_of(types: &[CType], lanes: usize, words: &[Word]) -> bool
    ensures { result ≡ are_words_of lanes types.now words.now }
{
    let mut rest = words;
    for ty in types {
        if rest.len() < lanes {
            return false;
        }
        let (own, others) = rest.split_at(lanes);
        if !are_all(*ty, own) {
            return false;
        }
        rest = others;
    }
    rest.is_empty()
}

fn are_all(ty: CType, words: &[Word]) -> bool
    ensures { result ≡ list_all (is_word_of ty) words.now }
{
    words.iter().all(|word| is_word_of(ty, *word))
}

fn is_word_of(ty: CType, word: Word) -> bool
    ensures { result ≡ is_word_of ty word }
{
    match ty {
        CType::Void => false,
        CType::Int(t) => is_canonical(t, word),
        CType::Ptr { .. } => true,
    }
}
