// Given elements of arrays.

ghost use Rattle.std.specs.Prelude.{◌≡◌};
ghost use Rattle.std.specs.List.{list_all};
ghost use Rattle.vk_object.specs.Texts.{are_given, ends_well, is_word_of};

use vk_code::types::is_canonical;
use vk_types::{Ty, Word};

/// Whether they are given elements of an array of this type and length.
pub fn are_given(ty: Ty, length: u32, elements: &[Word]) -> bool
    ensures { result ≡ are_given ty length elements.now }
{
    elements.len() <= length as usize && are_words_of(ty, elements) && ends_well(elements)
}

// Whether each is canonical for the type.
fn are_words_of(ty: Ty, elements: &[Word]) -> bool
    ensures { result ≡ list_all (is_word_of ty) elements.now }
{
    elements.iter().all(|element| is_canonical(ty, *element))
}

// Whether the last one, where there is one, is not 0.
fn ends_well(elements: &[Word]) -> bool
    ensures { result ≡ ends_well elements.now }
{
    match elements {
        [] => true,
        [.., last] => last.0 != 0,
    }
}
