// What the texts of values stand for.

ghost use Rattle.std.specs.Prelude.{◌≡◌, ℕ, List, [], Option, IfSome, option_map};
ghost use Rattle.vk_types.specs.declared.types.Word.{Word as WordOf};
ghost use Rattle.vk_kinds.specs.declared.heads.CType.{CType as CTypeOf};
ghost use Rattle.vk_meaning.specs.World.{Array};
ghost use Rattle.vk_arguments.specs.Integers.{if_in_range, number_in, word_of_number};
ghost use Rattle.vk_arguments.specs.Typed.{IsValue};

use vk_kinds::CType;
use vk_types::{Ty, Word, number, wrap};

/// What the text of one value stands for at a parameter.
pub trait Values {
    /// The word of a text where the parameter has this type, none where it is no such value; the arrays that pointers point into.
    ghost meaning: { Self → CTypeOf → List ℕ → Option WordOf };

    ghost arrays: { Self → List Array };

    /// The word that a text stands for.
    fn word(&self, ty: CType, text: &str) -> Option<Word>
        ensures word { result ≡ meaning self.now ty text.now }
        ensures typed { IfSome result (λ w. IsValue (arrays self.now) ty w) };
}

/// Integers as the only values: decimal digits with an optional `-` in front, in the range of the parameter's type.
#[derive(Clone, Copy, PartialEq, Eq, Debug)]
pub struct Integers;

impl Values for Integers {
    ghost use Rattle.vk_arguments.specs.Integers.{integer_word};

    ghost meaning = { λ _. integer_word };

    ghost arrays = { λ _. [] };

    fn word(&self, ty: CType, text: &str) -> Option<Word> {
        match ty {
            CType::Int(ty) => word_in(text, ty),
            CType::Void | CType::Ptr { .. } => None,
        }
    }
}

// The word of the integer of the type that a text writes.
fn word_in(text: &str, ty: Ty) -> Option<Word>
    ensures word { result ≡ option_map word_of_number (number_in ty text.now) }
    ensures typed { IfSome result (λ w. IsValue [] (CTypeOf.Int ty) w) }
{
    match integer_in(text, ty) {
        Some(value) => Some(wrap(ty, value)),
        None => None,
    }
}

// The integer of the type that a text writes: decimal digits with an optional `-` in front.
fn integer_in(text: &str, ty: Ty) -> Option<i128>
    ensures { result ≡ number_in ty text.now }
{
    if text.starts_with('+') {
        return None;
    }
    match text.parse::<i128>() {
        Ok(value) => if_of(ty, value),
        Err(_) => None,
    }
}

// A number, where it is one of the type.
fn if_of(ty: Ty, value: i128) -> Option<i128>
    ensures { result ≡ if_in_range ty value }
{
    if number(ty, wrap(ty, value)) == value {
        Some(value)
    } else {
        None
    }
}
