// Values as the reader holds them.

ghost use Rattle.std.specs.Prelude.{◌≡◌};
ghost use Rattle.vk_types.specs.Numbers.{IsCanonical, number_of};
ghost use Rattle.vk_numbers.specs.Operators.{is_on};
ghost use Rattle.vk_meaning.specs.Data.{as_type, number_in, pointer_in};
ghost use Rattle.vk_reading.specs.Held.{IsHeld, datum_of};

use vk_kinds::CType;
use vk_meaning::RunFail;
use vk_types::{Stop, Ty, Word, convert, wrap};

/// The value of an expression: a word of an integer type, a pointer to elements of a type, or nothing where the type is void.
#[derive(Clone, Copy, PartialEq, Eq, Debug)]
pub enum Held {
    Number { ty: Ty, word: Word },
    Pointer { to: Ty, array: u32, offset: i32 },
    Nothing,
}

/// Why an evaluation gives nothing: the program stopped, or a failure outside it.
#[derive(Clone, Copy, PartialEq, Eq, Debug)]
pub enum Halt {
    Halted(Stop),
    Failed(RunFail),
}

/// A number with its type.
#[derive(Clone, Copy, PartialEq, Eq, Debug)]
pub struct Typed {
    pub ty: Ty,
    pub word: Word,
}

/// The number of a value, 0 where it is none.
pub fn number_in(held: Held) -> Typed
    requires { IsHeld held }
    ensures number { number_of result.ty result.word.0 ≡ number_in (datum_of held) }
    ensures canonical { IsCanonical result.ty result.word.0 }
{
    match held {
        Held::Number { ty, word } => Typed { ty, word },
        Held::Pointer { .. } | Held::Nothing => Typed {
            ty: Ty::I32,
            word: wrap(Ty::I32, 0),
        },
    }
}

/// Conversion as if by assignment (C17 6.5.16.1).
pub fn as_type(held: Held, to: CType) -> Held
    requires { IsHeld held }
    ensures datum { datum_of result ≡ as_type to (datum_of held) }
    ensures held { IsHeld result }
{
    match to {
        CType::Void => Held::Nothing,
        CType::Int(ty) => {
            let n = number_in(held);
            Held::Number {
                ty,
                word: convert(n.ty, ty, n.word),
            }
        }
        CType::Ptr { .. } => pointer_in(held),
    }
}

// The pointer, nothing where there is none.
fn pointer_in(held: Held) -> Held
    ensures datum { datum_of result ≡ pointer_in (datum_of held) }
    ensures held { IsHeld result }
{
    match held {
        Held::Pointer { .. } => held,
        Held::Number { .. } | Held::Nothing => Held::Nothing,
    }
}

/// A condition holds where its number is not 0.
pub fn is_on(n: Typed) -> bool
    requires { IsCanonical n.ty n.word.0 }
    ensures { result ≡ is_on (number_of n.ty n.word.0) }
{
    n.word.0 != 0
}
