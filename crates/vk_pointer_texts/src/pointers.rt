// Pointers and integers as the values of arguments.

ghost use Rattle.std.specs.Prelude.{◌≡◌, ◌<◌, IfOk, IfSome, List, ℕ, bytes_eq, map, position};
ghost use Rattle.vk_kinds.specs.declared.heads.CType.{CType as CTypeOf};
ghost use Rattle.vk_meaning.specs.World.{Array, array_at};
ghost use Rattle.vk_arguments.specs.Typed.{IsValue};
ghost use Rattle.vk_pointer_texts.specs.Heads.{arrays_of, array_of};
ghost use Rattle.vk_pointer_texts.specs.Values.{may_point, pointer_to, pointer_value, word_at};
ghost use Rattle.vk_pointer_texts.specs.Inner.Noted.{noted};

use crate::heads::ArrayHead;
use crate::names::{number_of, numbers_of};
use crate::texts::place_of;
use std::alloc::Global;
use std::collections::HashMap;
use vk_arguments::{Integers, Values};
use vk_kinds::CType;
use vk_memory::Memory;
use vk_types::{Ty, Word};

/// Integers, and pointers into these arrays, as the values of arguments.
///
/// A pointer is the name of an array, or NAME+K or NAME-K with decimal digits K of at most 2147483647: the pointer to the element so
/// many behind or before the first one, which may be outside the array. The array's elements have the type that the parameter points
/// to, and it is not `const` where they may be written.
#[derive(Drop)]
pub struct Pointers<'a> {
    heads: &'a [ArrayHead<'a>],
    numbers: HashMap<&'a [u8], u32>,
    ghost right: { (t : List ℕ) → noted numbers t ≡ position (λ a. bytes_eq a.text t) (arrays_of heads.now) },
}

impl<'a> Pointers<'a> {
    /// Those into these arrays, of which the first with a name has it.
    pub fn new(alloc: Global, heads: &'a [ArrayHead<'a>]) -> Result<Pointers<'a>, Memory>
        ensures { IfOk result (λ pointers. pointers.heads.now ≡ heads.now) }
    {
        let numbers = numbers_of(alloc, heads)?;
        Ok(Pointers { heads, numbers })
    }

    /// The arrays.
    pub fn heads(&self) -> &'a [ArrayHead<'a>]
        ensures { result.now ≡ self.now.heads.now }
    {
        self.heads
    }

    // The pointer that a text writes, where it may stand for a parameter that points to elements of this type.
    fn pointer(&self, to: Ty, written: bool, text: &str) -> Option<Word>
        ensures word { result ≡ pointer_value (arrays_of self.now.heads.now) (CTypeOf.Ptr to written) text.now }
        ensures typed { IfSome result (λ w. IsValue (arrays_of self.now.heads.now) (CTypeOf.Ptr to written) w) }
    {
        let place = place_of(text);
        let Some(offset) = place.offset else {
            return None;
        };
        let Some(number) = number_of(&self.numbers, place.name.as_bytes()) else {
            return None;
        };
        word_to(&self.heads[number as usize], number, offset, to, written)
    }
}

impl Values for Pointers<'_> {
    ghost use Rattle.vk_pointer_texts.specs.Heads.{arrays_of};
    ghost use Rattle.vk_pointer_texts.specs.Values.{pointer_value};

    ghost meaning = { λ p. pointer_value (arrays_of p.heads.now) };

    ghost arrays = { λ p. arrays_of p.heads.now };

    fn word(&self, ty: CType, text: &str) -> Option<Word> {
        match ty {
            CType::Void => None,
            CType::Int(ty) => Integers.word(CType::Int(ty), text),
            CType::Ptr { to, written } => self.pointer(to, written, text),
        }
    }
}

// The pointer to an element of this array, where a parameter may have it.
fn word_to(head: &ArrayHead<'_>, number: u32, offset: i32, to: Ty, written: bool) -> Option<Word>
    ensures { result ≡ word_at (may_point (array_of head.now) to written) number offset }
{
    if head.ty == to && !(written && head.fixed) {
        Some(Word(u64::from(number) * 4294967296 + u64::from(offset.cast_unsigned())))
    } else {
        None
    }
}
