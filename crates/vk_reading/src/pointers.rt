// Pointers that are moved (C17 6.5.6).

ghost use Rattle.std.specs.Prelude.{◌≡◌, ◌<◌, ◌≤◌, ◌^◌, pos, negsuc, neg_ℤ, IfOk};
ghost use Rattle.std.specs.Prelude.{int_le, ◌&&◌};
ghost use Rattle.vk_types.specs.Numbers.{IsCanonical, number_of};
ghost use Rattle.vk_meaning.specs.World.{World};
ghost use Rattle.vk_meaning.specs.Data.{fits_offset, moved, pointer, pointer_at};
ghost use Rattle.vk_reading.specs.Held.{IsHeld, value_in};

use crate::held::{Held, Typed};
use vk_types::{Stop, Ty, number};

/// A pointer into an array: its number and an offset in elements, which may be outside the array.
#[derive(Clone, Copy, PartialEq, Eq, Debug)]
pub struct Place {
    pub to: Ty,
    pub array: u32,
    pub offset: i32,
}

// The pointer, where its offset has 32 bits.
fn pointer_at(to: Ty, array: u32, offset: i128) -> Result<Held, Stop>
    ensures value { (w : World) → value_in result w ≡ pointer_at (fits_offset offset) array offset w }
    ensures held { IfOk result IsHeld }
{
    match i32::try_from(offset) {
        Ok(offset) => Ok(Held::Pointer { to, array, offset }),
        Err(_) => Err(Stop::Bounds),
    }
}

/// The pointer, moved forwards by so many elements. It stops where the offset leaves 32 bits.
pub fn forwards(p: Place, n: Typed) -> Result<Held, Stop>
    requires { IsCanonical n.ty n.word.0 }
    ensures value { (w : World) → value_in result w ≡ moved (pointer p.array p.offset) (number_of n.ty n.word.0) w }
    ensures held { IfOk result IsHeld }
{
    pointer_at(p.to, p.array, i128::from(p.offset) + number(n.ty, n.word))
}

/// The pointer, moved backwards by so many elements. It stops where the offset leaves 32 bits.
pub fn backwards(p: Place, n: Typed) -> Result<Held, Stop>
    requires { IsCanonical n.ty n.word.0 }
    ensures value { (w : World) → value_in result w ≡ moved (pointer p.array p.offset) (neg_ℤ (number_of n.ty n.word.0)) w }
    ensures held { IfOk result IsHeld }
{
    pointer_at(p.to, p.array, i128::from(p.offset) - number(n.ty, n.word))
}
