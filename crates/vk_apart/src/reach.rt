// What an argument lets a call reach.

ghost use Rattle.std.specs.Prelude.{◌≡◌, ◌+◌, ◌*◌, ◌/◌, ◌%◌, ◌^◌, ◌<◌, true};
ghost use Rattle.std.specs.Int.{w32, cast_signed};
ghost use Rattle.vk_pointer_texts.specs.Heads.{arrays_of};
ghost use Rattle.vk_apart.specs.Inner.Reaches.{meet, reach_at, reach_below, reach_of};
ghost use Rattle.vk_apart.specs.declared.reach.Reach.{Reach as ReachOf};

use vk_kinds::CType;
use vk_pointer_texts::ArrayHead;
use vk_types::Word;

/// What an argument lets a call reach.
#[derive(Clone, Copy)]
pub enum Reach {
    /// No cell: a number, or a pointer outside its array to elements that may be written.
    Nothing,
    /// One cell, which may be written.
    Cell { array: u64, index: u32 },
    /// All cells of an array, which are read.
    Whole { array: u64 },
}

/// Whether what two lanes reach by these meets: a cell that the one may write is the other's, or lies in an array that it reads.
pub fn meet(one: Reach, other: Reach) -> bool
    ensures { result ≡ meet one other }
{
    match one {
        Reach::Nothing => false,
        Reach::Cell { array, index } => meets_cell(array, index, other),
        Reach::Whole { array } => meets_whole(array, other),
    }
}

// The same for a cell that may be written.
fn meets_cell(array: u64, index: u32, other: Reach) -> bool
    ensures { result ≡ meet (ReachOf.Cell array index) other }
{
    match other {
        Reach::Nothing => false,
        Reach::Cell {
            array: its,
            index: at,
        } => array == its && index == at,
        Reach::Whole { array: its } => array == its,
    }
}

// The same for an array that is read.
fn meets_whole(array: u64, other: Reach) -> bool
    ensures { result ≡ meet (ReachOf.Whole array) other }
{
    match other {
        Reach::Nothing => false,
        Reach::Cell { array: its, .. } => array == its,
        Reach::Whole { .. } => false,
    }
}

/// What an argument of this type reaches.
pub fn reach_of(heads: &[ArrayHead<'_>], ty: CType, word: Word) -> Reach
    ensures { result ≡ reach_of (arrays_of heads.now) ty word.0 }
{
    match ty {
        CType::Void => Reach::Nothing,
        CType::Int(_) => Reach::Nothing,
        CType::Ptr { written, .. } => {
            if written {
                cell_reach(heads, word)
            } else {
                Reach::Whole {
                    array: word.0 / (1 << 32),
                }
            }
        }
    }
}

// What a pointer to elements that may be written reaches.
fn cell_reach(heads: &[ArrayHead<'_>], word: Word) -> Reach
    ensures { result ≡ reach_at (arrays_of heads.now) true (word.0 / 2 ^ 32) (cast_signed w32 (word.0 % 2 ^ 32)) }
{
    let array = word.0 / (1 << 32);
    let offset = ((word.0 % (1 << 32)) as u32).cast_signed();
    match heads.get(array as usize) {
        Some(head) => reach_below(array, offset, head.length),
        None => Reach::Nothing,
    }
}

// The element at this offset of an array of this length.
fn reach_below(array: u64, offset: i32, length: u32) -> Reach
    ensures { result ≡ reach_below array length offset }
{
    match u32::try_from(offset) {
        Ok(index) => {
            if index < length {
                Reach::Cell { array, index }
            } else {
                Reach::Nothing
            }
        }
        Err(_) => Reach::Nothing,
    }
}
