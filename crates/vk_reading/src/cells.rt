// The cells of a program's arrays.

ghost use Rattle.std.specs.Prelude.{◌≡◌, IfNone, IfOk, IfSome, List, None, Some, slice_get};
ghost use Rattle.vk_types.specs.Numbers.{IsCanonical, number_of};
ghost use Rattle.vk_meaning.specs.World.{Array, Event};
ghost use Rattle.vk_meaning.specs.Data.{loaded, pointer, stored};
ghost use Rattle.vk_reading.specs.Cells.{ArePut, AreRowsOf, HaveWords, done_in, memory_in, put_at, word_at};
ghost use Rattle.vk_reading.specs.Held.{IsHeld, value_in};

use crate::held::{Held, Typed};
use crate::pointers::Place;
use vk_types::{Stop, Ty, Word, convert};

/// An array: the type of its elements, and their words.
#[derive(Debug, Drop)]
pub struct Row {
    pub ty: Ty,
    pub words: Vec<Word>,
}

/// The arrays of a program, by their numbers.
#[derive(Debug, Drop)]
pub struct Cells {
    pub rows: Vec<Row>,
}

// The row with this number.
fn row_at(rows: &[Row], array: u32) -> Option<&Row>
    ensures some { IfSome result (λ r. slice_get rows.now array ≡ Some r.now) }
    ensures none { IfNone result (slice_get rows.now array ≡ None) }
{
    rows.get(array as usize)
}

// The word at an offset.
fn word_at(words: &[Word], offset: i32) -> Option<Word>
    ensures { result ≡ word_at words.now offset }
{
    match usize::try_from(offset) {
        Ok(index) => words.get(index).copied(),
        Err(_) => None,
    }
}

impl Row {
    // Another word at an offset.
    fn put(&mut self, offset: i32, word: Word) -> Result<(), Stop>
        ensures ty { self.new.ty ≡ self.old.ty }
        ensures words { ArePut result (put_at self.old.words.items offset word) self.old.words.items self.new.words.items }
    {
        let Ok(index) = usize::try_from(offset) else {
            return Err(Stop::Bounds);
        };
        if index >= self.words.len() {
            return Err(Stop::Bounds);
        }
        self.words[index] = word;
        Ok(())
    }
}

impl Cells {
    /// The number in the element that the pointer points to, as one of the pointer's type; it stops where there is no such element
    /// (C17 6.3.2.1).
    pub fn load(&self, p: Place) -> Result<Held, Stop>
        requires { HaveWords self.now.rows.items }
        ensures value { (arrays : List Array) (events : List Event) → AreRowsOf self.now.rows.items arrays
            → value_in result (record { memory = memory_in self.now.rows.items; events = events })
            ≡ loaded arrays p.to (pointer p.array p.offset) (record { memory = memory_in self.now.rows.items; events = events }) }
        ensures held { IfOk result IsHeld }
    {
        let Some(row) = row_at(&self.rows, p.array) else {
            return Err(Stop::Bounds);
        };
        let Some(word) = word_at(&row.words, p.offset) else {
            return Err(Stop::Bounds);
        };
        Ok(Held::Number {
            ty: p.to,
            word: convert(row.ty, p.to, word),
        })
    }

    /// The number is stored in the element that the pointer points to, as one of the array's type; it stops where there is no such
    /// element, and then nothing has changed (C17 6.5.16).
    pub fn store(&mut self, p: Place, n: Typed) -> Result<(), Stop>
        requires number { IsCanonical n.ty n.word.0 }
        requires words { HaveWords self.old.rows.items }
        ensures value { (arrays : List Array) (events : List Event) → AreRowsOf self.old.rows.items arrays
            → done_in result (record { memory = memory_in self.new.rows.items; events = events })
            ≡ stored arrays (pointer p.array p.offset) (number_of n.ty n.word.0) (record { memory = memory_in self.old.rows.items; events = events }) }
        ensures rows { (arrays : List Array) → AreRowsOf self.old.rows.items arrays → AreRowsOf self.new.rows.items arrays }
        ensures words { HaveWords self.new.rows.items }
    {
        let Some(row) = self.rows.get_mut(p.array as usize) else {
            return Err(Stop::Bounds);
        };
        let word = convert(n.ty, row.ty, n.word);
        row.put(p.offset, word)
    }
}
