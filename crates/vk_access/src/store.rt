// The words of arrays, and counts of calls.

ghost use Rattle.std.specs.Prelude.{◌≡◌, ◌+◌, ◌<◌, ◌==◌, ℕ, cond, is_some, length, slice_index};
ghost use Rattle.vk_types.specs.Numbers.{IsCanonical, number_of};
ghost use Rattle.vk_object.specs.Memory.{cell_of};
ghost use Rattle.vk_access.specs.Accesses.{IsCell, IsElement, element_at, put_cell, stored_cells};
ghost use Rattle.vk_access.specs.Cells.{cells_in, length_in};
ghost use Rattle.vk_access.specs.Outer.{told};
ghost use Rattle.vk_access.specs.Stores.{FitsStore, IsInside, extents};

use vk_object::Image;
use vk_types::{Ty, Word, convert};

/// The words of each array, and how often each entry was called.
#[derive(Drop)]
pub struct Store {
    pub cells: Vec<Vec<Word>>,
    pub counts: Vec<u64>,
}

/// Where an element stands: its array, its number in it, and its type.
#[derive(Clone, Copy)]
pub struct CellPlace {
    pub array: usize,
    pub index: usize,
    pub ty: Ty,
}

/// The element that a pointer names, if there is one.
pub fn cell_of(image: &Image, pointer: Word) -> Option<CellPlace>
    ensures { IsCell result (cell_of (extents image.now) pointer.0) }
{
    let array = (pointer.0 / (1 << 32)) as usize;
    let index = (pointer.0 % (1 << 32)) as usize;
    if array >= image.arrays.len() {
        return None;
    }
    let row = &image.arrays[array];
    if index < 1 << 31 && index < row.length as usize {
        return Some(CellPlace {
            array,
            index,
            ty: row.ty,
        });
    }
    None
}

// An element.
fn read(store: &Store, cell: CellPlace) -> Word
    requires { cell.index < length_in store.now.cells.items cell.array }
    ensures { result.0 ≡ cells_in store.now.cells.items cell.array cell.index }
{
    store.cells[cell.array][cell.index]
}

// An element, as a word of its type.
fn read_typed(image: &Image, store: &Store, cell: CellPlace) -> Word
    requires store { FitsStore image.now store.now }
    requires inside { IsInside image.now cell }
    ensures word { result.0 ≡ cells_in store.now.cells.items cell.array cell.index }
    ensures canonical { IsCanonical cell.ty result.0 }
{
    read(store, cell)
}

// Writes an element.
fn write(store: &mut Store, cell: CellPlace, word: Word)
    requires { cell.index < length_in store.old.cells.items cell.array }
    ensures cells { cells_in store.new.cells.items ≡ put_cell (cells_in store.old.cells.items) cell.array cell.index word.0 }
    ensures lengths { (a : ℕ) → length_in store.new.cells.items a ≡ length_in store.old.cells.items a }
    ensures counts { store.new.counts ≡ store.old.counts }
{
    store.cells[cell.array][cell.index] = word;
}

/// The element that a pointer names, converted to a type; `None` where there is none.
pub fn load(image: &Image, store: &Store, pointer: Word, to: Ty) -> Option<Word>
    requires { FitsStore image.now store.now }
    ensures { IsElement result (element_at (cells_in store.now.cells.items) to (cell_of (extents image.now) pointer.0)) }
{
    match cell_of(image, pointer) {
        Some(cell) => Some(convert(cell.ty, to, read_typed(image, store, cell))),
        None => None,
    }
}

/// Writes a word of this type into the element that a pointer names, converted to its type; `false` where there is none.
pub fn assign(image: &Image, store: &mut Store, pointer: Word, from: Ty, word: Word) -> bool
    requires store { FitsStore image.now store.old }
    requires canonical { IsCanonical from word.0 }
    ensures found { result ≡ is_some (cell_of (extents image.now) pointer.0) }
    ensures cells { cells_in store.new.cells.items ≡ stored_cells (cells_in store.old.cells.items) (number_of from word.0) (cell_of (extents image.now) pointer.0) }
    ensures store { FitsStore image.now store.new }
    ensures counts { store.new.counts ≡ store.old.counts }
{
    match cell_of(image, pointer) {
        Some(cell) => {
            write(store, cell, convert(from, cell.ty, word));
            true
        }
        None => false,
    }
}

/// Counts a call of an entry.
pub fn count(store: &mut Store, number: u32)
    requires { number < length store.old.counts.items }
    ensures cells { store.new.cells ≡ store.old.cells }
    ensures length { length store.new.counts.items ≡ length store.old.counts.items }
    ensures counts { (e : ℕ) → told (slice_index store.new.counts.items e) ≡ told (told (slice_index store.old.counts.items e) + cond (number == e) 1 0) }
{
    let number = number as usize;
    store.counts[number] = store.counts[number].saturating_add(1);
}
