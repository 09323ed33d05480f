// The first cells of arrays.

ghost use Rattle.std.specs.Prelude.{◌≡◌, ◌≤◌, IfOk, IsTrue, None, Some, [], length, map, nat_le, true, unwrap_or};
ghost use Rattle.std.specs.Option.{option_map};
ghost use Rattle.vk_types.specs.Numbers.{IsCanonical, number_of, word_of, wrap_number};
ghost use Rattle.vk_ast.specs.Tree.{expr_of};
ghost use Rattle.vk_ast.specs.Units.{object_of};
ghost use Rattle.vk_rules_book.specs.Items.{given_length, length_of};
ghost use Rattle.vk_meaning.specs.Programs.{initial_number};
ghost use Rattle.vk_meaning.specs.World.{first_memory};
ghost use Rattle.vk_reading.specs.Cells.{AreRowsOf, HaveWords, memory_in};
ghost use Rattle.vk_reading_rows.specs.Objects.{AreGivenWithin, array_seen};
ghost use Rattle.vk_reading_rows.specs.Inner.Rows.{cells_of, given_words, row_seen};

use crate::objects::Placed;
use std::alloc::Global;
use vk_ast::{Expr, Object};
use vk_memory::Memory;
use vk_numbers::{constant_of, constant_to};
use vk_reading::{Cells, Row};
use vk_types::{Ty, Word, wrap};

/// An array has at most this many elements.
const MAX_LENGTH: u32 = 16777216;

// The length that an array of this many given elements has.
fn counted(es: &[Expr]) -> Option<u32>
    ensures { result ≡ given_length None (Some (map expr_of es.now)) true }
{
    if 1 <= es.len() && es.len() <= MAX_LENGTH as usize {
        Some(es.len() as u32)
    } else {
        None
    }
}

// The length of an array, as given or counted.
fn given_length(given: &Option<Expr>, init: &Option<Vec<Expr>>, braced: bool) -> Option<u32>
    ensures { result ≡ given_length (option_map expr_of given.now) (option_map (λ es. map expr_of es.items) init.now) braced }
{
    if let Some(e) = given {
        return constant_to(MAX_LENGTH, e);
    }
    match init {
        Some(es) if braced => counted(es),
        _ => None,
    }
}

// The length of an object: that of an array, 1 of a scalar.
#[tactic(auto, unfolding(vk_rules_book::specs::Items::length_of))]
fn length_of(o: &Object) -> u32
    ensures { result ≡ unwrap_or (length_of (object_of o.now)) 1 }
{
    let length = match &o.array {
        Some(given) => given_length(given, &o.init, o.braced),
        None => None,
    };
    match length {
        Some(length) => length,
        None => 1,
    }
}

// The word of an initialiser (C17 6.7.9).
fn initial_word(ty: Ty, e: &Expr) -> Word
    ensures { result.0 ≡ word_of (wrap_number ty (initial_number (expr_of e.now))) }
{
    match constant_of(e) {
        Some(n) => wrap(ty, n),
        None => wrap(ty, 0),
    }
}

// The words of initialisers.
fn initial_words(alloc: Global, ty: Ty, es: &[Expr]) -> Result<Vec<Word>, Memory>
    ensures { IfOk result (λ words. map (λ w. w.0) words.items ≡ given_words ty (map expr_of es.now)) }
{
    let mut words = Vec::new(alloc);
    for e in es {
        words.push(initial_word(ty, e))?;
    }
    Ok(words)
}

// The words that are given of an object.
fn words_given(alloc: Global, o: &Object) -> Result<Vec<Word>, Memory>
    ensures { IfOk result (λ words. map (λ w. w.0) words.items ≡ given_words o.now.ty (unwrap_or (object_of o.now).init [])) }
{
    match &o.init {
        Some(es) => initial_words(alloc, o.ty, es),
        None => Ok(Vec::new(alloc)),
    }
}

// The first cells of an array: those that are given, the others 0.
fn row_of(alloc: Global, placed: &Placed) -> Result<Row, Memory>
    requires { length (array_seen placed.now).given ≤ (array_seen placed.now).length }
    ensures { IfOk result (λ row. row_seen row ≡ cells_of (array_seen placed.now)) }
{
    let o = placed.object;
    let mut words = words_given(alloc, o)?;
    words.resize(length_of(o) as usize, wrap(o.ty, 0))?;
    Ok(Row { ty: o.ty, words })
}

// The first cells of arrays.
fn rows_of(alloc: Global, objects: &[Placed]) -> Result<Vec<Row>, Memory>
    requires { AreGivenWithin (map array_seen objects.now) }
    ensures { IfOk result (λ rows. map row_seen rows.items ≡ map cells_of (map array_seen objects.now)) }
{
    let mut rows = Vec::new(alloc);
    for placed in objects {
        rows.push(row_of(alloc, placed)?)?;
    }
    Ok(rows)
}

// Whether an object is given no more elements than it has.
fn is_given_within(placed: &Placed) -> bool
    ensures { result ≡ nat_le (length (array_seen placed.now).given) (array_seen placed.now).length }
{
    let given = match &placed.object.init {
        Some(es) => es.len(),
        None => 0,
    };
    given <= length_of(placed.object) as usize
}

/// Whether no object is given more elements than it has. It is so of all units that are read from texts.
pub fn are_given_within(objects: &[Placed]) -> bool
    ensures { IsTrue result → AreGivenWithin (map array_seen objects.now) }
{
    for placed in objects {
        if !is_given_within(placed) {
            return false;
        }
    }
    true
}

/// The cells as the program begins: the elements that are given, the others 0 (C17 6.7.9).
pub fn first_cells(alloc: Global, objects: &[Placed]) -> Result<Cells, Memory>
    requires { AreGivenWithin (map array_seen objects.now) }
    ensures rows { IfOk result (λ cells. AreRowsOf cells.rows.items (map array_seen objects.now)) }
    ensures memory { IfOk result (λ cells. memory_in cells.rows.items ≡ first_memory (map array_seen objects.now)) }
    ensures words { IfOk result (λ cells. HaveWords cells.rows.items) }
{
    let rows = rows_of(alloc, objects)?;
    Ok(Cells { rows })
}
