// The lines of the cells that a call changed.

ghost use Rattle.std.specs.Prelude.{◌≡◌, ℕ, ◌<◌, ◌++◌, IfOk, OnOk, length, true, ℤ};
ghost use Rattle.vk_types.specs.Numbers.{IsCanonical, number_of};
ghost use Rattle.vk_meaning.specs.World.{array_at};
ghost use Rattle.vk_pointer_texts.specs.Heads.{array_of, arrays_of};
ghost use Rattle.vk_cell_lines.specs.Lines.{HasAll, AreCanonical, array_lines, cell_lines, changed_line, cell_line};

use crate::cells::Cells;
use std::alloc::{AllocError, Global};
use vk_io::Lines;
use vk_memory::Memory;
use vk_pointer_texts::ArrayHead;
use vk_types::{Word, number};

/// The line of each cell that has another word than before, `cell y[2]: 31`: in the order of the arrays, which is that of their names,
/// and of the elements.
///
/// All cells of these arrays are there before and after the call, and afterwards each word is canonical for its array's type.
pub fn cell_lines<B: Cells, A: Cells>(
    alloc: Global,
    heads: &[ArrayHead<'_>],
    before: &B,
    after: &A,
) -> Result<Lines, Memory>
    requires before { HasAll (arrays_of heads.now) (B.has before.now) }
    requires after { HasAll (arrays_of heads.now) (A.has after.now) }
    requires canonical { AreCanonical (arrays_of heads.now) (A.memory after.now) }
    ensures { IfOk result (λ lines. lines ≡ cell_lines (arrays_of heads.now) (B.memory before.now) (A.memory after.now)) }
{
    let mut lines = Lines::new(alloc);
    for array in 0..heads.len() {
        array_lines(alloc, &mut lines, &heads[array], array, before, after)?;
    }
    Ok(lines)
}

// Adds the lines of an array's cells.
fn array_lines<B: Cells, A: Cells>(
    alloc: Global,
    lines: &mut Lines,
    head: &ArrayHead<'_>,
    array: usize,
    before: &B,
    after: &A,
) -> Result<(), Memory>
    requires before { (i : ℕ) → i < head.now.length → B.has before.now array i ≡ true }
    requires after { (i : ℕ) → i < head.now.length → A.has after.now array i ≡ true }
    requires canonical { (i : ℕ) → i < head.now.length → IsCanonical head.now.ty (A.memory after.now array i) }
    ensures { OnOk result (lines.new ≡ lines.old ++ array_lines (array_of head.now) (B.memory before.now array) (A.memory after.now array)) }
{
    for index in 0..head.length as usize {
        let old = before.word(array, index);
        let new = after.word(array, index);
        changed_line(alloc, lines, head, index, old, new)?;
    }
    Ok(())
}

// Adds the line of a cell, where its word is another one.
fn changed_line(
    alloc: Global,
    lines: &mut Lines,
    head: &ArrayHead<'_>,
    index: usize,
    old: Word,
    new: Word,
) -> Result<(), Memory>
    requires { IsCanonical head.now.ty new.0 }
    ensures { OnOk result (lines.new ≡ lines.old ++ changed_line (array_of head.now) old.0 new.0 index) }
{
    if old == new {
        return Ok(());
    }
    let line = line_of(alloc, head, index, number(head.ty, new))?;
    lines.push(&line)?;
    Ok(())
}

// The line of a cell.
fn line_of(
    alloc: Global,
    head: &ArrayHead<'_>,
    index: usize,
    value: i128,
) -> Result<Vec<u8>, AllocError>
    ensures { IfOk result (λ line. line.items ≡ cell_line head.now.text.now index value) }
{
    let mut line = Vec::new(alloc);
    line.extend_from_slice(b"cell ")?;
    line.extend_from_slice(head.text)?;
    let end = format!(in alloc; "[{index}]: {value}\n")?;
    line.extend_from_slice(end.as_bytes())?;
    Ok(line)
}
