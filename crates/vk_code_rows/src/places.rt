// Where the parts of code begin. Numbers of bytes stay at the greatest `u64` once they would pass it.

ghost use Rattle.std.specs.Prelude.{◌≡◌, ◌+◌, ◌*◌};
ghost use Rattle.vk_code_format.specs.Places.{code_length, part_at};
ghost use Rattle.vk_code_read.specs.Inner.Left.{place_of};
ghost use Rattle.vk_code_rows.specs.Sums.{before_instrs, before_loops, before_part, body_size, capped, front_head, front_size, loop_size, loops_size, routine_size, slot_head, slot_size, slots_size};

use vk_code_format::{BodyRow, CodeRow, FrontRow, LoopRow, RoutineRow, SlotRow};
use vk_code_read::CodePlace;

/// The bytes of an instruction.
pub const INSTRUCTION_BYTES: u64 = 16;

// A slot up to its arguments.
fn slot_head(place: CodePlace) -> u64
    ensures { result ≡ slot_head (place_of place) }
{
    match place {
        CodePlace::Object { .. } => 8,
        CodePlace::Image { .. } => 4,
    }
}

fn slot_length(place: CodePlace, row: &SlotRow) -> u64
    ensures { result ≡ capped (slot_size (place_of place) row.now) }
{
    slot_head(place).saturating_add((row.args.len() as u64).saturating_mul(7))
}

fn slots_length(place: CodePlace, rows: &[SlotRow]) -> u64
    ensures { result ≡ capped (slots_size (place_of place) rows.now) }
{
    let mut bytes: u64 = 0;
    for row in rows {
        bytes = bytes.saturating_add(slot_length(place, row));
    }
    bytes
}

fn front_head(place: CodePlace) -> u64
    ensures { result ≡ front_head (place_of place) }
{
    match place {
        CodePlace::Object { .. } => 9,
        CodePlace::Image { .. } => 11,
    }
}

// Kind, result, number of parameters, registers, masks and the count of slots.
fn front_length(place: CodePlace, front: &FrontRow) -> u64
    ensures { result ≡ capped (front_size (place_of place) front.now) }
{
    front_head(place).saturating_add(front.regs.len() as u64)
}

fn instrs_length(count: usize) -> u64
    ensures { result ≡ capped (16 * count) }
{
    (count as u64).saturating_mul(INSTRUCTION_BYTES)
}

fn routine_length(row: &RoutineRow) -> u64
    ensures { result ≡ capped (routine_size row.now) }
{
    let place = CodePlace::Object {
        functions: 0,
        params: 0,
    };
    front_length(place, &row.front)
        .saturating_add(slots_length(place, row.front.slots.as_slice()))
        .saturating_add(6)
        .saturating_add(instrs_length(row.instrs.len()))
}

fn body_length(row: &BodyRow) -> u64
    ensures { result ≡ capped (body_size row.now) }
{
    match row {
        BodyRow::Inline(row) => routine_length(row),
        BodyRow::Number(_) => 4,
    }
}

fn loop_length(place: CodePlace, row: &LoopRow) -> u64
    ensures { result ≡ capped (loop_size (place_of place) row.now) }
{
    let captures = (row.captures.len() as u64).saturating_mul(2);
    let guards = (row.guards.len() as u64).saturating_mul(4);
    body_length(&row.body)
        .saturating_add(10)
        .saturating_add(captures)
        .saturating_add(guards)
}

fn loops_length(place: CodePlace, rows: &[LoopRow]) -> u64
    ensures { result ≡ capped (loops_size (place_of place) rows.now) }
{
    let mut bytes: u64 = 0;
    for row in rows {
        bytes = bytes.saturating_add(loop_length(place, row));
    }
    bytes
}

// Where the first slot begins.
fn slots_at(place: CodePlace, row: &CodeRow) -> u64
    ensures { result ≡ capped (front_size (place_of place) row.now.routine.front) }
{
    front_length(place, &row.routine.front)
}

// Where the first loop begins.
fn loops_at(place: CodePlace, row: &CodeRow) -> u64
    ensures { result ≡ capped (before_loops (place_of place) row.now) }
{
    slots_at(place, row)
        .saturating_add(slots_length(place, row.routine.front.slots.as_slice()))
        .saturating_add(2)
}

// Where the first instruction begins.
fn instrs_at(place: CodePlace, row: &CodeRow) -> u64
    ensures { result ≡ capped (before_instrs (place_of place) row.now) }
{
    loops_at(place, row)
        .saturating_add(loops_length(place, row.loops.as_slice()))
        .saturating_add(4)
}

/// How many bytes the code has.
pub fn code_length(place: CodePlace, row: &CodeRow) -> u64
    ensures { result ≡ capped (code_length (place_of place) row.now) }
{
    instrs_at(place, row).saturating_add(instrs_length(row.routine.instrs.len()))
}

// How many bytes of the code are before a part.
fn before_part(place: CodePlace, row: &CodeRow, part: usize) -> u64
    ensures { result ≡ capped (before_part (place_of place) row.now part) }
{
    if part == 0 {
        return 0;
    }
    let slots = row.routine.front.slots.as_slice();
    if part <= slots.len() {
        return slots_at(place, row).saturating_add(slots_length(place, &slots[..part - 1]));
    }
    let loops = row.loops.as_slice();
    let behind = part - 1 - slots.len();
    if behind < loops.len() {
        return loops_at(place, row).saturating_add(loops_length(place, &loops[..behind]));
    }
    instrs_at(place, row).saturating_add(instrs_length(behind - loops.len()))
}

/// How many bytes of the code are before a part: 0 is the head, then come the slots, the loops and the instructions.
pub fn part_at(place: CodePlace, row: &CodeRow, part: usize) -> u64
    ensures { result ≡ capped (part_at (place_of place) row.now part) }
{
    before_part(place, row, part)
}
