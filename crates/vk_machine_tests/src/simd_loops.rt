// Simd loops of chunks of four iterations.

use crate::images::{
    INT, LONG, Line, MINUS_1, WRITTEN, X, code, count, element, entry, image, run,
};
use std::alloc::Global;
use std::test::Fail;
use vk_code::Opcode;
use vk_code::code::{Body, Code, Guard, LoopSite};
use vk_io::{MemSink, Memory};
use vk_machine::Machine;
use vk_meaning::{Reading, RunFail};
use vk_object::{EntryKind, Image, LoopTargets};
use vk_types::Stop;

// `p[i] = i`, of `long i` and `int *p`
static BODY: [Line; 3] = [
    (Opcode::PtrAdd, 0, 0, 1, 1, 0),
    (Opcode::Convert, 0, 0, 2, 0, 0),
    (Opcode::Store, 0, 0, 0, 1, 2),
];

// Registers 0 and 1 are the bounds, 2 the pointer of the body, 3 the one of the guard. The count is printed behind the loop.
fn main_code(alloc: Global, count: u64, stored: u32, other: u32) -> Result<Code, Memory> {
    let lines = [
        (Opcode::Const, 3, 0, 1, 0, count),
        (Opcode::Addr, 0, 0, 2, 0, u64::from(stored) * X),
        (Opcode::Addr, 0, 0, 3, 0, u64::from(other) * X),
        (Opcode::SimdLoop, 0, 0, 0, 0, 0),
        (Opcode::Print, 0, 0, 0, 1, 0),
    ];
    let mut main = code(
        alloc,
        false,
        0,
        Some(4),
        &[LONG, LONG, WRITTEN, WRITTEN, INT],
        1,
        &lines,
    )?;
    main.loops.push(LoopSite {
        simdlen: None,
        low: 0,
        high: 1,
        captures: vec![in alloc; 2]?,
        guards: vec![in alloc;
            Guard {
                first: 2,
                second: 3
            },
        ]?,
        body: Body::Number(1),
    })?;
    Ok(main)
}

// The image of a program whose `main` stores so many numbers to an array, where another one is guarded.
fn storing(alloc: Global, count: u64, stored: u32, other: u32) -> Result<Option<Image>, Memory> {
    let main = main_code(alloc, count, stored, other)?;
    let body = code(alloc, true, 2, None, &[LONG, WRITTEN, INT], 1, &BODY)?;
    let mut first = entry(alloc, "main", EntryKind::Ordinary, 1, 0, &[])?;
    first.loops.push(LoopTargets { chunk: 1, rest: 2 })?;
    let chunk = entry(alloc, "main.simd0", EntryKind::Chunk, 4, 1, &[])?;
    let rest = entry(alloc, "main.simd0r", EntryKind::Rest, 1, 1, &[])?;
    image(
        alloc,
        Some(0),
        vec![in alloc; main, body]?,
        vec![in alloc; first, chunk, rest]?,
    )
}

// A run: how many numbers are stored, to which array, which one is guarded, how many turns a loop makes, and at which call the sink
// fails. Then how it ends, what is printed, how often the chunk and the rest are called, and the first six elements of the array.
struct Row {
    count: u64,
    stored: u32,
    other: u32,
    turns: u32,
    failing: u64,
    end: Result<Reading, RunFail>,
    text: &'static str,
    calls: [u64; 2],
    elements: [u64; 6],
}

fn goes(alloc: Global, row: &Row) -> Result<bool, Memory> {
    let Some(image) = storing(alloc, row.count, row.stored, row.other)? else {
        return Ok(false);
    };
    let mut out = MemSink::new(alloc, &[row.failing])?;
    let Some(ran) = run(alloc, image, row.turns, &mut out)? else {
        return Ok(false);
    };
    Ok(ran.end == row.end && out.bytes() == row.text.as_bytes() && is_left(&ran.machine, row))
}

fn is_left(machine: &Machine, row: &Row) -> bool {
    for index in 0..6 {
        if element(machine, row.stored as usize, index) != Some(row.elements[index]) {
            return false;
        }
    }
    count(machine, 0) == Some(1)
        && count(machine, 1) == Some(row.calls[0])
        && count(machine, 2) == Some(row.calls[1])
}

fn first_wrong(alloc: Global, rows: &[Row]) -> Result<usize, Memory> {
    for (number, row) in rows.iter().enumerate() {
        if !goes(alloc, row)? {
            return Ok(number);
        }
    }
    Ok(rows.len())
}

const DONE: Result<Reading, RunFail> = Ok(Reading::Done);

static LOOPS: [Row; 8] = [
    // ten iterations are two chunks and two more
    Row {
        count: 10,
        stored: 0,
        other: 1,
        turns: 20,
        failing: 0,
        end: DONE,
        text: "10\n",
        calls: [2, 2],
        elements: [0, 1, 2, 3, 4, 5],
    },
    Row {
        count: 0,
        stored: 0,
        other: 1,
        turns: 20,
        failing: 0,
        end: DONE,
        text: "0\n",
        calls: [0, 0],
        elements: [5, 6, 7, 0, 0, 0],
    },
    Row {
        count: MINUS_1 - 2,
        stored: 0,
        other: 1,
        turns: 20,
        failing: 0,
        end: DONE,
        text: "-3\n",
        calls: [0, 0],
        elements: [5, 6, 7, 0, 0, 0],
    },
    Row {
        count: 3,
        stored: 0,
        other: 1,
        turns: 20,
        failing: 0,
        end: DONE,
        text: "3\n",
        calls: [0, 3],
        elements: [0, 1, 2, 0, 0, 0],
    },
    Row {
        count: 4,
        stored: 0,
        other: 1,
        turns: 20,
        failing: 0,
        end: DONE,
        text: "4\n",
        calls: [1, 0],
        elements: [0, 1, 2, 3, 0, 0],
    },
    // both pointers name one array
    Row {
        count: 10,
        stored: 0,
        other: 0,
        turns: 20,
        failing: 0,
        end: DONE,
        text: "10\n",
        calls: [0, 10],
        elements: [0, 1, 2, 3, 4, 5],
    },
    // lanes 2 and 3 of the second chunk are outside `b`
    Row {
        count: 10,
        stored: 1,
        other: 0,
        turns: 20,
        failing: 0,
        end: Ok(Reading::Stopped(Stop::Bounds)),
        text: "",
        calls: [2, 0],
        elements: [0, 1, 2, 3, 4, 5],
    },
    // five turns: one chunk and one more iteration
    Row {
        count: 10,
        stored: 0,
        other: 1,
        turns: 5,
        failing: 0,
        end: Ok(Reading::Stopped(Stop::Turns)),
        text: "",
        calls: [1, 1],
        elements: [0, 1, 2, 3, 4, 0],
    },
];

#[test]
fn simd_loops_run_in_chunks(rt: HostRuntime) -> Result<(), Fail> {
    let first = first_wrong(rt.alloc(), &LOOPS)?;
    assert!(rt; first == LOOPS.len());
    Ok(())
}

static FAULTS: [Row; 1] = [Row {
    count: 10,
    stored: 0,
    other: 1,
    turns: 20,
    failing: 1,
    end: Err(RunFail::Write),
    text: "",
    calls: [2, 2],
    elements: [0, 1, 2, 3, 4, 5],
}];

#[test]
fn a_sink_that_fails_ends_the_run(rt: HostRuntime) -> Result<(), Fail> {
    let first = first_wrong(rt.alloc(), &FAULTS)?;
    assert!(rt; first == FAULTS.len());
    Ok(())
}
