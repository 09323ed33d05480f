// Calls between entries, from lanes 1 to 3 of four: words by kind of parameter, results, stops and counts.

use crate::images::{
    Gave, INT, LONG, Line, MINUS_1, WRITTEN, X, call, code, count, entry, image, slot,
};
use std::alloc::Global;
use std::test::Fail;
use vk_code::Code;
use vk_code::Opcode::*;
use vk_io::Memory;
use vk_kinds::{CType, Kind, Param, Step};
use vk_machine::Machine;
use vk_object::EntryKind;
use vk_types::{Stop, Word};

// Registers 0 and 1 are the arguments, 2 is the result, 3 a long, 4 a pointer, 6 and 7 are ints.
static REGISTERS: [CType; 8] = [INT, INT, INT, LONG, WRITTEN, INT, INT, INT];

// A call of entry 1, of four lanes, or 2, of one, with these kinds of parameters; what it runs; the results, the stops, and how often
// entries 1 and 2 were called. Lane i held 100 + i.
struct Row {
    target: u32,
    kinds: [Kind; 2],
    lines: &'static [Line],
    results: [u64; 4],
    stops: [Option<Stop>; 4],
    calls: [u64; 2],
}

const GOES: [Option<Stop>; 4] = [None; 4];

// The arguments 1, 2, 3, 4 and 0, 10, 20, 30.
static TENS: [Word; 8] = [
    Word(1),
    Word(2),
    Word(3),
    Word(4),
    Word(0),
    Word(10),
    Word(20),
    Word(30),
];

fn param(kind: Kind) -> Param {
    Param { kind, align: None }
}

const OWN: Param = Param {
    kind: Kind::Vector,
    align: None,
};

fn machine(
    alloc: Global,
    target: u32,
    kinds: [Kind; 2],
    caller: Code,
    callee: Code,
) -> Result<Option<Machine>, Memory> {
    let mut f = entry(alloc, "f", EntryKind::M, 4, 0, &[OWN, OWN])?;
    f.targets.push(target)?;
    let g = entry(
        alloc,
        "g",
        EntryKind::M,
        4,
        1,
        &[param(kinds[0]), param(kinds[1])],
    )?;
    let h = entry(alloc, "h", EntryKind::Scalar, 1, 1, &[])?;
    let Some(image) = image(
        alloc,
        None,
        vec![in alloc; caller, callee]?,
        vec![in alloc; f, g, h]?,
    )?
    else {
        return Ok(None);
    };
    Ok(Some(Machine::prepare(alloc, image)?))
}

fn goes(machine: &mut Machine, row: &Row) -> bool {
    let gave = call(machine, 0, [false, true, true, true], &TENS, 5);
    let wanted = Gave {
        results: row.results,
        stops: row.stops,
    };
    gave == Some(wanted)
        && count(machine, 0) == Some(1)
        && count(machine, 1) == Some(row.calls[0])
        && count(machine, 2) == Some(row.calls[1])
}

// A call on both arguments.
fn calls_on_both(alloc: Global, row: &Row) -> Result<bool, Memory> {
    let lines = [(Call, 0, 0, 0, 0, 0)];
    let mut caller = code(alloc, true, 2, Some(2), &REGISTERS, 1, &lines)?;
    caller.slots.push(slot(alloc, 2, 0, 1)?)?;
    let callee = code(alloc, true, 2, Some(2), &REGISTERS, 1, row.lines)?;
    let Some(mut machine) = machine(alloc, row.target, row.kinds, caller, callee)? else {
        return Ok(false);
    };
    Ok(goes(&mut machine, row))
}

// A call on the address of `a` and the first argument, of code that reads an int through its first parameter.
fn calls_on_a_pointer(alloc: Global, row: &Row) -> Result<bool, Memory> {
    let lines = [(Addr, 0, 0, 4, 0, 0), (Call, 0, 0, 0, 0, 0)];
    let mut caller = code(alloc, true, 2, Some(2), &REGISTERS, 1, &lines)?;
    caller.slots.push(slot(alloc, 2, 4, 0)?)?;
    let callee = code(alloc, true, 2, Some(2), &[WRITTEN, INT, INT], 1, row.lines)?;
    let Some(mut machine) = machine(alloc, row.target, row.kinds, caller, callee)? else {
        return Ok(false);
    };
    Ok(goes(&mut machine, row))
}

const OWN_WORDS: [Kind; 2] = [Kind::Vector, Kind::Vector];

static BOTH: [Row; 6] = [
    Row {
        target: 1,
        kinds: OWN_WORDS,
        lines: &[(Binary, 2, 0, 2, 0, 1)],
        results: [100, 12, 23, 34],
        stops: GOES,
        calls: [1, 0],
    },
    // lane 1 is the first live one
    Row {
        target: 1,
        kinds: [Kind::Vector, Kind::Uniform],
        lines: &[(Binary, 2, 0, 2, 0, 1)],
        results: [100, 12, 13, 14],
        stops: GOES,
        calls: [1, 0],
    },
    Row {
        target: 1,
        kinds: [Kind::Vector, Kind::Linear(Step::By(2))],
        lines: &[(Binary, 2, 0, 2, 0, 1)],
        results: [100, 12, 15, 18],
        stops: GOES,
        calls: [1, 0],
    },
    Row {
        target: 1,
        kinds: [Kind::Uniform, Kind::Linear(Step::Arg(0))],
        lines: &[(Binary, 2, 0, 2, 0, 1)],
        results: [100, 12, 14, 16],
        stops: GOES,
        calls: [1, 0],
    },
    Row {
        target: 2,
        kinds: OWN_WORDS,
        lines: &[(Binary, 2, 0, 2, 0, 1)],
        results: [100, 12, 23, 34],
        stops: GOES,
        calls: [0, 3],
    },
    // 20 / (20 - b) stops in lane 2
    Row {
        target: 1,
        kinds: OWN_WORDS,
        lines: &[
            (Const, 2, 0, 6, 0, 20),
            (Binary, 2, 0, 7, 6, 1 + X),
            (Binary, 2, 0, 2, 6, 7 + 3 * X),
        ],
        results: [100, 2, 102, MINUS_1 - 1],
        stops: [None, None, Some(Stop::Divide), None],
        calls: [1, 0],
    },
];

// The number of the first row that is not so, or how many there are.
fn first_wrong(alloc: Global, rows: &[Row], is_pointer: bool) -> Result<usize, Memory> {
    for (number, row) in rows.iter().enumerate() {
        let is = if is_pointer {
            calls_on_a_pointer(alloc, row)?
        } else {
            calls_on_both(alloc, row)?
        };
        if !is {
            return Ok(number);
        }
    }
    Ok(rows.len())
}

#[test]
fn calls_pass_words_by_kind(rt: HostRuntime) -> Result<(), Fail> {
    let first = first_wrong(rt.alloc(), &BOTH, false)?;
    assert!(rt; first == BOTH.len());
    Ok(())
}

static POINTERS: [Row; 2] = [
    // 4 bytes are one element
    Row {
        target: 1,
        kinds: [Kind::Linear(Step::By(4)), Kind::Vector],
        lines: &[(Load, 0, 0, 2, 0, 0)],
        results: [100, 5, 6, 7],
        stops: GOES,
        calls: [1, 0],
    },
    // lane 1 has the step, 2 elements
    Row {
        target: 1,
        kinds: [Kind::Linear(Step::Arg(1)), Kind::Uniform],
        lines: &[(Load, 0, 0, 2, 0, 0)],
        results: [100, 5, 7, 0],
        stops: GOES,
        calls: [1, 0],
    },
];

#[test]
fn pointers_grow_by_elements(rt: HostRuntime) -> Result<(), Fail> {
    let first = first_wrong(rt.alloc(), &POINTERS, true)?;
    assert!(rt; first == POINTERS.len());
    Ok(())
}
