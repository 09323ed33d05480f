// One code in four lanes, of which lane 2 is off: each operation, masks and loops.

use crate::images::{
    BYTE, Gave, INT, LONG, Line, MINUS_1, WRITTEN, X, call, code, element, entry, image,
};
use std::alloc::Global;
use std::test::Fail;
use vk_code::Opcode::*;
use vk_io::Memory;
use vk_kinds::{CType, Kind, Param};
use vk_machine::Machine;
use vk_object::EntryKind;
use vk_types::{Stop, Word};

// Registers 0 and 1 are the arguments, 2 is the result, 3 a long, 4 a pointer, 5 a byte, 6 and 7 are ints.
static REGISTERS: [CType; 8] = [INT, INT, INT, LONG, WRITTEN, BYTE, INT, INT];

const OWN: Param = Param {
    kind: Kind::Vector,
    align: None,
};

// What code does on the arguments 1, 2, 3, 4 and 2, 0, 3, 0, where a loop makes at most 5 turns.
struct Row {
    lines: &'static [Line],
    results: [u64; 4],
    stops: [Option<Stop>; 4],
}

const GOES: [Option<Stop>; 4] = [None; 4];

fn machine(alloc: Global, lines: &[Line]) -> Result<Option<Machine>, Memory> {
    let f = code(alloc, true, 2, Some(2), &REGISTERS, 3, lines)?;
    let of_f = entry(alloc, "f", EntryKind::M, 4, 0, &[OWN, OWN])?;
    let Some(image) = image(alloc, None, vec![in alloc; f]?, vec![in alloc; of_f]?)? else {
        return Ok(None);
    };
    Ok(Some(Machine::prepare(alloc, image)?))
}

static ARGUMENTS: [Word; 8] = [
    Word(1),
    Word(2),
    Word(3),
    Word(4),
    Word(2),
    Word(0),
    Word(3),
    Word(0),
];

fn gives(alloc: Global, row: &Row) -> Result<bool, Memory> {
    let Some(mut machine) = machine(alloc, row.lines)? else {
        return Ok(false);
    };
    let gave = call(&mut machine, 0, [true, true, false, true], &ARGUMENTS, 5);
    let wanted = Gave {
        results: row.results,
        stops: row.stops,
    };
    Ok(gave == Some(wanted))
}

// The number of the first row that is not so, or how many there are.
fn first_wrong(alloc: Global, rows: &[Row]) -> Result<usize, Memory> {
    for (number, row) in rows.iter().enumerate() {
        if !gives(alloc, row)? {
            return Ok(number);
        }
    }
    Ok(rows.len())
}

static OPERATIONS: [Row; 10] = [
    // constants, copies
    Row {
        lines: &[(Const, 2, 0, 2, 0, 7)],
        results: [7, 7, 102, 7],
        stops: GOES,
    },
    Row {
        lines: &[(Copy, 0, 0, 2, 0, 0)],
        results: [1, 2, 102, 4],
        stops: GOES,
    },
    // 300 as a byte
    Row {
        lines: &[
            (Const, 3, 0, 3, 0, 300),
            (Convert, 0, 0, 5, 3, 0),
            (Convert, 0, 0, 2, 5, 0),
        ],
        results: [44, 44, 102, 44],
        stops: GOES,
    },
    // a - b, a / b, and nothing more where that stopped
    Row {
        lines: &[(Binary, 2, 0, 2, 0, 1 + X)],
        results: [MINUS_1, 2, 102, 4],
        stops: GOES,
    },
    Row {
        lines: &[(Binary, 2, 0, 2, 0, 1 + 3 * X)],
        results: [0, 101, 102, 103],
        stops: [None, Some(Stop::Divide), None, Some(Stop::Divide)],
    },
    Row {
        lines: &[(Binary, 2, 0, 2, 0, 1 + 3 * X), (Const, 2, 0, 2, 0, 9)],
        results: [9, 101, 102, 103],
        stops: [None, Some(Stop::Divide), None, Some(Stop::Divide)],
    },
    // b < a, -a
    Row {
        lines: &[(Compare, 2, 0, 2, 1, 2 * X)],
        results: [0, 1, 102, 1],
        stops: GOES,
    },
    Row {
        lines: &[(Unary, 2, 0, 2, 0, 0)],
        results: [MINUS_1, MINUS_1 - 1, 102, MINUS_1 - 3],
        stops: GOES,
    },
    // the lane's number, and a at it
    Row {
        lines: &[(Lane, 0, 0, 3, 0, 0), (Convert, 0, 0, 2, 3, 0)],
        results: [0, 1, 102, 3],
        stops: GOES,
    },
    Row {
        lines: &[
            (Lane, 0, 0, 3, 0, 0),
            (Addr, 0, 0, 4, 0, 0),
            (PtrAdd, 0, 0, 4, 4, 3),
            (Load, 0, 0, 2, 4, 0),
        ],
        results: [5, 6, 102, 0],
        stops: GOES,
    },
];

#[test]
fn operations_act_in_lanes_that_are_on(rt: HostRuntime) -> Result<(), Fail> {
    let first = first_wrong(rt.alloc(), &OPERATIONS)?;
    assert!(rt; first == OPERATIONS.len());
    Ok(())
}

const OUT: Option<Stop> = Some(Stop::Bounds);

static BOUNDS: [Row; 2] = [
    // b[3 * n] for n = 1, 2 and 4
    Row {
        lines: &[
            (Const, 2, 0, 6, 0, 3),
            (Binary, 2, 0, 7, 0, 6 + 2 * X),
            (Addr, 0, 0, 4, 0, X),
            (PtrAdd, 0, 0, 4, 4, 7),
            (Load, 0, 0, 2, 4, 0),
        ],
        results: [0, 101, 102, 103],
        stops: [None, OUT, None, OUT],
    },
    // an offset of 2 ^ 31
    Row {
        lines: &[
            (Const, 3, 0, 3, 0, 1 << 31),
            (Addr, 0, 0, 4, 0, 0),
            (PtrAdd, 0, 0, 4, 4, 3),
        ],
        results: [100, 101, 102, 103],
        stops: [OUT, OUT, None, OUT],
    },
];

#[test]
fn accesses_outside_stop(rt: HostRuntime) -> Result<(), Fail> {
    let first = first_wrong(rt.alloc(), &BOUNDS)?;
    assert!(rt; first == BOUNDS.len());
    Ok(())
}

// Mask 1 has the live lanes whose second argument is not 0.
static MASKS: [Row; 4] = [
    Row {
        lines: &[(MaskOf, 0, 0, 1, 1, 0), (Const, 2, 1, 2, 0, 9)],
        results: [9, 0, 102, 0],
        stops: GOES,
    },
    Row {
        lines: &[
            (MaskOf, 0, 0, 1, 1, 0),
            (MaskBut, 0, 0, 2, 0, 1),
            (Const, 2, 2, 2, 0, 9),
        ],
        results: [0, 9, 102, 9],
        stops: GOES,
    },
    Row {
        lines: &[
            (MaskOf, 0, 0, 1, 1, 0),
            (MaskAnd, 0, 0, 2, 0, 1),
            (Const, 2, 2, 2, 0, 9),
        ],
        results: [9, 0, 102, 0],
        stops: GOES,
    },
    Row {
        lines: &[
            (MaskOf, 0, 0, 1, 1, 0),
            (MaskBut, 0, 0, 2, 0, 1),
            (MaskOr, 0, 0, 2, 1, 2),
            (Const, 2, 2, 2, 0, 9),
        ],
        results: [9, 9, 102, 9],
        stops: GOES,
    },
];

#[test]
fn masks_choose_lanes(rt: HostRuntime) -> Result<(), Fail> {
    let first = first_wrong(rt.alloc(), &MASKS)?;
    assert!(rt; first == MASKS.len());
    Ok(())
}

// n + .. + 1, while n is not 0.
static LOOPS: [Row; 2] = [
    Row {
        lines: &[
            (Const, 2, 0, 6, 0, 1),
            (MaskOf, 0, 0, 1, 0, 0),
            (Loop, 0, 1, 0, 0, 3 * X),
            (Binary, 2, 1, 2, 2, 0),
            (Binary, 2, 1, 0, 0, 6 + X),
            (MaskOf, 0, 1, 1, 0, 0),
        ],
        results: [1, 3, 102, 10],
        stops: GOES,
    },
    // from n + 3 on, lane 3 would make two turns more than the five that it may
    Row {
        lines: &[
            (Const, 2, 0, 6, 0, 1),
            (Const, 2, 0, 7, 0, 3),
            (Binary, 2, 0, 0, 0, 7),
            (MaskOf, 0, 0, 1, 0, 0),
            (Loop, 0, 1, 0, 0, 3 * X),
            (Binary, 2, 1, 2, 2, 0),
            (Binary, 2, 1, 0, 0, 6 + X),
            (MaskOf, 0, 1, 1, 0, 0),
        ],
        results: [10, 15, 102, 103],
        stops: [None, None, None, Some(Stop::Turns)],
    },
];

#[test]
fn loops_go_on_while_a_lane_is_on(rt: HostRuntime) -> Result<(), Fail> {
    let first = first_wrong(rt.alloc(), &LOOPS)?;
    assert!(rt; first == LOOPS.len());
    Ok(())
}
