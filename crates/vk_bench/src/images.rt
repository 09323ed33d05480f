// The image of a work.

use crate::works::{CALLER, DOUBLE, Line, Work, X};
use std::alloc::Global;
use vk_code::code::{Body, Code, LoopSite, Slot, SlotArg};
use vk_code::{Instr, Shape};
use vk_image::image_of;
use vk_io::Memory;
use vk_kinds::{CType, Isa, Kind, Param, Params, Target};
use vk_object::{ArrayRow, Entry, EntryKind, Image, ImageTables, LoopTargets};
use vk_types::Ty;

/// A work, its lanes, and how many chunks.
#[derive(Clone, Copy)]
pub struct Size {
    pub work: Work,
    pub lanes: u16,
    pub chunks: u32,
}

const INT: CType = CType::Int(Ty::I32);

const LONG: CType = CType::Int(Ty::I64);

const POINTER: CType = CType::Ptr {
    to: Ty::I32,
    written: true,
};

// The numbers of the entries.
const CHUNK: u32 = 7;

const REST: u32 = 8;

const MAIN: u32 = 6;

fn instructions(alloc: Global, lines: &[Line]) -> Result<Vec<Instr>, Memory> {
    let mut instrs = Vec::new(alloc);
    for (opcode, ty, m, d, a, imm) in lines {
        instrs.push(Instr {
            op: *opcode as u8,
            ty: *ty,
            m: *m,
            d: *d,
            a: *a,
            imm: *imm,
        })?;
    }
    Ok(instrs)
}

fn code(
    alloc: Global,
    lane_code: bool,
    params: u16,
    register: Option<u16>,
    regs: &[CType],
    lines: &[Line],
) -> Result<Code, Memory> {
    Ok(Code {
        lane_code,
        params,
        result: register,
        regs: Vec::from_slice(alloc, regs)?,
        masks: 2,
        slots: Vec::new(alloc),
        loops: Vec::new(alloc),
        instrs: instructions(alloc, lines)?,
    })
}

// A call of one argument.
fn slot(alloc: Global, register: u16, argument: u16) -> Result<Slot, Memory> {
    let argument = SlotArg {
        reg: argument,
        shape: Shape::Vector,
    };
    Ok(Slot {
        function: 1,
        always: true,
        result: Some(register),
        args: vec![in alloc; argument]?,
    })
}

// The program: a simd loop, then the sum of all sums, which it prints.
fn main_code(alloc: Global, size: Size) -> Result<Code, Memory> {
    let iterations = u64::from(size.lanes) * u64::from(size.chunks);
    let lines = main_lines(iterations, u64::from(size.lanes));
    let regs = [LONG, LONG, POINTER, LONG, LONG, LONG, LONG, INT];
    let mut main = code(alloc, false, 0, Some(7), &regs, &lines)?;
    main.loops.push(LoopSite {
        simdlen: None,
        low: 0,
        high: 1,
        captures: vec![in alloc; 2]?,
        guards: Vec::new(alloc),
        body: Body::Number(1),
    })?;
    Ok(main)
}

fn main_lines(iterations: u64, lanes: u64) -> [Line; 14] {
    use vk_code::Opcode::*;
    [
        (Const, 3, 0, 1, 0, iterations),
        (Addr, 0, 0, 2, 0, 0),
        (SimdLoop, 0, 0, 0, 0, 0),
        (Const, 3, 0, 5, 0, lanes),
        (Const, 3, 0, 6, 0, 1),
        (MaskOf, 0, 0, 1, 5, 0),
        (Loop, 0, 1, 0, 0, 6 * X),
        (Load, 0, 1, 7, 2, 0),
        (Convert, 0, 1, 3, 7, 0),
        (Binary, 3, 1, 4, 4, 3),
        (PtrAdd, 0, 1, 2, 2, 6),
        (Binary, 3, 1, 5, 5, 6 + X),
        (MaskOf, 0, 1, 1, 5, 0),
        (Print, 0, 0, 0, 4, 0),
    ]
}

// The codes: main, the body of its loop, two functions that call and one that does not.
fn codes(alloc: Global, size: Size) -> Result<Vec<Code>, Memory> {
    let regs = [LONG, POINTER, LONG, INT, INT, INT, INT];
    let mut body = code(alloc, true, 2, None, &regs, size.work.body())?;
    if size.work == Work::Calls {
        body.slots.push(slot(alloc, 3, 3)?)?;
    }
    let mut caller = code(alloc, true, 1, Some(1), &[INT, INT], &CALLER)?;
    caller.slots.push(slot(alloc, 1, 0)?)?;
    let double = code(alloc, true, 1, Some(1), &[INT, INT], &DOUBLE)?;
    Ok(vec![in alloc; main_code(alloc, size)?, body, caller, double]?)
}

fn entry(
    alloc: Global,
    text: &str,
    kind: EntryKind,
    lanes: u16,
    code: u32,
    target: Option<u32>,
) -> Result<Entry, Memory> {
    let mut params = Params::new();
    if kind == EntryKind::N {
        let own = Param {
            kind: Kind::Vector,
            align: None,
        };
        if params.try_push(own).is_err() {
            return Err(Memory);
        }
    }
    let mut targets = Vec::new(alloc);
    if let Some(target) = target {
        targets.push(target)?;
    }
    Ok(Entry {
        text: Vec::from_slice(alloc, text.as_bytes())?,
        kind,
        lanes,
        code,
        params,
        targets,
        loops: Vec::new(alloc),
    })
}

// The entries: three functions at one lane and at all, main, and the body of its loop.
fn entries(alloc: Global, size: Size) -> Result<Vec<Entry>, Memory> {
    let lanes = size.lanes;
    let calls = size.work == Work::Calls;
    let mut main = entry(alloc, "main", EntryKind::Ordinary, 1, 0, None)?;
    main.loops.push(LoopTargets {
        chunk: CHUNK,
        rest: REST,
    })?;
    let chunk_target = if calls { Some(1) } else { None };
    let rest_target = if calls { Some(0) } else { None };
    Ok(vec![in alloc;
        entry(alloc, "f", EntryKind::Scalar, 1, 2, Some(2))?,
        entry(alloc, "f", EntryKind::N, lanes, 2, Some(3))?,
        entry(alloc, "g", EntryKind::Scalar, 1, 2, Some(4))?,
        entry(alloc, "g", EntryKind::N, lanes, 2, Some(5))?,
        entry(alloc, "h", EntryKind::Scalar, 1, 3, None)?,
        entry(alloc, "h", EntryKind::N, lanes, 3, None)?,
        main,
        entry(
            alloc,
            "main.simd0",
            EntryKind::Chunk,
            lanes,
            1,
            chunk_target
        )?,
        entry(alloc, "main.simd0r", EntryKind::Rest, 1, 1, rest_target)?,
    ]?)
}

/// The image of a work, if it may have so many lanes.
pub fn image_for(alloc: Global, size: Size) -> Result<Option<Image>, Memory> {
    let sums = ArrayRow {
        text: Vec::from_slice(alloc, b"sums")?,
        ty: Ty::I32,
        fixed: false,
        length: 256,
        elements: Vec::new(alloc),
    };
    let tables = ImageTables {
        target: Target::X86,
        isa: Isa::B,
        vl: 0,
        main: Some(MAIN),
        arrays: vec![in alloc; sums]?,
        codes: codes(alloc, size)?,
        entries: entries(alloc, size)?,
    };
    image_of(alloc, tables)
}
