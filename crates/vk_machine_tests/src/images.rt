// Small images with the arrays `int a[12] = {5, 6, 7}` and `int b[6]`.

use std::alloc::Global;
use vk_code::code::{Code, Slot, SlotArg};
use vk_code::{Instr, Opcode, Shape};
use vk_image::image_of;
use vk_io::{MemSink, Memory};
use vk_kinds::{CType, Isa, Param, Params, Target};
use vk_lanes::LaneMask;
use vk_machine::Machine;
use vk_meaning::{Reading, RunFail};
use vk_object::{ArrayRow, Entry, EntryKind, Image, ImageTables};
use vk_types::{Stop, Ty, Word};

/// An instruction: its name, the number of a type, a mask, the register or mask that it writes, its first operand and its immediate.
pub type Line = (Opcode, u8, u16, u16, u16, u64);

/// The part x of an immediate.
pub const X: u64 = 1 << 32;

/// The pattern of -1, that of -n being n - 1 less.
pub const MINUS_1: u64 = u64::MAX;

/// A pointer to elements of this type that may be written.
pub const WRITTEN: CType = CType::Ptr {
    to: Ty::I32,
    written: true,
};

/// An `int`, a `long` and an `unsigned char`.
pub const INT: CType = CType::Int(Ty::I32);

pub const LONG: CType = CType::Int(Ty::I64);

pub const BYTE: CType = CType::Int(Ty::U8);

// Instructions of these lines.
fn instructions(alloc: Global, lines: &[Line]) -> Result<Vec<Instr>, Memory> {
    let mut instrs = Vec::new(alloc);
    for (opcode, ty, m, d, a, imm) in lines {
        instrs.push(Instr {
            op: *opcode as u8,
            ty: *ty,
            m: *m,
            d: *d,
            a: *a,
            imm: *imm,
        })?;
    }
    Ok(instrs)
}

/// Code without calls and simd loops.
pub fn code(
    alloc: Global,
    lane_code: bool,
    params: u16,
    register: Option<u16>,
    regs: &[CType],
    masks: u16,
    lines: &[Line],
) -> Result<Code, Memory> {
    Ok(Code {
        lane_code,
        params,
        result: register,
        regs: Vec::from_slice(alloc, regs)?,
        masks,
        slots: Vec::new(alloc),
        loops: Vec::new(alloc),
        instrs: instructions(alloc, lines)?,
    })
}

/// A call whose result goes into a register, of two arguments in these registers.
pub fn slot(alloc: Global, register: u16, first: u16, second: u16) -> Result<Slot, Memory> {
    let first = SlotArg {
        reg: first,
        shape: Shape::Vector,
    };
    let second = SlotArg {
        reg: second,
        shape: Shape::Vector,
    };
    Ok(Slot {
        function: 2,
        always: true,
        result: Some(register),
        args: vec![in alloc; first, second]?,
    })
}

/// An entry without calls.
pub fn entry(
    alloc: Global,
    text: &str,
    kind: EntryKind,
    lanes: u16,
    code: u32,
    params: &[Param],
) -> Result<Entry, Memory> {
    let mut kinds = Params::new();
    for param in params {
        if kinds.try_push(*param).is_err() {
            return Err(Memory);
        }
    }
    Ok(Entry {
        text: Vec::from_slice(alloc, text.as_bytes())?,
        kind,
        lanes,
        code,
        params: kinds,
        targets: Vec::new(alloc),
        loops: Vec::new(alloc),
    })
}

fn array(alloc: Global, text: &str, length: u32, elements: &[Word]) -> Result<ArrayRow, Memory> {
    Ok(ArrayRow {
        text: Vec::from_slice(alloc, text.as_bytes())?,
        ty: Ty::I32,
        fixed: false,
        length,
        elements: Vec::from_slice(alloc, elements)?,
    })
}

/// The image with this code, if the tables are those of an image.
pub fn image(
    alloc: Global,
    main: Option<u32>,
    codes: Vec<Code>,
    entries: Vec<Entry>,
) -> Result<Option<Image>, Memory> {
    let a = array(alloc, "a", 12, &[Word(5), Word(6), Word(7)])?;
    let b = array(alloc, "b", 6, &[])?;
    let tables = ImageTables {
        target: Target::X86,
        isa: Isa::B,
        vl: 0,
        main,
        arrays: vec![in alloc; a, b]?,
        codes,
        entries,
    };
    image_of(alloc, tables)
}

/// A machine after the run of its program, and how it ended.
#[derive(Drop)]
pub struct Ran {
    pub machine: Machine,
    pub end: Result<Reading, RunFail>,
}

/// Runs the program of an image, if it has one.
pub fn run(
    alloc: Global,
    image: Image,
    turns: u32,
    out: &mut MemSink,
) -> Result<Option<Ran>, Memory> {
    if image.main.is_none() {
        return Ok(None);
    }
    let mut machine = Machine::prepare(alloc, image)?;
    let end = machine.run(turns, out);
    Ok(Some(Ran { machine, end }))
}

/// How often an entry was called.
pub fn count(machine: &Machine, entry: usize) -> Option<u64> {
    if entry >= machine.image().entries.len() {
        return None;
    }
    Some(machine.stats(entry))
}

/// An element of an array.
pub fn element(machine: &Machine, array: usize, index: usize) -> Option<u64> {
    let row = machine.image().arrays.get(array)?;
    if index >= row.length as usize {
        return None;
    }
    Some(machine.cell(array, index).0)
}

/// What a call in four lanes gave.
#[derive(Clone, Copy, PartialEq, Eq, Debug)]
pub struct Gave {
    pub results: [u64; 4],
    pub stops: [Option<Stop>; 4],
}

/// Calls an entry in four lanes, of which these are on, where lane i held 100 + i; `None` where it does not take the words.
pub fn call(
    machine: &mut Machine,
    entry: usize,
    on: [bool; 4],
    args: &[Word],
    turns: u32,
) -> Option<Gave> {
    let mut mask = LaneMask::new(4);
    mask.set(0, on[0]);
    mask.set(1, on[1]);
    mask.set(2, on[2]);
    mask.set(3, on[3]);
    if !machine.takes(entry, 4, args) {
        return None;
    }
    let mut results = [Word(100), Word(101), Word(102), Word(103)];
    let mut stops = [Some(Stop::Turns); 4];
    machine.call(entry, &mask, args, &mut results, &mut stops, turns);
    Some(Gave {
        results: [results[0].0, results[1].0, results[2].0, results[3].0],
        stops,
    })
}
