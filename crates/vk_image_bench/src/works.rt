// Large images as bytes.

use std::alloc::Global;
use vk_format::fields::{put_u8, put_u16, put_u32};
use vk_memory::Memory;

/// What there is much of.
#[derive(Clone, Copy)]
pub enum Work {
    Elements,
    Instrs,
    Entries,
    Functions,
    All,
}

// How much there is of each: elements of the one array, codes and the instructions of each, entries beside `main`.
#[derive(Clone, Copy)]
struct Parts {
    elements: u32,
    codes: u32,
    instrs: u32,
    entries: u32,
}

// `VKLINKED`, version 1, x86-64, `b`, no vector length.
const FRONT: &[u8] = b"VKLINKED\x01\x00\x00b\x00\x00";

// A code without parameters up to its instructions: it has one register, an int, which is its result, and one mask.
const CODE: &[u8] = b"\x00\x00\x00\x00\x00\x01\x00\x02\x01\x00\x00\x00\x00\x00";

// A constant 5 into register 0.
const INSTR: &[u8] = b"\x00\x02\x00\x00\x00\x00\x00\x00\x05\x00\x00\x00\x00\x00\x00\x00";

// One array `a` of ints that are all given.
fn put_arrays(out: &mut Vec<u8>, elements: u32) -> Result<(), Memory> {
    put_u32(out, 1)?;
    put_u16(out, 1)?;
    put_u8(out, b'a')?;
    put_u8(out, 2)?;
    put_u8(out, 0)?;
    put_u32(out, elements)?;
    put_u32(out, elements)?;
    for _ in 0..elements {
        put_u32(out, 1)?;
    }
    Ok(())
}

fn put_code(out: &mut Vec<u8>, instrs: u32) -> Result<(), Memory> {
    out.extend_from_slice(CODE)?;
    put_u32(out, instrs)?;
    for _ in 0..instrs {
        out.extend_from_slice(INSTR)?;
    }
    Ok(())
}

fn put_codes(out: &mut Vec<u8>, codes: u32, instrs: u32) -> Result<(), Memory> {
    put_u32(out, codes)?;
    for _ in 0..codes {
        put_code(out, instrs)?;
    }
    Ok(())
}

// A text of `f` and six letters by its number; texts ascend with their numbers.
fn put_text(out: &mut Vec<u8>, number: u32) -> Result<(), Memory> {
    put_u16(out, 7)?;
    put_u8(out, b'f')?;
    for worth in [11881376, 456976, 17576, 676, 26, 1] {
        let letter = number / worth % 26;
        put_u8(out, b'a' + letter as u8)?;
    }
    Ok(())
}

// What an ordinary entry has behind its text.
fn put_entry(out: &mut Vec<u8>, code: u32) -> Result<(), Memory> {
    put_u8(out, 0)?;
    put_u16(out, 1)?;
    put_u32(out, code)
}

// An entry of each code, further ones of the first code, and `main`.
fn put_entries(out: &mut Vec<u8>, entries: u32, codes: u32) -> Result<(), Memory> {
    put_u32(out, entries.saturating_add(1))?;
    for number in 0..entries {
        put_text(out, number)?;
        put_entry(out, if number < codes { number } else { 0 })?;
    }
    put_u16(out, 4)?;
    out.extend_from_slice(b"main")?;
    put_entry(out, 0)
}

impl Parts {
    fn bytes(self, alloc: Global) -> Result<Vec<u8>, Memory> {
        let mut out = Vec::from_slice(alloc, FRONT)?;
        put_u32(&mut out, self.entries)?;
        put_arrays(&mut out, self.elements)?;
        put_codes(&mut out, self.codes, self.instrs)?;
        put_entries(&mut out, self.entries, self.codes)?;
        Ok(out)
    }
}

impl Work {
    /// The work with this name.
    pub fn named(name: &str) -> Option<Work> {
        match name {
            "elements" => Some(Work::Elements),
            "instrs" => Some(Work::Instrs),
            "entries" => Some(Work::Entries),
            "functions" => Some(Work::Functions),
            "all" => Some(Work::All),
            _ => None,
        }
    }

    // The parts of so much work.
    fn parts(self, count: u32) -> Parts {
        let small = Parts {
            elements: 1,
            codes: 1,
            instrs: 1,
            entries: 0,
        };
        match self {
            Work::Elements => Parts {
                elements: count,
                ..small
            },
            Work::Instrs => Parts {
                instrs: count,
                ..small
            },
            Work::Entries => Parts {
                entries: count,
                ..small
            },
            Work::Functions => Parts {
                codes: count,
                entries: count,
                ..small
            },
            Work::All => Parts {
                elements: count,
                instrs: count,
                entries: count,
                ..small
            },
        }
    }

    /// The bytes of the image.
    pub fn bytes(self, alloc: Global, count: u32) -> Result<Vec<u8>, Memory> {
        self.parts(count).bytes(alloc)
    }
}
