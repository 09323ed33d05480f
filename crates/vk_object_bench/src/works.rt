// Large objects as bytes.

use std::alloc::Global;
use vk_format::fields::{put_u8, put_u16, put_u32};
use vk_memory::Memory;

/// What there is much of.
#[derive(Clone, Copy)]
pub enum Work {
    Elements,
    Instrs,
    Symbols,
    Directives,
}

// `VKOBJECT`, version 1, x86-64, 0.
const FRONT: &[u8] = b"VKOBJECT\x01\x00\x00\x00";

// A constant 5 into register 0.
const INSTR: &[u8] = b"\x00\x02\x00\x00\x00\x00\x00\x00\x05\x00\x00\x00\x00\x00\x00\x00";

// A symbol `a`.
fn one_symbol(alloc: Global) -> Result<Vec<u8>, Memory> {
    let mut out = Vec::from_slice(alloc, FRONT)?;
    put_u32(&mut out, 1)?;
    put_u16(&mut out, 1)?;
    put_u8(&mut out, b'a')?;
    Ok(out)
}

// An object of file scope, before its elements.
fn put_object(
    out: &mut Vec<u8>,
    symbol: u32,
    flags: u8,
    length: u32,
    given: u32,
) -> Result<(), Memory> {
    put_u32(out, symbol)?;
    put_u8(out, 4)?;
    put_u8(out, flags)?;
    put_u32(out, length)?;
    put_u32(out, given)
}

fn elements(alloc: Global, count: u32) -> Result<Vec<u8>, Memory> {
    let mut out = one_symbol(alloc)?;
    put_u32(&mut out, 1)?;
    put_object(&mut out, 0, 2, count, count)?;
    for _ in 0..count {
        put_u8(&mut out, 1)?;
    }
    put_u32(&mut out, 0)?;
    Ok(out)
}

// A function without parameters and result up to the instructions of its code, which has one register and one mask.
fn put_function(out: &mut Vec<u8>) -> Result<(), Memory> {
    put_u32(out, 0)?;
    put_u8(out, 255)?;
    put_u8(out, 0)?;
    put_u16(out, 0)?;
    put_u8(out, 1)?;
    put_u8(out, 1)?;
    put_u16(out, 65535)?;
    put_u16(out, 1)?;
    put_u8(out, 2)?;
    put_u16(out, 1)?;
    put_u16(out, 0)?;
    put_u16(out, 0)
}

fn instrs(alloc: Global, count: u32) -> Result<Vec<u8>, Memory> {
    let mut out = one_symbol(alloc)?;
    put_u32(&mut out, 0)?;
    put_u32(&mut out, 1)?;
    put_function(&mut out)?;
    put_u32(&mut out, count)?;
    for _ in 0..count {
        out.extend_from_slice(INSTR)?;
    }
    Ok(out)
}

// A text of six letters by its number; texts ascend with their numbers.
fn put_text(out: &mut Vec<u8>, number: u32) -> Result<(), Memory> {
    put_u16(out, 6)?;
    for worth in [11881376, 456976, 17576, 676, 26, 1] {
        let letter = number / worth % 26;
        put_u8(out, b'a' + letter as u8)?;
    }
    Ok(())
}

fn symbols(alloc: Global, count: u32) -> Result<Vec<u8>, Memory> {
    let mut out = Vec::from_slice(alloc, FRONT)?;
    put_u32(&mut out, count)?;
    for number in 0..count {
        put_text(&mut out, number)?;
    }
    put_u32(&mut out, count)?;
    for number in 0..count {
        put_object(&mut out, number, 0, 1, 0)?;
    }
    put_u32(&mut out, 0)?;
    Ok(out)
}

// A function of one number that is declared only, with directives of different steps.
fn directives(alloc: Global, count: u32) -> Result<Vec<u8>, Memory> {
    let count = (count % 65536) as u16;
    let mut out = one_symbol(alloc)?;
    put_u32(&mut out, 0)?;
    put_u32(&mut out, 1)?;
    put_u32(&mut out, 0)?;
    put_u8(&mut out, 255)?;
    put_u8(&mut out, 1)?;
    put_u8(&mut out, 2)?;
    put_u16(&mut out, count)?;
    for number in 0..count {
        put_u8(&mut out, 2)?;
        put_u16(&mut out, 4)?;
        put_u8(&mut out, 2)?;
        put_u32(&mut out, u32::from(number) + 1)?;
        put_u32(&mut out, 0)?;
    }
    put_u8(&mut out, 0)?;
    Ok(out)
}

impl Work {
    /// The work with this name.
    pub fn named(name: &str) -> Option<Work> {
        match name {
            "elements" => Some(Work::Elements),
            "instrs" => Some(Work::Instrs),
            "symbols" => Some(Work::Symbols),
            "directives" => Some(Work::Directives),
            _ => None,
        }
    }

    /// The bytes of the object.
    pub fn bytes(self, alloc: Global, count: u32) -> Result<Vec<u8>, Memory> {
        match self {
            Work::Elements => elements(alloc, count),
            Work::Instrs => instrs(alloc, count),
            Work::Symbols => symbols(alloc, count),
            Work::Directives => directives(alloc, count),
        }
    }
}
