use crate::calls::{ALONG, BACK, BOTH, BY_ARGUMENT, COPY, HEADS, LOOK, ONE, OWN, PUT, SAME, SMALL};
use crate::tables::{
    ALIKE, BACKWARD, COPIES, FOUR_COPIES, FOURS, LINES, LOOKS, PAIRS, PUT_CELLS, PUT_TEXTS, Row,
    SCALARS, SMALLS, STEPS,
};
use std::alloc::{AllocError, Global};
use std::process::Abort;
use vk_apart::call_arguments;
use vk_arguments::{Arguments, Callee, NoArguments};
use vk_ends::CallRule;
use vk_kinds::{CType, Param};
use vk_memory::Memory;
use vk_pointer_texts::Pointers;
use vk_types::Word;

fn label(rule: CallRule) -> &'static str {
    match rule {
        CallRule::A1 => "A1",
        CallRule::A2 => "A2",
        CallRule::A3 => "A3",
        CallRule::A4 => "A4",
        CallRule::A5 => "A5",
    }
}

// A word as text: of a pointer the number of its array and the offset.
fn word_told(alloc: Global, ty: CType, word: Word) -> Result<String, AllocError> {
    match ty {
        CType::Void => String::from_str(alloc, "void"),
        CType::Int(_) => format!(in alloc; "{}", word.0.cast_signed()),
        CType::Ptr { .. } => {
            let offset = ((word.0 % (1 << 32)) as u32).cast_signed();
            format!(in alloc; "{}:{}", word.0 / (1 << 32), offset)
        }
    }
}

// The words of a call, one parameter after another.
fn words_told(alloc: Global, callee: &Callee, arguments: &Arguments) -> Result<String, AllocError> {
    let mut text = String::new(alloc);
    let mut rest = arguments.words.as_slice();
    for ty in callee.types {
        for _ in 0..callee.lanes {
            if let [word, more @ ..] = rest {
                if !text.is_empty() {
                    text.push_str(" ")?;
                }
                let told = word_told(alloc, *ty, *word)?;
                text.push_str(&told)?;
                rest = more;
            }
        }
    }
    Ok(text)
}

// What comes of a call.
fn answer(alloc: Global, callee: &Callee, row: &Row) -> Result<String, Memory> {
    if callee.types.len() > 64 || callee.lanes > 256 {
        return Ok(String::from_str(alloc, "large")?);
    }
    let (bits, line, _) = *row;
    let bits = if bits.is_empty() { None } else { Some(bits) };
    let mut texts = Vec::new(alloc);
    for text in line.split(' ') {
        texts.push(text)?;
    }
    let pointers = Pointers::new(alloc, &HEADS)?;
    match call_arguments(alloc, &pointers, callee, bits, &texts) {
        Ok(arguments) => Ok(words_told(alloc, callee, &arguments)?),
        Err(NoArguments::Refused(fault)) => {
            Ok(format!(in alloc; "{} {} {}", label(fault.rule), fault.first, fault.second)?)
        }
        Err(NoArguments::Memory) => Err(Memory),
    }
}

// Each row of a table has its answer.
fn tells(
    rt: &impl Abort,
    alloc: Global,
    types: &[CType],
    params: &[Param],
    lanes: usize,
    rows: &[Row],
) {
    let callee = Callee {
        types,
        params,
        lanes,
        takes_mask: true,
    };
    for row in rows {
        match answer(alloc, &callee, row) {
            Ok(told) => assert_eq!(rt; told.as_str(), row.2),
            Err(Memory) => assert!(rt; false),
        }
    }
}

#[test]
fn takes_the_texts_of_pointers(rt: HostRuntime) {
    tells(&rt, rt.alloc(), &PUT, &OWN, 2, &PUT_TEXTS);
}

#[test]
fn tells_cells_that_two_lanes_write(rt: HostRuntime) {
    tells(&rt, rt.alloc(), &PUT, &OWN, 2, &PUT_CELLS);
    tells(&rt, rt.alloc(), &BOTH, &OWN, 2, &PAIRS);
    tells(&rt, rt.alloc(), &SMALL, &OWN, 2, &SMALLS);
}

#[test]
fn tells_arrays_that_another_lane_reads(rt: HostRuntime) {
    tells(&rt, rt.alloc(), &COPY, &OWN, 2, &COPIES);
    tells(&rt, rt.alloc(), &COPY, &OWN, 4, &FOUR_COPIES);
    tells(&rt, rt.alloc(), &LOOK, &OWN, 2, &LOOKS);
    tells(&rt, rt.alloc(), &LOOK, &SAME, 2, &ALIKE);
}

#[test]
fn tells_the_least_pair(rt: HostRuntime) {
    tells(&rt, rt.alloc(), &ONE, &OWN, 4, &FOURS);
    tells(&rt, rt.alloc(), &ONE, &OWN, 1, &SCALARS);
}

#[test]
fn follows_linear_pointers(rt: HostRuntime) {
    tells(&rt, rt.alloc(), &PUT, &ALONG, 4, &LINES);
    tells(&rt, rt.alloc(), &ONE, &BACK, 4, &BACKWARD);
    tells(&rt, rt.alloc(), &PUT, &BY_ARGUMENT, 4, &STEPS);
}
