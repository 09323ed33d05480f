use crate::tables::{GEN, LANES, MANGLE_AND_CLONE, READ_AND_ALL};
use std::alloc::{AllocError, Global};
use std::test::Fail;
use vk_io::{Memory, Words};
use vk_kinds::{Isa, Target};
use vk_words::MangleRequest;
use vk_words::mangle::mangle_of;
use vk_words::matching::NoRequest;
use vk_words_units::{
    CloneRequest, GenRequest, LanesRequest, UnitsRequest, clone_of, gen_of, lanes_of, units_of,
};

// The words of a text.
fn split(alloc: Global, text: &str) -> Result<Words, Memory> {
    let mut words = Words::new(alloc);
    for word in text.split(' ') {
        words.push(word)?;
    }
    Ok(words)
}

fn label(fail: NoRequest) -> &'static str {
    match fail {
        NoRequest::Refused => "P3",
        NoRequest::Unstated => "P4",
        NoRequest::Memory => "no memory",
    }
}

fn target_word(target: Target) -> &'static str {
    match target {
        Target::X86 => "X86",
        Target::Arm => "Arm",
    }
}

fn letter(isa: Isa) -> &'static str {
    match isa {
        Isa::B => "B",
        Isa::C => "C",
        Isa::D => "D",
        Isa::E => "E",
        Isa::N => "N",
        Isa::S => "S",
    }
}

fn mangle_told(
    alloc: Global,
    read: Result<MangleRequest, NoRequest>,
) -> Result<String, AllocError> {
    match read {
        Ok(request) => { format!(in alloc; "{} {}", target_word(request.target), request.unit) }
        Err(fail) => String::from_str(alloc, label(fail)),
    }
}

fn clone_told(alloc: Global, read: Result<CloneRequest, NoRequest>) -> Result<String, AllocError> {
    match read {
        Ok(request) => {
            format!(in alloc;
                "{} {} {}",
                target_word(request.target),
                request.object,
                request.unit
            )
        }
        Err(fail) => String::from_str(alloc, label(fail)),
    }
}

// The vector length is 0 where none is asked.
fn units_told(alloc: Global, read: Result<UnitsRequest, NoRequest>) -> Result<String, AllocError> {
    match read {
        Ok(request) => {
            let vl = request.vl.unwrap_or(0);
            let mut text = format!(in alloc; "{} {} {}", letter(request.isa), vl, request.turns)?;
            for unit in &request.units {
                write!(text, " {unit}")?;
            }
            Ok(text)
        }
        Err(fail) => String::from_str(alloc, label(fail)),
    }
}

fn gen_told(alloc: Global, read: Result<GenRequest, NoRequest>) -> Result<String, AllocError> {
    match read {
        Ok(request) => {
            let vl = request.vl.unwrap_or(0);
            format!(in alloc; "{} {} {}", letter(request.isa), vl, request.functions)
        }
        Err(fail) => String::from_str(alloc, label(fail)),
    }
}

// The mask is `all` where none is asked.
fn lanes_told(alloc: Global, read: Result<LanesRequest, NoRequest>) -> Result<String, AllocError> {
    match read {
        Ok(request) => {
            let mask = request.mask.unwrap_or("all");
            let (unit, name) = (request.unit, request.name);
            let mut text = format!(in alloc;
                "{} {mask} {} {unit} {name}",
                letter(request.isa),
                request.turns
            )?;
            for argument in &request.arguments {
                write!(text, " {argument}")?;
            }
            Ok(text)
        }
        Err(fail) => String::from_str(alloc, label(fail)),
    }
}

// What was read of words, as the tables have it.
fn told(alloc: Global, words: &[String]) -> Result<String, AllocError> {
    let Some(first) = words.first() else {
        return String::from_str(alloc, "no word");
    };
    match first.as_str() {
        "mangle" => mangle_told(alloc, mangle_of(alloc, words)),
        "clone" => clone_told(alloc, clone_of(alloc, words)),
        "gen" => gen_told(alloc, gen_of(alloc, words)),
        "lanes" => lanes_told(alloc, lanes_of(alloc, words)),
        name => units_told(alloc, units_of(alloc, name, words)),
    }
}

// The first row whose words are read otherwise.
fn other(alloc: Global, rows: &[(&'static str, &'static str)]) -> Result<&'static str, Fail> {
    for (text, want) in rows {
        let words = split(alloc, text)?;
        let found = told(alloc, words.texts())?;
        if found.as_str() != *want {
            return Ok(text);
        }
    }
    Ok("none")
}

#[test]
fn words_of_mangle_and_clone(rt: HostRuntime) -> Result<(), Fail> {
    assert_eq!(rt; other(rt.alloc(), &MANGLE_AND_CLONE)?, "none");
    Ok(())
}

#[test]
fn words_of_read_and_all(rt: HostRuntime) -> Result<(), Fail> {
    assert_eq!(rt; other(rt.alloc(), &READ_AND_ALL)?, "none");
    Ok(())
}

#[test]
fn words_of_gen(rt: HostRuntime) -> Result<(), Fail> {
    assert_eq!(rt; other(rt.alloc(), &GEN)?, "none");
    Ok(())
}

#[test]
fn words_of_lanes(rt: HostRuntime) -> Result<(), Fail> {
    assert_eq!(rt; other(rt.alloc(), &LANES)?, "none");
    Ok(())
}
