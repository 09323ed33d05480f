use std::alloc::{AllocError, Global};
use std::test::Fail;
use vk_io::{Memory, Words};
use vk_kinds::{Isa, Target};
use vk_requests::{Request, WordFail, request_of};

// Words, separated by blanks, and what they ask: the command with its values, or the rule that they break.
static DEMANGLE: [(&str, &str); 22] = [
    ("demangle f", "demangle f"),
    ("demangle -", "demangle -"),
    ("demangle -- f", "demangle f"),
    ("demangle -- -f", "demangle -f"),
    ("demangle -- --", "demangle --"),
    ("demangle f --", "demangle f"),
    ("demangle lanes", "demangle lanes"),
    ("demangle demangle", "demangle demangle"),
    ("demangle", "P3"),
    ("demangle --", "P3"),
    ("demangle f g", "P3"),
    ("demangle -- f g", "P3"),
    ("demangle -f", "P3"),
    ("demangle --file f", "P3"),
    ("demangle f --isa b", "P3"),
    ("demangle --isa=b f", "P3"),
    ("demangle -h", "P3"),
    ("demangle --help", "P3"),
    ("demangle -V", "P3"),
    ("demangle --version", "P3"),
    ("demangle help", "demangle help"),
    ("demangle -5", "P3"),
];

static LANES: [(&str, &str); 39] = [
    ("lanes --isa b u n", "lanes b u n"),
    ("lanes --isa=b u n", "lanes b u n"),
    ("lanes u --isa b n", "lanes b u n"),
    ("lanes u n --isa b", "lanes b u n"),
    ("lanes u n --isa=b", "lanes b u n"),
    ("lanes --isa b u n 1", "lanes b u n 1"),
    ("lanes --isa b u n 1 2", "lanes b u n 1 2"),
    ("lanes u n 1 --isa b 2", "lanes b u n 1 2"),
    ("lanes u n 1 2 --isa=b", "lanes b u n 1 2"),
    ("lanes --isa b -- u n 1", "lanes b u n 1"),
    ("lanes --isa b u n -- -1 2", "lanes b u n -1 2"),
    ("lanes --isa b u n -- 1 -2,-3", "lanes b u n 1 -2,-3"),
    ("lanes --isa b u -- -n", "lanes b u -n"),
    ("lanes --isa b u n -- --isa b", "lanes b u n --isa b"),
    ("lanes --isa b u n -", "lanes b u n -"),
    ("lanes --isa b - n", "lanes b - n"),
    ("lanes --isa b u n -- --", "lanes b u n --"),
    ("lanes --isa c u n", "lanes c u n"),
    (
        "lanes --isa n u n 1 --mask 01 --turns 5",
        "lanes n u n 1 mask 01 turns 5",
    ),
    ("lanes --isa s u n", "P4"),
    ("lanes --isa B u n", "P4"),
    ("lanes --isa bb u n", "P4"),
    ("lanes --isa= u n", "P4"),
    ("lanes --isa - u n", "P4"),
    ("lanes", "P3"),
    ("lanes u n", "P3"),
    ("lanes --isa b", "P3"),
    ("lanes --isa b u", "P3"),
    ("lanes --isa", "P3"),
    ("lanes u n --isa", "P3"),
    ("lanes --isa b --isa b u n", "P3"),
    ("lanes --isa=b u n --isa b", "P3"),
    ("lanes --isa c --isa b u n", "P3"),
    ("lanes --isa b u n -1", "P3"),
    ("lanes --isa b --mask 1111 u n", "lanes b u n mask 1111"),
    ("lanes --isa b --turns=5 u n", "lanes b u n turns 5"),
    ("lanes --isa b --vl 128 u n", "P3"),
    ("lanes -- --isa b u n", "P3"),
    ("lanes --is b u n", "P3"),
];

static OTHERS: [(&str, &str); 16] = [
    ("", "P1"),
    ("frob", "P2"),
    ("Lanes --isa b u n", "P2"),
    ("--isa b lanes u n", "P2"),
    ("demangl f", "P2"),
    ("demangles f", "P2"),
    ("help", "P2"),
    ("--help", "P2"),
    ("mangle --target x86-64 u", "mangle x86-64 u"),
    ("clone --target x86-64 -o o u", "P2"),
    ("link --isa b -o i o", "P2"),
    ("run i", "P2"),
    ("call i n 1", "P2"),
    ("read --isa b u", "P2"),
    ("all --isa b u", "P2"),
    ("gen --isa b 5", "P2"),
];

// The words of a text, none where it is empty.
fn split(alloc: Global, text: &str) -> Result<Words, Memory> {
    let mut words = Words::new(alloc);
    for word in text.split(' ') {
        if !word.is_empty() {
            words.push(word)?;
        }
    }
    Ok(words)
}

fn target_word(target: Target) -> &'static str {
    match target {
        Target::X86 => "x86-64",
        Target::Arm => "aarch64",
    }
}

fn letter_word(isa: Isa) -> &'static str {
    match isa {
        Isa::B => "b",
        Isa::C => "c",
        Isa::D => "d",
        Isa::E => "e",
        Isa::N => "n",
        Isa::S => "s",
    }
}

// What was read of words, as the tables have it.
fn told(alloc: Global, read: Result<Request, WordFail>) -> Result<String, AllocError> {
    match read {
        Ok(Request::Demangle(file)) => format!(in alloc; "demangle {file}"),
        Ok(Request::Lanes(request)) => {
            let letter = letter_word(request.isa);
            let mut text = format!(in alloc; "lanes {letter} {} {}", request.unit, request.name)?;
            for argument in &request.arguments {
                write!(text, " {argument}")?;
            }
            if let Some(mask) = request.mask {
                write!(text, " mask {mask}")?;
            }
            if request.turns != 1000000 {
                write!(text, " turns {}", request.turns)?;
            }
            Ok(text)
        }
        Ok(Request::Mangle(request)) => {
            format!(in alloc; "mangle {} {}", target_word(request.target), request.unit)
        }
        Err(WordFail::Fault(rule)) => String::from_str(alloc, rule.label()),
        Err(WordFail::Memory) => String::from_str(alloc, "no memory"),
    }
}

// The first row whose words are read otherwise.
fn other(alloc: Global, rows: &[(&'static str, &'static str)]) -> Result<&'static str, Fail> {
    for (text, want) in rows {
        let words = split(alloc, text)?;
        let found = told(alloc, request_of(alloc, words.texts()))?;
        if found.as_str() != *want {
            return Ok(text);
        }
    }
    Ok("none")
}

#[test]
fn words_of_demangle(rt: HostRuntime) -> Result<(), Fail> {
    assert_eq!(rt; other(rt.alloc(), &DEMANGLE)?, "none");
    Ok(())
}

#[test]
fn words_of_lanes(rt: HostRuntime) -> Result<(), Fail> {
    assert_eq!(rt; other(rt.alloc(), &LANES)?, "none");
    Ok(())
}

#[test]
fn other_words(rt: HostRuntime) -> Result<(), Fail> {
    assert_eq!(rt; other(rt.alloc(), &OTHERS)?, "none");
    Ok(())
}

#[test]
fn blanks_are_words(rt: HostRuntime) -> Result<(), Fail> {
    let mut words = Words::new(rt.alloc());
    words.push("demangle")?;
    words.push("")?;
    let found = told(rt.alloc(), request_of(rt.alloc(), words.texts()))?;
    assert_eq!(rt; found.as_str(), "demangle ");
    Ok(())
}
