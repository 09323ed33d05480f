use Want::{Fault, Long, Read};
use std::alloc::Global;
use std::test::Fail;
use vk_ends::{End, Refusal};
use vk_files::{Inputs, read_inputs, write_file};
use vk_io::{MemStore, Memory, Outside, Store, WholeFail, read_whole};

// A store of the files a, b, c, d and `old`, of whose calls that of this number fails, 0 for none.
fn store_of(alloc: Global, failing: u64) -> Result<MemStore, Memory> {
    let mut store = MemStore::new(alloc, &[failing])?;
    for (name, text) in [
        ("a", "abc"),
        ("b", ""),
        ("c", "cdefg"),
        ("d", "d"),
        ("old", "old"),
    ] {
        store.set(name, text.as_bytes())?;
    }
    Ok(store)
}

// How inputs are read: with these contents, or up to the one of this number, which fails or is too long.
#[derive(Clone, Copy)]
enum Want {
    Read(&'static [&'static str]),
    Fault(usize),
    Long(usize),
}

fn is_read(read: Result<Inputs, End>, want: &Want) -> bool {
    match (read, want) {
        (Ok(inputs), Read(texts)) => are_texts(inputs.files(), texts),
        (Err(End::ReadFault(input)), Fault(number)) => input == *number,
        (Err(End::Refused(Refusal::Size { input })), Long(number)) => input == *number,
        _ => false,
    }
}

fn are_texts(files: &[Vec<u8>], texts: &[&str]) -> bool {
    for (bytes, text) in files.iter().zip(texts) {
        if bytes.as_slice() != text.as_bytes() {
            return false;
        }
    }
    files.len() == texts.len()
}

// The first row that is read otherwise: the names of inputs, their limit, the number of the call that fails, and the contents or
// the end.
fn other(alloc: Global, rows: &[(&[&str], u64, u64, Want)]) -> Result<usize, Memory> {
    for (row, (files, limit, failing, want)) in rows.iter().enumerate() {
        let mut store = store_of(alloc, *failing)?;
        if !is_read(read_inputs(alloc, &mut store, files, *limit), want) {
            return Ok(row);
        }
    }
    Ok(rows.len())
}

// A file that is not empty takes two calls, the second of which finds its end, and an empty file takes one.
static FAILING: [(&[&str], u64, u64, Want); 13] = [
    (&["a", "b", "c"], 5, 0, Read(&["abc", "", "cdefg"])),
    (&["a", "b", "c"], 5, 1, Fault(0)),
    (&["a", "b", "c"], 5, 2, Fault(0)),
    (&["a", "b", "c"], 5, 3, Fault(1)),
    (&["a", "b", "c"], 5, 4, Fault(2)),
    (&["a", "b", "c"], 5, 5, Fault(2)),
    (&["a", "b", "c"], 5, 6, Read(&["abc", "", "cdefg"])),
    // A name that stands twice is read twice.
    (&["d", "d"], 1, 0, Read(&["d", "d"])),
    (&["d", "d"], 1, 2, Fault(0)),
    (&["d", "d"], 1, 3, Fault(1)),
    (&["d", "d"], 1, 4, Fault(1)),
    (&["d", "d"], 1, 5, Read(&["d", "d"])),
    (&[], 0, 1, Read(&[])),
];

static LIMITS: [(&[&str], u64, u64, Want); 17] = [
    (&["c"], 6, 0, Read(&["cdefg"])),
    (&["c"], 5, 0, Read(&["cdefg"])),
    (&["c"], 4, 0, Long(0)),
    (&["b"], 0, 0, Read(&[""])),
    (&["d"], 0, 0, Long(0)),
    (&["a", "c", "d"], 5, 0, Read(&["abc", "cdefg", "d"])),
    (&["a", "c", "d"], 4, 0, Long(1)),
    (&["a", "c", "d"], 3, 0, Long(1)),
    (&["a", "c", "d"], 2, 0, Long(0)),
    (&["d", "a", "c"], 4, 0, Long(2)),
    (&["a", "c"], 4, 2, Fault(0)),
    (&["a", "c"], 4, 3, Fault(1)),
    (&["none", "c"], 4, 0, Fault(0)),
    (&["c", "none"], 4, 0, Long(0)),
    (&["a", "none", "c"], 4, 0, Fault(1)),
    (&["a", "c", "none"], 5, 0, Fault(2)),
    (&["a", "a", "a"], 3, 0, Read(&["abc", "abc", "abc"])),
];

#[test]
fn a_call_that_fails_ends_reading(rt: HostRuntime) -> Result<(), Fail> {
    assert_eq!(rt; other(rt.alloc(), &FAILING)?, FAILING.len());
    Ok(())
}

#[test]
fn the_first_that_is_not_read_is_told(rt: HostRuntime) -> Result<(), Fail> {
    assert_eq!(rt; other(rt.alloc(), &LIMITS)?, LIMITS.len());
    Ok(())
}

// Names of 64 files.
static MANY: [&str; 64] = [
    "f00", "f01", "f02", "f03", "f04", "f05", "f06", "f07", "f08", "f09", "f10", "f11", "f12",
    "f13", "f14", "f15", "f16", "f17", "f18", "f19", "f20", "f21", "f22", "f23", "f24", "f25",
    "f26", "f27", "f28", "f29", "f30", "f31", "f32", "f33", "f34", "f35", "f36", "f37", "f38",
    "f39", "f40", "f41", "f42", "f43", "f44", "f45", "f46", "f47", "f48", "f49", "f50", "f51",
    "f52", "f53", "f54", "f55", "f56", "f57", "f58", "f59", "f60", "f61", "f62", "f63",
];

// A store of these files: each holds its name, and that of this number one byte more.
fn many(alloc: Global, longer: usize, failing: u64) -> Result<MemStore, Memory> {
    let mut store = MemStore::new(alloc, &[failing])?;
    for name in MANY {
        store.set(name, name.as_bytes())?;
    }
    if longer < MANY.len() {
        store.set(MANY[longer], b"long")?;
    }
    Ok(store)
}

#[test]
fn sixty_four_files_are_read_in_order(rt: HostRuntime) -> Result<(), Fail> {
    for (longer, failing, want) in [
        (64, 0, Read(&MANY)),
        (63, 0, Long(63)),
        (40, 0, Long(40)),
        (63, 126, Fault(62)),
        (64, 127, Fault(63)),
        (64, 128, Fault(63)),
        (64, 129, Read(&MANY)),
    ] {
        let mut store = many(rt.alloc(), longer, failing)?;
        let read = read_inputs(rt.alloc(), &mut store, &MANY, 3);
        assert!(rt; is_read(read, &want), "{longer} {failing}");
    }
    Ok(())
}

// Whether the file of a name holds this text, or is absent.
fn is_text(alloc: Global, store: &mut MemStore, name: &str, want: Option<&str>) -> bool {
    match read_whole(alloc, store, name, 100) {
        Ok(bytes) => want.is_some_and(|text| bytes.as_slice() == text.as_bytes()),
        Err(fail) => fail == WholeFail::Fault && want.is_none(),
    }
}

// For the number of the call that fails: how writing ends, and what a file that was absent and one that was not hold then.
static WRITING: [(u64, End, Option<&str>, Option<&str>); 6] = [
    (0, End::Done, Some("abcde"), Some("abcde")),
    (1, End::WriteFault, None, Some("old")),
    (2, End::WriteFault, Some(""), Some("")),
    (3, End::WriteFault, Some("ab"), Some("ab")),
    (4, End::WriteFault, Some("ab"), Some("ab")),
    (5, End::WriteFault, Some("abcde"), Some("abcde")),
];

static PIECES: [&[u8]; 4] = [b"ab", b"", b"cde", b""];

// Whether a call that fails ends writing so, and leaves this text, and another file as it was.
fn is_written(
    alloc: Global,
    name: &str,
    failing: u64,
    want: End,
    text: Option<&str>,
) -> Result<bool, Memory> {
    let mut store = store_of(alloc, failing)?;
    let end = write_file(&mut store, name, &PIECES);
    Ok(
        end == want
            && is_text(alloc, &mut store, name, text)
            && is_text(alloc, &mut store, "a", Some("abc")),
    )
}

#[test]
fn a_call_that_fails_ends_writing(rt: HostRuntime) -> Result<(), Fail> {
    for (failing, end, new, old) in &WRITING {
        let written = is_written(rt.alloc(), "new", *failing, *end, *new)?;
        assert!(rt; written, "a new file, call {failing}");
        let written = is_written(rt.alloc(), "old", *failing, *end, *old)?;
        assert!(rt; written, "an old file, call {failing}");
    }
    Ok(())
}

// One call starts the file and one adds each piece, so that the next call is the first behind them.
#[test]
fn each_piece_takes_one_call(rt: HostRuntime) -> Result<(), Fail> {
    for count in 0..5usize {
        let mut store = MemStore::new(rt.alloc(), &[count as u64 + 2])?;
        let end = write_file(&mut store, "f", &PIECES[..count]);
        assert_eq!(rt; end, End::Done, "{count}");
        assert_eq!(rt; store.append("f", b"!"), Err(Outside::Failed), "{count}");
    }
    Ok(())
}
