//! What no clause says: that calls succeed, and what the system does.
use super::*;
use std::fs;
use std::fs::OpenOptions;
use std::test::Fail;

#[test]
fn words_keep_their_texts(rt: HostRuntime) -> Result<(), Fail> {
    let mut words = Words::new(rt.alloc());
    for text in ["lanes", "", "-o"] {
        words.push(text)?;
    }
    let mut out = MemSink::new(rt.alloc(), &[])?;
    let lines = Lines::of_texts(rt.alloc(), words.texts())?;
    put_lines(&mut out, &lines)?;
    assert_eq!(rt; words.texts().len(), 3);
    assert_eq!(rt; out.bytes(), b"lanes-o".as_slice());
    Ok(())
}

#[test]
fn store_calls_fail_where_listed(rt: HostRuntime) -> Result<(), Fail> {
    let mut piece = [0u8; 4];
    for fault in 0..5u64 {
        let mut store = MemStore::new(rt.alloc(), &[fault])?;
        store.set("a", b"abcdef")?;
        let filled = store.fill("a", 4, &mut piece);
        let appended = store.append("a", b"gh");
        let started = store.start("b");
        let absent = store.fill("none", 0, &mut piece);
        let failed = Err(Outside::Failed);
        assert_eq!(rt;
            filled,
            if fault == 1 { failed } else { Ok(2) },
            "fill at {fault}"
        );
        let unit_failed = Err(Outside::Failed);
        assert_eq!(rt;
            appended,
            if fault == 2 { unit_failed } else { Ok(()) },
            "append at {fault}"
        );
        assert_eq!(rt;
            started,
            if fault == 3 { unit_failed } else { Ok(()) },
            "start at {fault}"
        );
        assert_eq!(rt; absent, failed, "fill of an absent name at {fault}");
        let whole = read_whole(rt.alloc(), &mut store, "a", 8)?;
        let text = if fault == 2 {
            b"abcdef".as_slice()
        } else {
            b"abcdefgh".as_slice()
        };
        assert_eq!(rt; whole.as_slice(), text, "contents at {fault}");
        let begun = read_whole(rt.alloc(), &mut store, "b", 8);
        assert_eq!(rt; begun.is_ok(), fault != 3, "the new file at {fault}");
    }
    Ok(())
}

#[test]
fn sink_calls_fail_where_listed(rt: HostRuntime) -> Result<(), Fail> {
    for (failing, want) in [
        ([0, 0].as_slice(), b"onetwothree".as_slice()),
        ([1, 0].as_slice(), b"twothree".as_slice()),
        ([2, 0].as_slice(), b"onethree".as_slice()),
        ([3, 1].as_slice(), b"two".as_slice()),
    ] {
        let mut sink = MemSink::new(rt.alloc(), failing)?;
        for (number, piece) in [(1, "one"), (2, "two"), (3, "three")] {
            let put = sink.put(piece.as_bytes());
            assert_eq!(rt; put.is_err(), failing.contains(&number), "call {number}");
        }
        assert_eq!(rt; sink.bytes(), want);
    }
    Ok(())
}

#[test]
fn pure_stores_keep_their_files(rt: HostRuntime) -> Result<(), Fail> {
    let mut store = PureStore::new(rt.alloc())?;
    let mut piece = [0u8; 4];
    assert_eq!(rt; store.fill("a", 0, &mut piece), Err(Outside::Failed));
    store.set("a", b"abcdef")?;
    store.append("a", b"gh")?;
    assert_eq!(rt; store.fill("a", 5, &mut piece), Ok(3));
    assert_eq!(rt; &piece[..3], b"fgh".as_slice());
    store.start("b")?;
    assert_eq!(rt; store.fill("b", 0, &mut piece), Ok(0));
    store.append("c", b"xy")?;
    let whole = read_whole(rt.alloc(), &mut store, "c", 2)?;
    assert_eq!(rt; whole.as_slice(), b"xy".as_slice());
    assert_eq!(rt; store.fill("d", 0, &mut piece), Err(Outside::Failed));
    Ok(())
}

#[test]
fn pure_sinks_keep_their_bytes(rt: HostRuntime) -> Result<(), Fail> {
    let mut sink = PureSink::new(rt.alloc())?;
    sink.put(b"one")?;
    sink.put(b"two")?;
    assert_eq!(rt; sink.bytes(), b"onetwo".as_slice());
    Ok(())
}

#[test]
fn whole_files_are_read_up_to_the_limit(rt: HostRuntime) -> Result<(), Fail> {
    for (size, limit, fits) in [
        (0, 0, true),
        (1, 0, false),
        (65536, 65536, true),
        (65537, 65536, false),
        (150000, u64::MAX, true),
        (150000, 149999, false),
    ] {
        let mut store = MemStore::new(rt.alloc(), &[])?;
        let contents = vec![in rt.alloc(); 7u8; size]?;
        store.set("a", &contents)?;
        match read_whole(rt.alloc(), &mut store, "a", limit) {
            Ok(bytes) => assert_eq!(rt; bytes == contents, fits, "{size} {limit}"),
            Err(fail) => assert_eq!(rt; (fail, fits), (WholeFail::Size, false), "{size} {limit}"),
        }
    }
    let mut store = MemStore::new(rt.alloc(), &[2])?;
    store.set("a", &vec![in rt.alloc(); 7u8; 150000]?)?;
    let faulty = read_whole(rt.alloc(), &mut store, "a", 200000);
    assert!(rt; faulty.is_err(), "the second piece fails");
    Ok(())
}

#[test]
fn directories_hold_files(rt: HostRuntime) -> Result<(), Fail> {
    // The test runs in a folder of its own.
    let name = "directories_hold_files";
    let alloc = rt.alloc();
    let mut store = DirStore::new(alloc, rt.clone()?);
    store.append(name, b"old")?;
    store.start(name)?;
    store.append(name, b"abc")?;
    store.append(name, b"def")?;
    let mut piece = [0u8; 8];
    assert_eq!(rt; store.fill(name, 2, &mut piece), Ok(4));
    assert_eq!(rt; &piece[..4], b"cdef".as_slice());
    assert_eq!(rt; store.fill(name, 9, &mut piece), Ok(0));
    // Reading goes on where the last piece ended, and anew elsewhere.
    let (front, back) = piece.split_at_mut(3);
    assert_eq!(rt; store.fill(name, 0, front), Ok(3));
    assert_eq!(rt; store.fill(name, 3, back), Ok(3));
    assert_eq!(rt; &piece[..6], b"abcdef".as_slice());
    assert_eq!(rt; store.fill(name, 3, &mut piece), Ok(3));
    assert_eq!(rt; &piece[..3], b"def".as_slice());
    let whole = read_whole(alloc, &mut store, name, 6)?;
    assert_eq!(rt; whole.as_slice(), b"abcdef".as_slice());
    fs::remove_file(&rt, name)?;
    let nowhere = "no-such-folder/file";
    assert_eq!(rt; store.fill(name, 0, &mut piece), Err(Outside::Failed));
    assert_eq!(rt; store.start(nowhere), Err(Outside::Failed));
    assert_eq!(rt; store.append(nowhere, b"x"), Err(Outside::Failed));
    Ok(())
}

#[test]
fn streams_put_and_fail(rt: HostRuntime) -> Result<(), Fail> {
    let full = OpenOptions::new().write(true).open(&rt, "/dev/full")?;
    let mut sink = StreamSink::new(full);
    assert_eq!(rt; sink.put(b""), Ok(()));
    assert_eq!(rt; sink.put(b"x"), Err(Outside::Failed));
    let mut out = StreamSink::new(rt.stdout());
    assert_eq!(rt; out.put(b"put\n"), Ok(()));
    Ok(())
}
