use crate::bytes::{ALL, NOTHING};
use crate::changes::{CODES, Change, ENTRIES, FRONT, TABLES};
use crate::told::{is_told, tell};
use crate::wholes::{FINE, LONG_REFUSED, MORE_REFUSED, REFUSED, Refused};
use ObjectRule::{O4, O5};
use std::alloc::Global;
use std::test::Fail;
use vk_format::{ObjectFail, ObjectFault, ObjectRule};
use vk_image_codec::{ImageFeed, read_image};
use vk_memory::Memory;

// The first front of the bytes that does not end inside a field.
fn other_front(alloc: Global, bytes: &[u8], size: usize) -> Result<usize, Memory> {
    for n in 0..bytes.len() {
        let want = ObjectFault {
            at: n as u64,
            rule: O4,
        };
        match tell(alloc, &bytes[..n], size)? {
            Some(told) => {
                if told.fault != want || told.after != n + 1 {
                    return Ok(n);
                }
            }
            None => return Ok(n),
        }
    }
    Ok(bytes.len())
}

// The bytes with another one at a place.
fn changed(alloc: Global, bytes: &[u8], place: usize, byte: u8) -> Result<Vec<u8>, Memory> {
    let mut bytes = Vec::from_slice(alloc, bytes)?;
    if place < bytes.len() {
        bytes[place] = byte;
    }
    Ok(bytes)
}

// The first row whose change is told otherwise.
fn other_change(alloc: Global, bytes: &[u8], rows: &[Change]) -> Result<usize, Memory> {
    for (row, (place, byte, at, rule, needed)) in rows.iter().enumerate() {
        let changed = changed(alloc, bytes, usize::from(*place), *byte)?;
        let fault = ObjectFault {
            at: u64::from(*at),
            rule: *rule,
        };
        if !is_told(alloc, &changed, fault, usize::from(*needed))? {
            return Ok(row);
        }
    }
    Ok(rows.len())
}

// The first row whose bytes are told otherwise.
fn other_whole(alloc: Global, rows: &[Refused]) -> Result<usize, Memory> {
    for (row, (bytes, at, rule, needed)) in rows.iter().enumerate() {
        let fault = ObjectFault {
            at: u64::from(*at),
            rule: *rule,
        };
        if !is_told(alloc, bytes, fault, usize::from(*needed))? {
            return Ok(row);
        }
    }
    Ok(rows.len())
}

#[test]
fn each_front_ends_inside_a_field(rt: HostRuntime) -> Result<(), Fail> {
    for size in [1, 7, 2000] {
        assert_eq!(rt; other_front(rt.alloc(), &NOTHING, size)?, NOTHING.len());
        assert_eq!(rt; other_front(rt.alloc(), &ALL, size)?, ALL.len());
        assert_eq!(rt; tell(rt.alloc(), &NOTHING, size)?, None);
        assert_eq!(rt; tell(rt.alloc(), &ALL, size)?, None);
    }
    Ok(())
}

#[test]
fn a_byte_more_is_told_at_once_and_again(rt: HostRuntime) -> Result<(), Fail> {
    let mut feed = ImageFeed::new(rt.alloc());
    assert_eq!(rt; feed.feed(&ALL), Ok(()));
    assert_eq!(rt; feed.feed(&[]), Ok(()));
    let fault = ObjectFail::Fault(ObjectFault { at: 284, rule: O5 });
    assert_eq!(rt; feed.feed(&[0]), Err(fault));
    assert_eq!(rt; feed.feed(&[]), Err(fault));
    assert_eq!(rt; feed.feed(&[1, 2]), Err(fault));
    assert_eq!(rt; feed.end().err(), Some(fault));
    Ok(())
}

#[test]
fn header_and_arrays_are_judged(rt: HostRuntime) -> Result<(), Fail> {
    assert_eq!(rt; other_change(rt.alloc(), &ALL, &FRONT)?, FRONT.len());
    Ok(())
}

#[test]
fn fields_of_codes_are_judged(rt: HostRuntime) -> Result<(), Fail> {
    assert_eq!(rt; other_change(rt.alloc(), &ALL, &CODES)?, CODES.len());
    Ok(())
}

#[test]
fn fields_of_entries_are_judged(rt: HostRuntime) -> Result<(), Fail> {
    assert_eq!(rt; other_change(rt.alloc(), &ALL, &ENTRIES)?, ENTRIES.len());
    Ok(())
}

#[test]
fn several_tables_are_judged_with_the_last_field(rt: HostRuntime) -> Result<(), Fail> {
    assert_eq!(rt; other_change(rt.alloc(), &ALL, &TABLES)?, TABLES.len());
    Ok(())
}

#[test]
fn whole_images_are_judged(rt: HostRuntime) -> Result<(), Fail> {
    assert_eq!(rt; other_whole(rt.alloc(), &REFUSED)?, REFUSED.len());
    Ok(())
}

#[test]
fn more_whole_images_are_judged(rt: HostRuntime) -> Result<(), Fail> {
    assert_eq!(rt; other_whole(rt.alloc(), &MORE_REFUSED)?, MORE_REFUSED.len());
    Ok(())
}

#[test]
fn a_long_chain_is_judged(rt: HostRuntime) -> Result<(), Fail> {
    assert_eq!(rt; other_whole(rt.alloc(), &LONG_REFUSED)?, LONG_REFUSED.len());
    Ok(())
}

#[test]
fn images_at_the_limits_are_read(rt: HostRuntime) -> Result<(), Fail> {
    for bytes in FINE.iter() {
        assert!(rt; read_image(rt.alloc(), bytes).is_ok());
    }
    Ok(())
}
