use crate::bytes::{ALL, NOTHING};
use crate::objects::{is_all, nothing};
use crate::wholes::FINE;
use std::test::Fail;
use vk_object_codec::read_object;
use vk_object_write::write_object;

#[test]
fn an_object_of_nothing_has_24_bytes(rt: HostRuntime) -> Result<(), Fail> {
    let bytes = write_object(rt.alloc(), &nothing(rt.alloc()))?;
    assert_eq!(rt; bytes.as_slice(), &NOTHING[..]);
    Ok(())
}

#[test]
fn what_is_read_is_written_again(rt: HostRuntime) -> Result<(), Fail> {
    for bytes in FINE.iter() {
        let object = read_object(rt.alloc(), bytes)?;
        let again = write_object(rt.alloc(), &object)?;
        assert_eq!(rt; again.as_slice(), *bytes);
    }
    let object = read_object(rt.alloc(), &ALL)?;
    assert!(rt; is_all(&object));
    assert_eq!(rt; write_object(rt.alloc(), &object)?.as_slice(), &ALL[..]);
    Ok(())
}
