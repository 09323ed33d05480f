use crate::bytes::{ALL, NOTHING};
use crate::wholes::FINE;
use std::test::Fail;
use vk_image_codec::read_image;
use vk_image_write::write_image;
use vk_kinds::{Isa, Target};
use vk_object::{EntryKind, LoopTargets};

#[test]
fn an_image_has_its_tables(rt: HostRuntime) -> Result<(), Fail> {
    let image = read_image(rt.alloc(), &ALL)?;
    assert!(rt; image.target == Target::X86 && image.isa == Isa::B && image.vl == 0);
    assert_eq!(rt; image.main, Some(2));
    assert_eq!(rt; image.arrays.len(), 1);
    assert_eq!(rt; image.arrays[0].text.as_slice(), b"t".as_slice());
    assert_eq!(rt; image.codes.len(), 3);
    assert_eq!(rt; image.entries.len(), 5);
    assert_eq!(rt; image.entries[0].text.as_slice(), b"_N".as_slice());
    assert_eq!(rt; image.entries[0].kind, EntryKind::N);
    assert_eq!(rt; image.entries[0].params.len(), 2);
    assert_eq!(rt; image.entries[2].targets.as_slice(), &[1][..]);
    let loops = [LoopTargets { chunk: 4, rest: 3 }];
    assert_eq!(rt; image.entries[2].loops.as_slice(), &loops[..]);
    Ok(())
}

#[test]
fn what_is_read_is_written_again(rt: HostRuntime) -> Result<(), Fail> {
    for bytes in FINE.iter() {
        let image = read_image(rt.alloc(), bytes)?;
        assert!(rt; image.main.is_some());
        assert_eq!(rt; write_image(rt.alloc(), &image)?.as_slice(), *bytes);
    }
    for bytes in [&NOTHING[..], &ALL[..]] {
        let image = read_image(rt.alloc(), bytes)?;
        assert!(rt; image.main.is_some());
        assert_eq!(rt; write_image(rt.alloc(), &image)?.as_slice(), bytes);
    }
    Ok(())
}
