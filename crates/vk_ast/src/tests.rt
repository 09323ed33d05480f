// Names get numbers where there is memory, and the makers of trees count as they are seen.

use super::*;
use std::test::Fail;

#[test]
fn gives_each_text_one_number(rt: HostRuntime) -> Result<(), Fail> {
    let mut names = NameTable::new(rt.alloc());
    for (text, id) in [
        (b"sq".as_slice(), 0),
        (b"a", 1),
        (b"sq", 0),
        (b"", 2),
        (b"a", 1),
        (b"A", 3),
    ] {
        assert!(rt; names.len() < 100);
        let given = names.add(text).map_err(|_| "no memory")?;
        assert_eq!(rt; given.0, id);
        assert!(rt; names.text(given) == text);
    }
    assert_eq!(rt; names.len(), 4);
    Ok(())
}
