use crate::tables::{ARM_ROWS, EXAMPLES, LANES, Row, SIMDLEN_ROWS, SIZES, WIDTHS, X86_ROWS};
use std::alloc::Global;
use std::process::Abort;
use vk_kinds::{
    Branch, CType, Head, Isa, Len, Params, Signature, Types, cdt, has_sve_width, lanes_at, nds, wds,
};
use vk_memory::Memory;
use vk_names::read_name;
use vk_types::Ty;
use vk_variants::NameList;

fn number_type(letter: u8) -> Ty {
    match letter {
        b'c' => Ty::I8,
        b's' => Ty::I16,
        b'i' => Ty::I32,
        b'l' => Ty::I64,
        b'C' => Ty::U8,
        b'S' => Ty::U16,
        b'I' => Ty::U32,
        _ => Ty::U64,
    }
}

fn type_of(pair: &[u8]) -> CType {
    match pair {
        [b'*', letter] => CType::Ptr {
            to: number_type(*letter),
            written: false,
        },
        [b'!', letter] => CType::Ptr {
            to: number_type(*letter),
            written: true,
        },
        [_, b'v'] => CType::Void,
        [_, letter] => CType::Int(number_type(*letter)),
        _ => CType::Void,
    }
}

/// The types of a row: the result's, then each parameter's.
fn head_of(types: &[u8]) -> Head {
    let mut params = Types::new();
    let mut result = CType::Void;
    for (place, pair) in types.chunks(2).enumerate() {
        if place == 0 {
            result = type_of(pair);
        } else {
            let _fits = params.try_push(type_of(pair));
        }
    }
    Head { result, params }
}

#[test]
fn tells_the_sizes(rt: HostRuntime) {
    for (types, name, characteristic, narrowest, widest) in &SIZES {
        let head = head_of(types);
        match read_name(name) {
            Ok(name) => {
                let signature = Signature {
                    params: name.head.params,
                    branch: Branch::Both,
                    simdlen: None,
                };
                assert!(rt; head.params.len() == signature.params.len());
                assert_eq!(rt; cdt(&head, &signature), *characteristic);
                assert_eq!(rt; nds(&head, &signature), *narrowest);
                assert_eq!(rt; wds(&head, &signature), *widest);
            }
            Err(_) => assert!(rt; false),
        }
    }
}

/// Whether a list has just these names, with a blank between two.
fn has_names(list: &NameList, names: &[u8]) -> bool {
    let mut rest = names;
    for i in 0..list.len() {
        match rest.strip_prefix(list.text(i)) {
            Some([b' ', more @ ..]) => rest = more,
            Some(more) => rest = more,
            None => return false,
        }
    }
    rest.is_empty()
}

/// The names that the directive of a row gives: the kinds of its parameters and the scalar name are those of its first name.
fn gives(rt: &impl Abort, alloc: Global, row: &Row) -> Result<bool, Memory> {
    let (target, branch, lanes, types, names) = *row;
    let head = head_of(types);
    let mut list = NameList::new(alloc);
    if let Ok(name) = read_name(names) {
        let (text, _) = names.split_at(name.used as usize);
        let (_, scalar) = text.split_at(name.scalar_at as usize);
        let signature = Signature {
            params: name.head.params,
            branch,
            simdlen: if lanes == 0 { None } else { Some(lanes) },
        };
        assert!(rt; head.params.len() == signature.params.len());
        list.add(target, scalar, &head, &signature)?;
    }
    Ok(has_names(&list, names))
}

fn gives_all(rt: &impl Abort, alloc: Global, rows: &[Row]) {
    for row in rows {
        assert!(rt; gives(rt, alloc, row) == Ok(true));
    }
}

#[test]
fn gives_the_names_of_the_examples(rt: HostRuntime) {
    gives_all(&rt, rt.alloc(), &EXAMPLES);
}

#[test]
fn gives_the_names_of_x86(rt: HostRuntime) {
    gives_all(&rt, rt.alloc(), &X86_ROWS);
}

#[test]
fn gives_the_names_of_aarch64(rt: HostRuntime) {
    gives_all(&rt, rt.alloc(), &ARM_ROWS);
}

#[test]
fn gives_the_names_with_a_simdlen(rt: HostRuntime) {
    gives_all(&rt, rt.alloc(), &SIMDLEN_ROWS);
}

#[test]
fn counts_lanes(rt: HostRuntime) {
    for (isa, len, size, bits, lanes) in &LANES {
        assert!(rt; *isa == Isa::S || *len != Len::Scalable);
        assert!(rt; matches!(*size, 1 | 2 | 4 | 8));
        assert!(rt; *isa != Isa::S || matches!(*bits, 128 | 256 | 512 | 1024 | 2048));
        assert_eq!(rt; lanes_at(*isa, *len, *size, *bits), *lanes);
    }
}

#[test]
fn judges_the_width_of_sve(rt: HostRuntime) {
    for (lanes, types, fits) in &WIDTHS {
        let head = head_of(types);
        let signature = Signature {
            params: Params::new(),
            branch: Branch::Both,
            simdlen: if *lanes == 0 { None } else { Some(*lanes) },
        };
        assert!(rt; head.params.len() == signature.params.len());
        assert_eq!(rt; has_sve_width(&head, &signature), *fits);
    }
}
