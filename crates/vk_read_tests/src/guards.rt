// Simd loops whose guards compare many pairs of objects, which are read as plain loops.

use crate::reads::reading_of;
use std::alloc::Global;
use std::test::Fail;
use vk_io::Memory;

// Adds the names of so many objects from one on, with commas between them.
fn add_names(
    alloc: Global,
    text: &mut String,
    letter: &str,
    first: u32,
    count: u32,
) -> Result<(), Memory> {
    for k in 0..count {
        if k > 0 {
            text.push_str(", ")?;
        }
        let number = first.saturating_add(k);
        let Ok(name) = format!(in alloc; "{letter}{number}") else {
            return Err(Memory);
        };
        text.push_str(&name)?;
    }
    Ok(())
}

// Adds the sum of calls that name 1,024 objects.
fn add_calls(alloc: Global, text: &mut String) -> Result<(), Memory> {
    for call in 0..16u32 {
        text.push_str("h(")?;
        add_names(alloc, text, "g", call.saturating_mul(64), 64)?;
        text.push_str(") + ")?;
    }
    Ok(())
}

// A program whose simd loop stores to one object and names 1,024 others, and this one.
fn program(alloc: Global, other: &str) -> Result<String, Memory> {
    let mut text = String::new(alloc);
    text.push_str("int s, ")?;
    add_names(alloc, &mut text, "g", 0, 1025)?;
    text.push_str(";\nint h(")?;
    add_names(alloc, &mut text, "int p", 0, 64)?;
    text.push_str(
        ") { return p0 + p63; }\nint main(void) {\n    g0 = 7; g127 = 20; g1024 = 100;\n    #pragma omp simd\n",
    )?;
    text.push_str("    for (int i = 0; i < 3; i++) s = ")?;
    add_calls(alloc, &mut text)?;
    text.push_str(other)?;
    text.push_str(";\n    print(s);\n    return 0;\n}\n")?;
    Ok(text)
}

#[test]
fn a_guard_of_1024_pairs(rt: HostRuntime) -> Result<(), Fail> {
    let text = program(rt.alloc(), "0")?;
    let found = reading_of(rt.alloc(), &[&text], 3)?;
    assert!(rt; found.as_slice() == b"27 done".as_slice(), "{found:?}");
    Ok(())
}

#[test]
fn a_guard_of_1025_pairs(rt: HostRuntime) -> Result<(), Fail> {
    let text = program(rt.alloc(), "g1024")?;
    let found = reading_of(rt.alloc(), &[&text], 3)?;
    assert!(rt; found.as_slice() == b"127 done".as_slice(), "{found:?}");
    Ok(())
}
