// Constants with their numbers, by hand from C's words; where C has none of its own, signed results wrap.

use crate::verdict::unit_of;
use std::alloc::{AllocError, Global};
use std::test::Fail;
use vk_ast::{Expr, Item};
use vk_numbers::{constant_of, constant_to};

static NUMBERS: [(&str, &str); 85] = [
    ("7", "7"),
    ("-7", "-7"),
    ("+7", "7"),
    ("010", "8"),
    ("0x1f", "31"),
    ("~0", "-1"),
    ("!0", "1"),
    ("!5", "0"),
    ("~0u", "4294967295"),
    ("-1u", "4294967295"),
    ("~(unsigned char)1", "-2"),
    ("-(signed char)-128", "128"),
    ("+(unsigned short)65535", "65535"),
    ("2147483647 + 1", "-2147483648"),
    ("2147483648", "2147483648"),
    ("-2147483648", "-2147483648"),
    ("4294967295u + 1", "0"),
    ("0x7fffffffffffffff + 1", "-9223372036854775808"),
    ("0xffffffffffffffff", "18446744073709551615"),
    ("-0x8000000000000000", "9223372036854775808"),
    ("0 - 1", "-1"),
    ("0 - 1u", "4294967295"),
    ("6 * 7", "42"),
    ("65536 * 65536", "0"),
    ("65536l * 65536", "4294967296"),
    ("7 / 2", "3"),
    ("-7 / 2", "-3"),
    ("-7 % 3", "-1"),
    ("7 % -3", "1"),
    ("1 / 0", "none"),
    ("1 % 0", "none"),
    ("1u / 0", "none"),
    ("-7 / 2u", "2147483644"),
    ("1 << 31", "-2147483648"),
    ("1 << 4l", "16"),
    ("1l << 32", "4294967296"),
    ("-8 >> 1", "-4"),
    ("8u >> 1", "4"),
    ("4294967288u >> 1", "2147483644"),
    ("(unsigned char)128 << 1", "256"),
    ("-1 < 0u", "0"),
    ("-1 < 0", "1"),
    ("-1l < 0u", "1"),
    ("-1 == 4294967295u", "1"),
    ("10 > 3", "1"),
    ("3 >= 4", "0"),
    ("3 <= 3", "1"),
    ("1 != 1", "0"),
    ("4294967295u > 1", "1"),
    ("-1 > 1u", "1"),
    ("-1 >= 0ul", "1"),
    ("1 ? 2 : 3", "2"),
    ("0 ? 2 : 3", "3"),
    ("0 ? 1 / 0 : 3", "3"),
    ("1 ? 1 / 0 : 3", "none"),
    ("1 / 0 ? 2 : 3", "none"),
    ("1 ? -1 : 0u", "4294967295"),
    ("1 ? -1 : 0l", "-1"),
    ("1 ? (signed char)-1 : (unsigned char)1", "-1"),
    ("0 && 1 / 0", "0"),
    ("1 && 1 / 0", "none"),
    ("1 / 0 && 0", "none"),
    ("1 || 1 / 0", "1"),
    ("0 || 1 / 0", "none"),
    ("0 || 5", "1"),
    ("2 && 3", "1"),
    ("0 || 0", "0"),
    ("(unsigned char)300", "44"),
    ("(signed char)200", "-56"),
    ("(short)65535", "-1"),
    ("(int)4294967296", "0"),
    ("(long)-1", "-1"),
    ("(unsigned)-1", "4294967295"),
    ("(unsigned long)-1", "18446744073709551615"),
    ("(unsigned char)255 + 1", "256"),
    ("(unsigned char)(255 + 1)", "0"),
    ("5 & 3 | 8 ^ 1", "9"),
    ("1 + 2 * 3 - 4", "3"),
    ("2 << 1 + 1", "8"),
    ("1 < 2 == 1", "1"),
    ("(1 + 2) * 3", "9"),
    ("- - 3", "3"),
    ("-1 & 255", "255"),
    ("-1 ^ 1", "-2"),
    ("12 & -4", "12"),
];

// No constants.
static OTHERS: [&str; 15] = [
    "x",
    "f(1)",
    "1 + x",
    "x + 1",
    "0 && x",
    "1 || x",
    "0 ? x : 1",
    "1 ? 1 : x",
    "x ? 1 : 2",
    "&x",
    "*x",
    "a[0]",
    "-x",
    "(int)x",
    "(x)",
];

// Up to a limit.
static LIMITS: [(&str, u32, &str); 13] = [
    ("0", 10, "none"),
    ("1", 10, "1"),
    ("10", 10, "10"),
    ("11", 10, "none"),
    ("-1", 10, "none"),
    ("2 * 5", 10, "10"),
    ("16777216", 16777216, "16777216"),
    ("16777217", 16777216, "none"),
    ("1 / 0", 10, "none"),
    ("x", 10, "none"),
    ("4294967295", 4294967295, "4294967295"),
    ("4294967297", 4294967295, "none"),
    ("18446744073709551615u", 4294967295, "none"),
];

fn shown(alloc: Global, number: Option<i128>) -> Result<String, AllocError> {
    match number {
        Some(z) => format!(in alloc; "{z}"),
        None => format!(in alloc; "none"),
    }
}

// The number of an expression, up to a limit where there is one.
fn number_of(e: &Expr, limit: Option<u32>) -> Option<i128> {
    match limit {
        None => constant_of(e),
        Some(limit) => match constant_to(limit, e) {
            Some(n) => Some(i128::from(n)),
            None => None,
        },
    }
}

// The expression that an object begins with.
fn initialiser(items: &[Item]) -> Option<&Expr> {
    let [Item::Object(o)] = items else {
        return None;
    };
    match &o.init {
        Some(init) => init.first(),
        None => None,
    }
}

// What is told of an expression.
fn told(alloc: Global, text: &str, limit: Option<u32>) -> Result<String, Fail> {
    let text = format!(in alloc; "int a = {text};")?;
    let Ok(unit) = unit_of(alloc, text.as_bytes()) else {
        return Ok(format!(in alloc; "no unit")?);
    };
    match initialiser(&unit.items) {
        Some(e) => Ok(shown(alloc, number_of(e, limit))?),
        None => Ok(format!(in alloc; "no expression")?),
    }
}

#[test]
fn numbers(rt: HostRuntime) -> Result<(), Fail> {
    for (text, want) in &NUMBERS {
        let found = told(rt.alloc(), text, None)?;
        assert!(rt; found.as_str() == *want, "{text}: {found}");
    }
    Ok(())
}

#[test]
fn others(rt: HostRuntime) -> Result<(), Fail> {
    for text in &OTHERS {
        let found = told(rt.alloc(), text, None)?;
        assert!(rt; found.as_str() == "none", "{text}: {found}");
    }
    Ok(())
}

#[test]
fn limits(rt: HostRuntime) -> Result<(), Fail> {
    for (text, limit, want) in &LIMITS {
        let found = told(rt.alloc(), text, Some(*limit))?;
        assert!(rt; found.as_str() == *want, "{text}: {found}");
    }
    Ok(())
}
