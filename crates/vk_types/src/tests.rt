// The operators and conversions against outside values, from data/operators.c, and worked values of wrapping.

mod binary;
mod commons;
mod conversions;
mod unary;

use super::*;
use binary::BINARY;
use commons::COMMONS;
use conversions::CONVERSIONS;
use std::test::Fail;
use unary::UNARY;

// The type of `a op b` for operands of these types.
fn type_of_result(op: Op2, left: Ty, right: Ty) -> Ty {
    match op {
        Op2::Eq | Op2::Ne | Op2::Lt | Op2::Le => Ty::I32,
        Op2::Shl | Op2::Shr => promote(left),
        _ => common(left, right),
    }
}

// The value of `a op b` for operands that are not converted yet.
fn computed(op: Op2, left: Ty, x: i128, right: Ty, y: i128) -> Result<Word, Stop> {
    let (t, bt) = match op {
        Op2::Shl | Op2::Shr => (promote(left), right),
        _ => (common(left, right), common(left, right)),
    };
    op2(
        op,
        t,
        convert(left, t, wrap(left, x)),
        convert(right, bt, wrap(right, y)),
        bt,
    )
}

#[test]
fn computes_as_c_does(rt: HostRuntime) -> Result<(), Fail> {
    for (op, t, n, result) in &UNARY {
        let word = op1(*op, promote(*t), convert(*t, promote(*t), wrap(*t, *n)));
        assert_eq!(rt;
            word,
            wrap(promote(*t), *result),
            "of {op:?} at {n} in {t:?}"
        );
    }
    for (op, left, x, right, y, result) in &BINARY {
        let word = computed(*op, *left, *x, *right, *y).map_err(|_| "stopped")?;
        assert_eq!(rt;
            word,
            wrap(type_of_result(*op, *left, *right), *result),
            "of {op:?} at {x} and {y} in {left:?} and {right:?}"
        );
    }
    Ok(())
}

#[test]
fn stops_at_divisors_of_0_alone(rt: HostRuntime) {
    for t in [Ty::I32, Ty::I64, Ty::U32, Ty::U64] {
        for op in [Op2::Div, Op2::Rem] {
            assert_eq!(rt;
                op2(op, t, wrap(t, 7), Word(0), t),
                Err(Stop::Divide),
                "of {op:?} in {t:?}"
            );
        }
    }
}

#[test]
fn converts_as_c_does(rt: HostRuntime) {
    for (from, n, to, result) in &CONVERSIONS {
        assert_eq!(rt;
            convert(*from, *to, wrap(*from, *n)),
            wrap(*to, *result),
            "of {n} in {from:?} to {to:?}"
        );
    }
    for (left, right, result) in &COMMONS {
        assert_eq!(rt; common(*left, *right), *result, "of {left:?} and {right:?}");
        if left == right {
            assert_eq!(rt; promote(*left), *result, "of {left:?}");
        }
    }
}

#[test]
fn wraps_into_each_type(rt: HostRuntime) {
    for (t, n, word) in [
        (Ty::I8, 200, 0xffff_ffff_ffff_ffc8),
        (Ty::I8, -129, 127),
        (Ty::I16, 32768, 0xffff_ffff_ffff_8000),
        (Ty::I32, 2147483648, 0xffff_ffff_8000_0000),
        (Ty::I32, -2147483649, 2147483647),
        (Ty::I64, 9223372036854775808, 0x8000_0000_0000_0000),
        (Ty::U8, -1, 255),
        (Ty::U16, 65537, 1),
        (Ty::U32, -1, 4294967295),
        (Ty::U64, -1, 18446744073709551615),
        (Ty::U64, 18446744073709551617, 1),
    ] {
        assert_eq!(rt; wrap(t, n).0, word, "at {n}");
    }
}

#[test]
fn tells_sizes(rt: HostRuntime) {
    for (t, bytes) in [(Ty::I8, 1), (Ty::U16, 2), (Ty::I32, 4), (Ty::U64, 8)] {
        assert_eq!(rt; size(t), bytes, "of {t:?}");
    }
}
