ghost use Rattle.std.specs.Prelude.{◌≡◌, ◌*◌, ◌<◌, ◌≤◌, ℕ, length};
ghost use Rattle.vk_types.specs.Numbers.{IsCanonical};
ghost use Rattle.vk_lanes.specs.Kernels.{AreOperands};
ghost use Rattle.vk_lanes.specs.Masks.{lane_count};
ghost use Rattle.vk_lanes.specs.Words.{word_in};

use crate::tables::conversions::ENDS;
use crate::tables::signed::{BINARY_I8, BINARY_I16, BINARY_I32, BINARY_I64};
use crate::tables::unsigned::{BINARY_U8, BINARY_U16, BINARY_U32, BINARY_U64};
use std::process::Abort;
use vk_lanes::{
    LaneMask, lanes_convert, lanes_copy, lanes1, lanes2, mask_and, mask_but, mask_of, mask_or,
    rows_convert, rows_copy, rows1, rows2,
};
use vk_types::{Op1, Op2, Ty, Word, wrap};

static TYPES: [Ty; 8] = [
    Ty::I8,
    Ty::I16,
    Ty::I32,
    Ty::I64,
    Ty::U8,
    Ty::U16,
    Ty::U32,
    Ty::U64,
];

static OPERATORS: [Op2; 14] = [
    Op2::Add,
    Op2::Sub,
    Op2::Mul,
    Op2::Div,
    Op2::Rem,
    Op2::And,
    Op2::Or,
    Op2::Xor,
    Op2::Shl,
    Op2::Shr,
    Op2::Eq,
    Op2::Ne,
    Op2::Lt,
    Op2::Le,
];

static LENGTHS: [usize; 7] = [1, 2, 7, 8, 9, 16, 256];

// The pattern of the number with this place in a text.
fn pattern(text: &[u8], place: usize) -> u64 {
    let mut at = 0usize;
    let mut value = 0u64;
    let mut negative = false;
    for byte in text {
        if *byte == b' ' {
            at = at.wrapping_add(1);
        } else if at == place {
            if *byte == b'-' {
                negative = true;
            } else {
                value = value.wrapping_mul(10).wrapping_add(u64::from(byte & 0xf));
            }
        }
    }
    if negative {
        0u64.wrapping_sub(value)
    } else {
        value
    }
}

fn word(t: Ty, text: &[u8], place: usize) -> Word
    ensures { IsCanonical t result.0 }
{
    wrap(t, i128::from(pattern(text, place)))
}

// Words of numbers at the ends of a type, one after the other, or each five times.
fn fill(t: Ty, ends: &[u8], slowly: bool, row: &mut [Word])
    ensures { (i : ℕ) → i < length row.new → IsCanonical t (word_in row.new i) }
{
    for i in 0..row.len() {
        let place = if slowly { i / 5 % 5 } else { i % 5 };
        row[i] = word(t, ends, place);
    }
}

// Some lanes of so many, or all.
fn some_lanes(lanes: usize, all: bool) -> LaneMask
    requires { lanes ≤ 256 }
    ensures { lane_count result ≡ lanes }
{
    let mut mask = LaneMask::new(lanes);
    for lane in 0..lanes {
        if all || lane % 3 != 1 {
            mask.set(lane, true);
        }
    }
    mask
}

fn even_lanes(lanes: usize) -> LaneMask
    requires { lanes ≤ 256 }
    ensures { lane_count result ≡ lanes }
{
    let mut mask = LaneMask::new(lanes);
    for lane in 0..lanes {
        mask.set(lane, lane % 2 == 0);
    }
    mask
}

// What a lane of the written row has before.
const OLD: Word = Word(85);

fn blank<const N: usize>() -> [Word; N] {
    [OLD; N]
}

fn divides(op: Op2) -> bool {
    matches!(op, Op2::Div | Op2::Rem)
}

// An operator whose operands are of one type, on rows of their own.
fn check_lanes2(
    rt: &impl Abort,
    op: Op2,
    t: Ty,
    ends: &[u8],
    results: &[&[u8]; 5],
    all: bool,
    a: &mut [Word],
    b: &mut [Word],
    d: &mut [Word],
)
    requires few { length d.old ≤ 256 }
    requires left { length a.old ≡ length d.old }
    requires right { length b.old ≡ length d.old }
    requires types { AreOperands op t t }
{
    let mask = some_lanes(d.len(), all);
    let mut zero = LaneMask::new(0);
    fill(t, ends, true, a);
    fill(t, ends, false, b);
    d.fill(OLD);
    lanes2(op, t, &mask, a, b, t, d, &mut zero);
    for i in 0..d.len() {
        let stops = divides(op) && b[i].0 == 0;
        let on = mask.get(i);
        let wanted = if on && !stops {
            Word(pattern(results[i / 5 % 5], i % 5))
        } else {
            OLD
        };
        assert_eq!(rt; d[i], wanted, "of {op:?} in {t:?} at lane {i}");
        assert_eq!(rt; zero.get(i), on && stops, "of {op:?} in {t:?} at lane {i}");
    }
}

// The same on rows of one list, into a row of its own and into that of the left operand.
fn check_rows2(
    rt: &impl Abort,
    op: Op2,
    t: Ty,
    ends: &[u8],
    results: &[&[u8]; 5],
    all: bool,
    lanes: usize,
    in_place: bool,
    rows: &mut [Word],
)
    requires few { lanes ≤ 256 }
    requires rows { length rows.old ≡ 3 * lanes }
    requires types { AreOperands op t t }
{
    let mask = some_lanes(lanes, all);
    let mut zero = LaneMask::new(0);
    fill(t, ends, true, rows);
    let d = if in_place { 0 } else { 2 * lanes };
    rows2(op, t, &mask, rows, 0, lanes, t, d, &mut zero);
    for i in 0..lanes {
        let right = (lanes + i) / 5 % 5;
        let stops = divides(op) && pattern(ends, right) == 0;
        let on = mask.get(i);
        let wanted = if on && !stops {
            pattern(results[i / 5 % 5], right)
        } else {
            pattern(ends, (d + i) / 5 % 5)
        };
        assert_eq!(rt; rows[d + i].0, wanted, "of {op:?} in {t:?} at lane {i}");
        assert_eq!(rt;
            rows[lanes + i].0,
            pattern(ends, right),
            "beside {op:?} in {t:?} at lane {i}"
        );
        assert_eq!(rt; zero.get(i), on && stops, "of {op:?} in {t:?} at lane {i}");
    }
}

// What is done to one row: an operator, a conversion, a copy.
#[derive(Clone, Copy, Debug)]
enum Single {
    Operator(Op1),
    Conversion(Ty),
    Copy,
}

// One row into another, and into itself in a list of rows.
fn check_single(
    rt: &impl Abort,
    single: Single,
    t: Ty,
    ends: &[u8],
    results: &[u8],
    all: bool,
    a: &mut [Word],
    d: &mut [Word],
)
    requires few { length d.old ≤ 256 }
    requires operand { length a.old ≡ length d.old }
{
    let mask = some_lanes(d.len(), all);
    fill(t, ends, false, a);
    d.fill(OLD);
    match single {
        Single::Operator(op) => {
            lanes1(op, t, &mask, a, d);
            rows1(op, t, &mask, a, 0, 0);
        }
        Single::Conversion(to) => {
            lanes_convert(t, to, &mask, a, d);
            rows_convert(t, to, &mask, a, 0, 0);
        }
        Single::Copy => {
            lanes_copy(&mask, a, d);
            rows_copy(&mask, a, 0, 0);
        }
    }
    for i in 0..d.len() {
        let wanted = pattern(results, i % 5);
        let on = mask.get(i);
        let row = if on { wanted } else { 85 };
        let itself = if on { wanted } else { pattern(ends, i % 5) };
        assert_eq!(rt; d[i].0, row, "of {single:?} in {t:?} at lane {i}");
        assert_eq!(rt; a[i].0, itself, "of {single:?} in {t:?} at lane {i}");
    }
}

// Masks of so many lanes, and one of words that are 0 in each fifth lane.
fn check_masks(rt: &impl Abort, a: &mut [Word])
    requires { length a.old ≤ 256 }
{
    let lanes = a.len();
    let left = some_lanes(lanes, false);
    let right = even_lanes(lanes);
    fill(Ty::I32, b"-2147483648 -1 0 1 2147483647", false, a);
    let mut both = LaneMask::new(0);
    let mut either = LaneMask::new(0);
    let mut but = LaneMask::new(0);
    let mut of = right;
    mask_and(&left, &right, &mut both);
    mask_or(&left, &right, &mut either);
    mask_but(&left, &right, &mut but);
    mask_of(&left, a, &mut of);
    assert_eq!(rt; both.len(), lanes);
    for lane in 0..lanes {
        let (x, y) = (lane % 3 != 1, lane % 2 == 0);
        assert_eq!(rt; left.get(lane), x, "at lane {lane} of {lanes}");
        assert_eq!(rt; both.get(lane), x && y, "at lane {lane} of {lanes}");
        assert_eq!(rt; either.get(lane), x || y, "at lane {lane} of {lanes}");
        assert_eq!(rt; but.get(lane), x && !y, "at lane {lane} of {lanes}");
        let set = if x { lane % 5 != 2 } else { y };
        assert_eq!(rt; of.get(lane), set, "at lane {lane} of {lanes}");
    }
}

// All operators of a type at a length.
fn check_type(rt: &impl Abort, t: Ty, ends: &[u8], results: &[[&[u8]; 5]; 14], lanes: usize)
    requires { lanes ≤ 256 }
{
    let mut a = blank::<256>();
    let mut b = blank::<256>();
    let mut d = blank::<256>();
    let mut rows = blank::<768>();
    for k in 0..14 {
        let op = OPERATORS[k];
        for all in [true, false] {
            check_lanes2(
                rt,
                op,
                t,
                ends,
                &results[k],
                all,
                &mut a[..lanes],
                &mut b[..lanes],
                &mut d[..lanes],
            );
            check_rows2(
                rt,
                op,
                t,
                ends,
                &results[k],
                all,
                lanes,
                false,
                &mut rows[..3 * lanes],
            );
            check_rows2(
                rt,
                op,
                t,
                ends,
                &results[k],
                all,
                lanes,
                true,
                &mut rows[..3 * lanes],
            );
        }
    }
}

fn results_of(t: Ty) -> &'static [[&'static [u8]; 5]; 14] {
    match t {
        Ty::I8 => &BINARY_I8,
        Ty::I16 => &BINARY_I16,
        Ty::I32 => &BINARY_I32,
        Ty::I64 => &BINARY_I64,
        Ty::U8 => &BINARY_U8,
        Ty::U16 => &BINARY_U16,
        Ty::U32 => &BINARY_U32,
        Ty::U64 => &BINARY_U64,
    }
}

fn ends_of(k: usize) -> &'static [&'static [u8]; 11]
    requires { k < 8 }
{
    &ENDS[k]
}

#[test]
fn computes_operators_as_c_does(rt: HostRuntime) {
    for lanes in &LENGTHS {
        for k in 0..8 {
            let ends = ends_of(k);
            check_type(&rt, TYPES[k], ends[0], results_of(TYPES[k]), *lanes);
        }
    }
}

// Unary operators, copies and conversions of a type at a length.
fn check_singles(rt: &impl Abort, t: Ty, results: &[&[u8]; 11], lanes: usize, all: bool)
    requires { lanes ≤ 256 }
{
    let mut a = blank::<256>();
    let mut d = blank::<256>();
    let ends = results[0];
    check_single(
        rt,
        Single::Copy,
        t,
        ends,
        ends,
        all,
        &mut a[..lanes],
        &mut d[..lanes],
    );
    check_single(
        rt,
        Single::Operator(Op1::Neg),
        t,
        ends,
        results[1],
        all,
        &mut a[..lanes],
        &mut d[..lanes],
    );
    check_single(
        rt,
        Single::Operator(Op1::Not),
        t,
        ends,
        results[2],
        all,
        &mut a[..lanes],
        &mut d[..lanes],
    );
    for k in 0..8 {
        check_single(
            rt,
            Single::Conversion(TYPES[k]),
            t,
            ends,
            results[3 + k],
            all,
            &mut a[..lanes],
            &mut d[..lanes],
        );
    }
}

#[test]
fn negates_and_converts_as_c_does(rt: HostRuntime) {
    for lanes in &LENGTHS {
        for k in 0..8 {
            let results = ends_of(k);
            check_singles(&rt, TYPES[k], results, *lanes, true);
            check_singles(&rt, TYPES[k], results, *lanes, false);
        }
    }
}

#[test]
fn joins_masks(rt: HostRuntime) {
    let mut a = blank::<256>();
    for lanes in &LENGTHS {
        check_masks(&rt, &mut a[..*lanes]);
    }
}

#[test]
fn shifts_by_counts_of_other_types(rt: HostRuntime) {
    let mut mask = LaneMask::new(1);
    mask.set(0, true);
    let mut zero = LaneMask::new(1);
    let mut d = [OLD];
    lanes2(
        Op2::Shl,
        Ty::I32,
        &mask,
        &[wrap(Ty::I32, 1)],
        &[wrap(Ty::I8, -1)],
        Ty::I8,
        &mut d,
        &mut zero,
    );
    assert_eq!(&rt; d[0], wrap(Ty::I32, -2147483648));
    lanes2(
        Op2::Shr,
        Ty::I64,
        &mask,
        &[wrap(Ty::I64, -3)],
        &[wrap(Ty::U64, 65)],
        Ty::U64,
        &mut d,
        &mut zero,
    );
    assert_eq!(&rt; d[0], wrap(Ty::I64, -2));
}
