ghost use Rattle.std.specs.Prelude.{◌+◌, ◌≤◌, length};
ghost use Rattle.std.specs.List.{flat_map};
ghost use Rattle.vk_names.specs.Inner.Feeds.{Stands};

use arrayvec::ArrayVec;
use std::process::Abort;
use vk_kinds::{Isa, Kind, Len, Param, Step};
use vk_names::{NameFault, NameFeed, NameRule, Progress, read_name, write_name};

macro_rules! param {
    ($kind:expr) => {
        Param {
            kind: $kind,
            align: None,
        }
    };
    ($kind:expr, $align:expr) => {
        Param {
            kind: $kind,
            align: Some($align),
        }
    };
}

/// A name that is accepted, and what it says.
#[derive(Drop)]
struct Accepted {
    text: &'static [u8],
    isa: Isa,
    masked: bool,
    len: Len,
    params: &'static [Param],
    scalar_at: u32,
    used: u32,
}

/// Reads an accepted name, compares it, and writes it again.
fn accept(rt: &impl Abort, row: &Accepted) {
    let text = row.text;
    match read_name(text) {
        Ok(name) => {
            assert_eq!(rt; name.head.isa, row.isa);
            assert_eq!(rt; name.head.masked, row.masked);
            assert_eq!(rt; name.head.len, row.len);
            assert!(rt; name.head.params.as_slice() == row.params);
            assert_eq!(rt; name.scalar_at, row.scalar_at);
            assert_eq!(rt; name.used, row.used);
            let used = name.used as usize;
            assert!(rt; used <= text.len());
            let spelled = &text[..used];
            let mut out = ArrayVec::new();
            write_name(&name.head, &spelled[name.scalar_at as usize..], &mut out);
            assert!(rt; out.as_slice() == spelled);
        }
        Err(_) => assert!(rt; false, "refused"),
    }
}

#[test]
fn reads_what_is_accepted_and_writes_it_again(rt: HostRuntime) {
    let rows = [
        Accepted {
            text: b"_ZGVbN4vl4u_f",
            isa: Isa::B,
            masked: false,
            len: Len::Fixed(4),
            params: &[
                param!(Kind::Vector),
                param!(Kind::Linear(Step::By(4))),
                param!(Kind::Uniform),
            ],
            scalar_at: 12,
            used: 13,
        },
        Accepted {
            text: b"_ZGVdM8vls2ua32_g",
            isa: Isa::D,
            masked: true,
            len: Len::Fixed(8),
            params: &[
                param!(Kind::Vector),
                param!(Kind::Linear(Step::Arg(2))),
                param!(Kind::Uniform, 32),
            ],
            scalar_at: 16,
            used: 17,
        },
        Accepted {
            text: b"_ZGVsMxv_f",
            isa: Isa::S,
            masked: true,
            len: Len::Scalable,
            params: &[param!(Kind::Vector)],
            scalar_at: 9,
            used: 10,
        },
        Accepted {
            text: b"_ZGVbN4v__Z3fooi",
            isa: Isa::B,
            masked: false,
            len: Len::Fixed(4),
            params: &[param!(Kind::Vector)],
            scalar_at: 9,
            used: 16,
        },
        Accepted {
            text: b"_ZGVbN4_f",
            isa: Isa::B,
            masked: false,
            len: Len::Fixed(4),
            params: &[],
            scalar_at: 8,
            used: 9,
        },
        Accepted {
            text: b"_ZGVbN4v_f x",
            isa: Isa::B,
            masked: false,
            len: Len::Fixed(4),
            params: &[param!(Kind::Vector)],
            scalar_at: 9,
            used: 10,
        },
        Accepted {
            text: b"_ZGVeM65535u_a9_Z.",
            isa: Isa::E,
            masked: true,
            len: Len::Fixed(65535),
            params: &[param!(Kind::Uniform)],
            scalar_at: 13,
            used: 17,
        },
        Accepted {
            text: b"_ZGVcN1lln1ln2147483647l2147483647_f",
            isa: Isa::C,
            masked: false,
            len: Len::Fixed(1),
            params: &[
                param!(Kind::Linear(Step::One)),
                param!(Kind::Linear(Step::By(-1))),
                param!(Kind::Linear(Step::By(-2147483647))),
                param!(Kind::Linear(Step::By(2147483647))),
            ],
            scalar_at: 35,
            used: 36,
        },
        Accepted {
            text: b"_ZGVnN2uRs0L3Un4a65536va1_f",
            isa: Isa::N,
            masked: false,
            len: Len::Fixed(2),
            params: &[
                param!(Kind::Uniform),
                param!(Kind::Ref(Step::Arg(0))),
                param!(Kind::Val(Step::By(3))),
                param!(Kind::Uval(Step::By(-4)), 65536),
                param!(Kind::Vector, 1),
            ],
            scalar_at: 26,
            used: 27,
        },
        Accepted {
            text: b"_ZGVsM4Ls1uUla16_f",
            isa: Isa::S,
            masked: true,
            len: Len::Fixed(4),
            params: &[
                param!(Kind::Val(Step::Arg(1))),
                param!(Kind::Uniform),
                param!(Kind::Uval(Step::One)),
                param!(Kind::Linear(Step::One), 16),
            ],
            scalar_at: 17,
            used: 18,
        },
        Accepted {
            text: b"_ZGVbN4uuuuuuuuuuuuuuuuuuuuuuuuuuuuuuuuuuuuuuuuuuuuuuuuuuuuuuuuuuuuuuuu_f",
            isa: Isa::B,
            masked: false,
            len: Len::Fixed(4),
            params: &[param!(Kind::Uniform); 64],
            scalar_at: 72,
            used: 73,
        },
    ];
    for row in &rows {
        accept(&rt, row);
    }
}

/// Compares the place and the rule of a refusal.
fn refuse(rt: &impl Abort, text: &[u8], at: u32, rule: NameRule) {
    match read_name(text) {
        Ok(_) => assert!(rt; false, "accepted"),
        Err(fault) => assert!(rt;
            fault == NameFault { at, rule },
            "{fault:?} in place of {at} {rule:?}"
        ),
    }
}

#[test]
fn refuses_at_the_first_place(rt: HostRuntime) {
    let rows: [(&[u8], u32, NameRule); 62] = [
        (b"", 0, NameRule::N1),
        (b"_ZGX", 3, NameRule::N1),
        (b"_Z", 2, NameRule::N1),
        (b"ZGVbN4v_f", 0, NameRule::N1),
        (b"_ZG.bN4v_f", 3, NameRule::N1),
        (b"_ZGV", 4, NameRule::N2),
        (b"_ZGVaN4v_f", 4, NameRule::N2),
        (b"_ZGVBN4v_f", 4, NameRule::N2),
        (b"_ZGVb", 5, NameRule::N3),
        (b"_ZGVbX4v_f", 5, NameRule::N3),
        (b"_ZGVbn4v_f", 5, NameRule::N3),
        (b"_ZGVbN", 6, NameRule::N4),
        (b"_ZGVbN04v_f", 6, NameRule::N4),
        (b"_ZGVbN0v_f", 6, NameRule::N4),
        (b"_ZGVbN65536v_f", 6, NameRule::N4),
        (b"_ZGVbNv_f", 6, NameRule::N4),
        (b"_ZGVbN99999999999999999999v_f", 6, NameRule::N4),
        (b"_ZGVbNxv_f", 6, NameRule::N11),
        (b"_ZGVsNxv_f", 6, NameRule::N11),
        (b"_ZGVnMxv_f", 6, NameRule::N11),
        (b"_ZGVbN4w_f", 7, NameRule::N5),
        (b"_ZGVsMx5v_f", 7, NameRule::N5),
        (b"_ZGVbN4v5_f", 8, NameRule::N5),
        (b"_ZGVbN4vn3_f", 8, NameRule::N5),
        (b"_ZGVbN4l2n_f", 9, NameRule::N5),
        (b"_ZGVbN4va4a8_f", 10, NameRule::N5),
        (b"_ZGVbN4us0_f", 8, NameRule::N5),
        (b"_ZGVbN4l1_f", 8, NameRule::N6),
        (b"_ZGVbN4l0_f", 8, NameRule::N6),
        (b"_ZGVbN4l02_f", 8, NameRule::N6),
        (b"_ZGVbN4ln_f", 9, NameRule::N6),
        (b"_ZGVbN4ln", 9, NameRule::N6),
        (b"_ZGVbN4ln0_f", 9, NameRule::N6),
        (b"_ZGVbN4ln03_f", 9, NameRule::N6),
        (b"_ZGVbN4R2147483648_f", 8, NameRule::N6),
        (b"_ZGVbN4Ln2147483648_f", 9, NameRule::N6),
        (b"_ZGVbN4Ls_f", 9, NameRule::N6),
        (b"_ZGVbN4Us01u_f", 9, NameRule::N6),
        (b"_ZGVbN4ls0_f", 9, NameRule::N7),
        (b"_ZGVbN4ls1v_f", 9, NameRule::N7),
        (b"_ZGVbN4ls99999999999999999999u_f", 9, NameRule::N7),
        (b"_ZGVbN4ls256u_f", 9, NameRule::N7),
        (b"_ZGVbN4ls1uRs5_f", 13, NameRule::N7),
        (b"_ZGVbN4ls1v_", 9, NameRule::N7),
        (b"_ZGVbN4ls1v_1", 9, NameRule::N7),
        (b"_ZGVbN4va3_f", 9, NameRule::N8),
        (b"_ZGVbN4va_f", 9, NameRule::N8),
        (b"_ZGVbN4va", 9, NameRule::N8),
        (b"_ZGVbN4va08_f", 9, NameRule::N8),
        (b"_ZGVbN4va0_f", 9, NameRule::N8),
        (b"_ZGVbN4va131072_f", 9, NameRule::N8),
        (b"_ZGVbN4ln3a6_f", 11, NameRule::N8),
        (b"_ZGVbN4v", 8, NameRule::N9),
        (b"_ZGVbN4", 7, NameRule::N9),
        (b"_ZGVbN4ls0", 10, NameRule::N9),
        (b"_ZGVbN4l2 v_f", 9, NameRule::N9),
        (b"_ZGVbN4l.v_f", 8, NameRule::N9),
        (b"_ZGVbN4v_", 9, NameRule::N10),
        (b"_ZGVbN4v_1f", 9, NameRule::N10),
        (b"_ZGVbN4v_.f", 9, NameRule::N10),
        (
            b"_ZGVbN4vvvvvvvvvvvvvvvvvvvvvvvvvvvvvvvvvvvvvvvvvvvvvvvvvvvvvvvvvvvvvvvvv_f",
            71,
            NameRule::N12,
        ),
        (
            b"_ZGVbN4vvvvvvvvvvvvvvvvvvvvvvvvvvvvvvvvvvvvvvvvvvvvvvvvvvvvvvvvvvvvvvvvl1_f",
            71,
            NameRule::N12,
        ),
    ];
    for (text, at, rule) in &rows {
        refuse(&rt, text, *at, *rule);
    }
}

/// The place of the scalar name and the length of the name.
fn places(rt: &impl Abort, text: &[u8]) -> Option<(u32, u32)> {
    match read_name(text) {
        Ok(name) => Some((name.scalar_at, name.used)),
        Err(_) => None,
    }
}

#[test]
fn takes_1024_bytes_of_a_scalar_name(rt: HostRuntime) {
    let mut text: ArrayVec<u8, 1040> = ArrayVec::new();
    let _fits = text.try_extend_from_slice(b"_ZGVbN4v_");
    let _fits = text.try_extend_from_slice(&[b'q'; 1025]);
    let text = text.as_slice();
    assert_eq!(rt; text.len(), 1034);
    refuse(&rt, text, 1033, NameRule::N10);
    assert_eq!(rt; places(&rt, &text[..1033]), Some((9, 1033)));
}

/// What a feed should answer: nothing yet, the length of a name, or a refusal.
#[derive(Clone, Copy, PartialEq, Eq, Debug)]
enum Wanted {
    More,
    Done(u32),
    Fault(u32, NameRule),
}

/// Feeds a piece, and compares the answer.
fn feed(rt: &impl Abort, feed: &mut NameFeed, piece: &[u8], wanted: Wanted) {
    let answered = match feed.feed(piece) {
        Progress::More => Wanted::More,
        Progress::Done(name) => Wanted::Done(name.used),
        Progress::Fault(fault) => Wanted::Fault(fault.at, fault.rule),
    };
    assert_eq!(rt; answered, wanted);
}

/// What a feed answers at the end.
fn at_end(feed: &mut NameFeed) -> Wanted {
    match feed.end() {
        Ok(name) => Wanted::Done(name.used),
        Err(fault) => Wanted::Fault(fault.at, fault.rule),
    }
}

/// A feed stands for any pieces that were fed to it, one after the other.
fn after_pieces(pieces: &[&[u8]]) -> NameFeed
    ensures { Stands result (flat_map (λ piece. piece.now) pieces.now) }
{
    let mut feed = NameFeed::new();
    for piece in pieces {
        let _answer = feed.feed(piece);
    }
    feed
}

/// Feeds three pieces, and compares each answer and those at the end.
fn feed_all(rt: &impl Abort, pieces: &[(&[u8], Wanted); 3], wanted: Wanted) {
    let mut fed = NameFeed::new();
    let [first, second, third] = pieces;
    feed(rt, &mut fed, first.0, first.1);
    feed(rt, &mut fed, second.0, second.1);
    feed(rt, &mut fed, third.0, third.1);
    assert_eq!(rt; at_end(&mut fed), wanted);
    let mut again = after_pieces(&[first.0, second.0, third.0]);
    assert_eq!(rt; at_end(&mut again), wanted);
}

#[test]
fn answers_by_all_bytes_that_were_fed(rt: HostRuntime) {
    use Wanted::{Done, Fault, More};
    let rows: [([(&[u8], Wanted); 3], Wanted); 14] = [
        (
            [(b"_ZGVb", More), (b"N4v_f", More), (b".", Done(10))],
            Done(10),
        ),
        (
            [
                (b"_ZGVbN4v_f.", Done(10)),
                (b"g", Done(10)),
                (b"", Done(10)),
            ],
            Done(10),
        ),
        ([(b"", More), (b"_ZGVbN4v_", More), (b"f", More)], Done(10)),
        (
            [
                (b"_", More),
                (b"ZGX", Fault(3, NameRule::N1)),
                (b".", Fault(3, NameRule::N1)),
            ],
            Fault(3, NameRule::N1),
        ),
        (
            [(b"_ZG", More), (b"", More), (b"V", More)],
            Fault(4, NameRule::N2),
        ),
        (
            [
                (b"_ZGVbN65", More),
                (b"536", More),
                (b"v", Fault(6, NameRule::N4)),
            ],
            Fault(6, NameRule::N4),
        ),
        (
            [
                (b"_ZGVbN0", More),
                (b"4", More),
                (b".", Fault(6, NameRule::N4)),
            ],
            Fault(6, NameRule::N4),
        ),
        (
            [
                (b"_ZGVbN", More),
                (b"x", Fault(6, NameRule::N11)),
                (b"v", Fault(6, NameRule::N11)),
            ],
            Fault(6, NameRule::N11),
        ),
        (
            [(b"_ZGVbN4l1", More), (b"0", More), (b"_f", More)],
            Done(12),
        ),
        (
            [
                (b"_ZGVbN4l1", More),
                (b"v", Fault(8, NameRule::N6)),
                (b"_f", Fault(8, NameRule::N6)),
            ],
            Fault(8, NameRule::N6),
        ),
        (
            [(b"_ZGVbN4va3", More), (b"2", More), (b"_", More)],
            Fault(12, NameRule::N10),
        ),
        (
            [
                (b"_ZGVbN4va3", More),
                (b"_", Fault(9, NameRule::N8)),
                (b"f", Fault(9, NameRule::N8)),
            ],
            Fault(9, NameRule::N8),
        ),
        (
            [
                (b"_ZGVbN4ls0", More),
                (b"_", Fault(9, NameRule::N7)),
                (b"f", Fault(9, NameRule::N7)),
            ],
            Fault(9, NameRule::N7),
        ),
        (
            [
                (b"_ZGVbN4", More),
                (b" ", Fault(7, NameRule::N9)),
                (b"v_f", Fault(7, NameRule::N9)),
            ],
            Fault(7, NameRule::N9),
        ),
    ];
    for (pieces, wanted) in &rows {
        feed_all(&rt, pieces, *wanted);
    }
}

/// Feeds 300000 digits after the head, in pieces, then a byte, and compares the answers before and after it.
fn feed_digits(rt: &impl Abort, head: &[u8], open: Wanted, next: &[u8], wanted: Wanted) {
    let digits = [b'1'; 1000];
    let mut fed = NameFeed::new();
    feed(rt, &mut fed, head, Wanted::More);
    for _ in 0..300 {
        feed(rt, &mut fed, &digits, Wanted::More);
    }
    assert_eq!(rt; at_end(&mut fed), open);
    feed(rt, &mut fed, next, wanted);
    assert_eq!(rt; at_end(&mut fed), wanted);
}

#[test]
fn takes_any_number_of_digits(rt: HostRuntime) {
    use Wanted::Fault;
    let rows: [(&[u8], Wanted, &[u8], Wanted); 6] = [
        (
            b"_ZGVbN",
            Fault(6, NameRule::N4),
            b"v",
            Fault(6, NameRule::N4),
        ),
        (
            b"_ZGVbN4l",
            Fault(8, NameRule::N6),
            b"v",
            Fault(8, NameRule::N6),
        ),
        (
            b"_ZGVbN4va",
            Fault(9, NameRule::N8),
            b"v",
            Fault(9, NameRule::N8),
        ),
        (
            b"_ZGVbN4ls",
            Fault(300009, NameRule::N9),
            b"_",
            Fault(9, NameRule::N7),
        ),
        (
            b"_ZGVbN4ls",
            Fault(300009, NameRule::N9),
            b"z",
            Fault(300009, NameRule::N5),
        ),
        (
            b"_ZGVbN4ls",
            Fault(300009, NameRule::N9),
            b"l01v",
            Fault(300010, NameRule::N6),
        ),
    ];
    for (head, open, next, wanted) in &rows {
        feed_digits(&rt, head, *open, next, *wanted);
    }
}
