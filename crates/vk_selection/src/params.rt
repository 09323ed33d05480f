// Whether parameters are the same.

ghost use Rattle.std.specs.Prelude.{◌≡◌};
ghost use Rattle.std.specs.Bool.{Decides};
ghost use Rattle.vk_names.specs.Spelling.{kind_letter, step_of};

use vk_kinds::{Kind, Param, Step};

/// Whether parameters are the same.
pub fn are_same(left: &[Param], right: &[Param]) -> bool
    ensures { Decides result (left.now ≡ right.now) }
{
    let [a, left @ ..] = left else {
        return right.is_empty();
    };
    let [b, right @ ..] = right else {
        return false;
    };
    same_param(*a, *b) && are_same(left, right)
}

fn same_param(a: Param, b: Param) -> bool
    ensures { Decides result (a ≡ b) }
{
    same_kind(a.kind, b.kind) && same_align(a.align, b.align)
}

fn same_align(a: Option<u32>, b: Option<u32>) -> bool
    ensures { Decides result (a ≡ b) }
{
    match a {
        None => b.is_none(),
        Some(x) => match b {
            None => false,
            Some(y) => x == y,
        },
    }
}

#[tactic(auto, using(crate::proofs::SameKinds::kind_same))]
fn same_kind(a: Kind, b: Kind) -> bool
    ensures { Decides result (a ≡ b) }
{
    letter(a) == letter(b) && same_step_of(step_of(a), step_of(b))
}

fn letter(kind: Kind) -> u8
    ensures { result ≡ kind_letter kind }
{
    match kind {
        Kind::Vector => b'v',
        Kind::Uniform => b'u',
        Kind::Linear(_) => b'l',
        Kind::Ref(_) => b'R',
        Kind::Val(_) => b'L',
        Kind::Uval(_) => b'U',
    }
}

fn step_of(kind: Kind) -> Option<Step>
    ensures { result ≡ step_of kind }
{
    match kind {
        Kind::Vector => None,
        Kind::Uniform => None,
        Kind::Linear(step) => Some(step),
        Kind::Ref(step) => Some(step),
        Kind::Val(step) => Some(step),
        Kind::Uval(step) => Some(step),
    }
}

fn same_step_of(a: Option<Step>, b: Option<Step>) -> bool
    ensures { Decides result (a ≡ b) }
{
    match a {
        None => b.is_none(),
        Some(x) => match b {
            None => false,
            Some(y) => same_step(x, y),
        },
    }
}

fn same_step(a: Step, b: Step) -> bool
    ensures { Decides result (a ≡ b) }
{
    match a {
        Step::One => match b {
            Step::One => true,
            Step::By(_) => false,
            Step::Arg(_) => false,
        },
        Step::By(x) => match b {
            Step::One => false,
            Step::By(y) => x == y,
            Step::Arg(_) => false,
        },
        Step::Arg(x) => match b {
            Step::One => false,
            Step::By(_) => false,
            Step::Arg(y) => x == y,
        },
    }
}
