// Whether two directives of a function give one name.

ghost use Rattle.std.specs.Prelude.{◌≡◌, length};
ghost use Rattle.std.specs.List.{list_any};
ghost use Rattle.vk_kinds.specs.Sizes.{head_types, signature_tree};
ghost use Rattle.vk_code.specs.Tests.{pairs};
ghost use Rattle.vk_object.specs.Objects.{lanes_of, letter_number, same_kind, same_number, same_param, same_step, same_variant, share_name};

use vk_kinds::{Head, Isa, Kind, Len, Length, Param, Signature, Step, Target, lengths};

fn same_step(a: Step, b: Step) -> bool
    ensures { result ≡ same_step a b }
{
    match (a, b) {
        (Step::One, Step::One) => true,
        (Step::By(a), Step::By(b)) => a == b,
        (Step::Arg(a), Step::Arg(b)) => a == b,
        _ => false,
    }
}

fn same_kind(a: Kind, b: Kind) -> bool
    ensures { result ≡ same_kind a b }
{
    match (a, b) {
        (Kind::Vector, Kind::Vector) => true,
        (Kind::Uniform, Kind::Uniform) => true,
        (Kind::Linear(a), Kind::Linear(b)) => same_step(a, b),
        (Kind::Ref(a), Kind::Ref(b)) => same_step(a, b),
        (Kind::Val(a), Kind::Val(b)) => same_step(a, b),
        (Kind::Uval(a), Kind::Uval(b)) => same_step(a, b),
        _ => false,
    }
}

fn same_align(a: Option<u32>, b: Option<u32>) -> bool
    ensures { result ≡ same_number a b }
{
    match (a, b) {
        (None, None) => true,
        (Some(a), Some(b)) => a == b,
        _ => false,
    }
}

fn same_param(a: Param, b: Param) -> bool
    ensures { result ≡ same_param a b }
{
    same_kind(a.kind, b.kind) && same_align(a.align, b.align)
}

fn same_params(ps: &[Param], qs: &[Param]) -> bool
    ensures { result ≡ pairs same_param ps.now qs.now }
{
    let [p, ps @ ..] = ps else {
        return matches!(qs, []);
    };
    let [q, qs @ ..] = qs else {
        return false;
    };
    same_param(*p, *q) && same_params(ps, qs)
}

fn letter_number(isa: Isa) -> u8
    ensures { result ≡ letter_number isa }
{
    match isa {
        Isa::B => 0,
        Isa::C => 1,
        Isa::D => 2,
        Isa::E => 3,
        Isa::N => 4,
        Isa::S => 5,
    }
}

fn same_len(a: Len, b: Len) -> bool
    ensures { result ≡ same_number (lanes_of a) (lanes_of b) }
{
    match (a, b) {
        (Len::Scalable, Len::Scalable) => true,
        (Len::Fixed(a), Len::Fixed(b)) => a == b,
        _ => false,
    }
}

fn same_variant(a: Length, b: Length) -> bool
    ensures { result ≡ same_variant a b }
{
    let same_mask = if a.masked { b.masked } else { !b.masked };
    letter_number(a.isa) == letter_number(b.isa) && same_mask && same_len(a.len, b.len)
}

fn has_variant(variants: &[Length], variant: Length) -> bool
    ensures { result ≡ list_any (same_variant variant) variants.now }
{
    variants.iter().any(|other| same_variant(variant, *other))
}

fn share_variant(ours: &[Length], theirs: &[Length]) -> bool
    ensures { result ≡ list_any (λ v. list_any (same_variant v) theirs.now) ours.now }
{
    ours.iter().any(|variant| has_variant(theirs, *variant))
}

/// Whether two directives of a function give one name. Their parameters are compared first.
#[tactic(auto, using(crate::proofs::Ready::pairs_length))]
pub fn share_name(target: Target, head: &Head, s: &Signature, t: &Signature) -> bool
    requires { length head.now.params.items ≡ length t.now.params.items }
    ensures { result ≡ share_name target (head_types head.now) (signature_tree s.now) (signature_tree t.now) }
{
    if !same_params(&s.params, &t.params) {
        return false;
    }
    let ours = lengths(target, head, s);
    let theirs = lengths(target, head, t);
    share_variant(&ours, &theirs)
}
