// The rules on whole directives: D18 and D19.

ghost use Rattle.std.specs.Prelude.{◌≡◌, Some, length, map};
ghost use Rattle.std.specs.List.{list_any};
ghost use Rattle.vk_ast.specs.Directives.{directive_of};
ghost use Rattle.vk_ast.specs.Units.{function_of};
ghost use Rattle.vk_kinds.specs.Sizes.{head_types, signature_tree};
ghost use Rattle.vk_rules_book.specs.Directives.{is_no_width};
ghost use Rattle.vk_rules_book.specs.Faults.{first_among};
ghost use Rattle.vk_rules_book.specs.Signatures.{head_of, same_branch, same_kind, same_length, same_number, same_params, same_signature, same_step, share_a_name};
ghost use Rattle.vk_rules_directives.specs.Inner.Signed.{gives_too, same_option, seen, share_length, signed, whole_faults_by};

use crate::entries::directive_fault;
use crate::joins::either;
use vk_ast::{Directive, Function};
use vk_kinds::{
    Branch, Head, Kind, Length, Param, Signature, Step, Target, has_sve_width, lengths,
};
use vk_rules_names::Note;
use vk_rules_signatures::head_of;
use vk_unit_rules::UnitRule;

fn same_step(a: Step, b: Step) -> bool
    ensures { result ≡ same_step a b }
{
    match (a, b) {
        (Step::One, Step::One) => true,
        (Step::By(a), Step::By(b)) => a == b,
        (Step::Arg(a), Step::Arg(b)) => a == b,
        _ => false,
    }
}

// Whether two parameters are both vectors, both uniform or linear by one step.
fn same_kind(a: Kind, b: Kind) -> bool
    ensures { result ≡ same_kind a b }
{
    match (a, b) {
        (Kind::Vector, Kind::Vector) | (Kind::Uniform, Kind::Uniform) => true,
        (Kind::Linear(a), Kind::Linear(b)) => same_step(a, b),
        _ => false,
    }
}

fn same_align(a: Option<u32>, b: Option<u32>) -> bool
    ensures { result ≡ same_number a b }
{
    match (a, b) {
        (None, None) => true,
        (Some(a), Some(b)) => a == b,
        _ => false,
    }
}

fn same_simdlen(a: Option<u16>, b: Option<u16>) -> bool
    ensures { result ≡ same_number a b }
{
    match (a, b) {
        (None, None) => true,
        (Some(a), Some(b)) => a == b,
        _ => false,
    }
}

#[tactic(auto, unfolding(vk_rules_book::specs::Signatures::same_params))]
fn same_params(ps: &[Param], qs: &[Param]) -> bool
    ensures { result ≡ same_params ps.now qs.now }
{
    let [p, ps @ ..] = ps else {
        return matches!(qs, []);
    };
    let [q, qs @ ..] = qs else {
        return false;
    };
    same_kind(p.kind, q.kind) && same_align(p.align, q.align) && same_params(ps, qs)
}

fn same_branch(a: Branch, b: Branch) -> bool
    ensures { result ≡ same_branch a b }
{
    a == b
}

fn same_signature(s: &Signature, t: &Signature) -> bool
    ensures { result ≡ same_signature (signature_tree s.now) (signature_tree t.now) }
{
    same_params(&s.params, &t.params)
        && same_branch(s.branch, t.branch)
        && same_simdlen(s.simdlen, t.simdlen)
}

// Whether two directives have signatures that are alike.
pub(crate) fn same_option(s: &Option<Signature>, t: &Option<Signature>) -> bool
    ensures { result ≡ same_option (seen s.now) (seen t.now) }
{
    match (s, t) {
        (Some(s), Some(t)) => same_signature(s, t),
        _ => false,
    }
}

fn same_length(a: Length, b: Length) -> bool
    ensures { result ≡ same_length a b }
{
    a.isa == b.isa && a.masked == b.masked && a.len == b.len
}

fn has_length(ys: &[Length], a: Length) -> bool
    ensures { result ≡ list_any (λ b. same_length a b) ys.now }
{
    ys.iter().any(|b| same_length(a, *b))
}

fn share_length(xs: &[Length], ys: &[Length]) -> bool
    ensures { result ≡ share_length xs.now ys.now }
{
    xs.iter().any(|a| has_length(ys, *a))
}

// Whether two directives of a function give the same name. Their parameters are compared first.
#[tactic(auto, using(crate::proofs::Givens::equal_lengths), unfolding(vk_rules_book::specs::Signatures::share_a_name))]
fn share_a_name(target: Target, h: &Head, s: &Signature, t: &Signature) -> bool
    requires { length h.now.params.items ≡ length t.now.params.items }
    ensures { result ≡ share_a_name target (head_types h.now) (signature_tree s.now) (signature_tree t.now) }
{
    if !same_params(&s.params, &t.params) {
        return false;
    }
    let ours = lengths(target, h, s);
    let theirs = lengths(target, h, t);
    share_length(&ours, &theirs)
}

fn gives_too(target: Target, h: &Head, t: &Signature, s: &Option<Signature>) -> bool
    requires { length h.now.params.items ≡ length t.now.params.items }
    ensures { result ≡ gives_too target (head_types h.now) (signature_tree t.now) (seen s.now) }
{
    match s {
        Some(s) => share_a_name(target, h, s, t),
        None => false,
    }
}

// Whether one of the earlier directives gives a name that this one gives.
fn repeats(target: Target, h: &Head, earlier: &[Option<Signature>], t: &Signature) -> bool
    requires { length h.now.params.items ≡ length t.now.params.items }
    ensures { result ≡ list_any (gives_too target (head_types h.now) (signature_tree t.now)) (map seen earlier.now) }
{
    let mut given = false;
    for s in earlier {
        given = either(given, gives_too(target, h, t, s));
    }
    given
}

fn is_no_width(target: Target, h: &Head, s: &Signature) -> bool
    requires { length h.now.params.items ≡ length s.now.params.items }
    ensures { result ≡ is_no_width target (head_types h.now) (signature_tree s.now) }
{
    match target {
        Target::X86 => false,
        Target::Arm => !has_sve_width(h, s),
    }
}

// Judges a directive with a signature behind others of its declaration.
#[tactic(auto, using(vk_rules_book::proofs::Noting::among_append))]
fn judge_signature(
    target: Target,
    h: &Head,
    earlier: &[Option<Signature>],
    s: &Signature,
    d: &Directive,
    note: &mut Note,
)
    requires { length h.now.params.items ≡ length s.now.params.items }
    ensures { note.new.first ≡ first_among note.old.first
        (whole_faults_by target (head_types h.now) (map seen earlier.now) (Some (signature_tree s.now)) (directive_of d.now)) }
{
    note.add(
        is_no_width(target, h, s),
        directive_fault(d, d.token, UnitRule::D18),
    );
    note.add(
        repeats(target, h, earlier, s),
        directive_fault(d, d.token, UnitRule::D19),
    );
}

// Judges a directive behind others of its declaration, by their signatures.
#[tactic(auto, using(vk_rules_book::proofs::Noting::among_none))]
pub(crate) fn judge_whole(
    target: Target,
    f: &Function,
    earlier: &[Option<Signature>],
    signature: &Option<Signature>,
    d: &Directive,
    note: &mut Note,
)
    requires { seen signature.now ≡ signed (function_of f.now) (directive_of d.now) }
    ensures { note.new.first ≡ first_among note.old.first
        (whole_faults_by target (head_of (function_of f.now)) (map seen earlier.now) (seen signature.now) (directive_of d.now)) }
{
    match signature {
        Some(s) => {
            let h = head_of(f);
            judge_signature(target, &h, earlier, s, d, note);
        }
        None => {}
    }
}
