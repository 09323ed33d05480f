// Which directives a function may have.

ghost use Rattle.std.specs.Prelude.{◌≡◌, ◌≤◌, ◌||◌, false, length, map, not, MatchOption};
ghost use Rattle.std.specs.List.{list_all, list_any};
ghost use Rattle.vk_kinds.specs.Lengths.{has_sve_width};
ghost use Rattle.vk_kinds.specs.Sizes.{head_types, signature_tree, wds};
ghost use Rattle.vk_code_format.specs.Parameters.{param_of};
ghost use Rattle.vk_object.specs.Objects.{is_arm, is_directive, share_name};
ghost use Rattle.vk_object_fields.specs.Cut.{cut_row, is_near};
ghost use Rattle.vk_object_format.specs.Object.{is_directive_after};
ghost use Rattle.vk_object_format.specs.Values.{signature_of};
ghost use Rattle.vk_object_directives.specs.Signed.{IsSigned, is_ready};

use crate::names::share_name;
use vk_code_format::{ParamKind, ParamRow};
use vk_code_read::fields::is_good_simdlen;
use vk_kinds::{Head, Params, Signature, Target, has_sve_width};
use vk_object::parameters::{are_kinds, are_typed};
use vk_object_fields::parameters::param_of;
use vk_object_format::RawDirective;

// Whether a parameter that it names has a number of one byte.
fn is_near(row: ParamRow) -> bool
    ensures { result ≡ is_near row }
{
    match row.kind {
        ParamKind::Along => row.value < 256,
        ParamKind::Vector | ParamKind::Uniform | ParamKind::By => true,
    }
}

fn are_near(rows: &[ParamRow]) -> bool
    ensures { result ≡ list_all is_near rows.now }
{
    rows.iter().all(|row| is_near(*row))
}

// The parameters that the rows stand for.
fn params_of(rows: &[ParamRow]) -> Params
    requires { length rows.now ≤ 64 }
    ensures { result.items ≡ map (λ r. param_of (cut_row r)) rows.now }
{
    let mut params = Params::new();
    for row in rows {
        let _fits = params.try_push(param_of(*row));
    }
    params
}

// The signature that the directive stands for, where it has one.
#[tactic(auto, using(crate::proofs::Ready::near_params))]
fn signature_of(head: &Head, directive: &RawDirective) -> Option<Signature>
    ensures { MatchOption result ((is_ready (head_types head.now) directive.now ≡ false) × (length head.now.params.items ≤ 64))
        (λ s. IsSigned (head_types head.now) directive.now (signature_tree s)) }
{
    let rows = directive.params.as_slice();
    if head.params.len() != rows.len() {
        return None;
    }
    if !are_near(rows) {
        return None;
    }
    Some(Signature {
        params: params_of(rows),
        branch: directive.branch,
        simdlen: directive.simdlen,
    })
}

fn has_width(target: Target, head: &Head, s: &Signature) -> bool
    requires { length head.now.params.items ≡ length s.now.params.items }
    ensures { result ≡ (not (is_arm target) || has_sve_width s.now.simdlen (wds (head_types head.now) (signature_tree s.now))) }
{
    match target {
        Target::X86 => true,
        Target::Arm => has_sve_width(head, s),
    }
}

// Whether a function with this head may have the directive.
fn is_directive(target: Target, head: &Head, s: &Signature) -> bool
    requires { length head.now.params.items ≡ length s.now.params.items }
    ensures { result ≡ is_directive target (head_types head.now) (signature_tree s.now) }
{
    are_kinds(&s.params)
        && are_typed(&head.params, &s.params)
        && is_good_simdlen(s.simdlen)
        && has_width(target, head, s)
}

// Whether an earlier directive gives a name of this one.
fn shares(
    target: Target,
    head: &Head,
    earlier: &RawDirective,
    directive: &RawDirective,
    s: &Signature,
) -> bool
    requires { IsSigned (head_types head.now) directive.now (signature_tree s.now) }
    ensures { result ≡ share_name target (head_types head.now) (signature_of earlier.now) (signature_of directive.now) }
{
    match signature_of(head, earlier) {
        Some(e) => share_name(target, head, &e, s),
        None => false,
    }
}

// Whether one of the earlier directives gives a name of this one.
fn shares_any(
    target: Target,
    head: &Head,
    before: &[RawDirective],
    directive: &RawDirective,
    s: &Signature,
) -> bool
    requires { IsSigned (head_types head.now) directive.now (signature_tree s.now) }
    ensures { result ≡ list_any (λ e. share_name target (head_types head.now) (signature_of e) (signature_of directive.now)) before.now }
{
    before.iter().any(|e| shares(target, head, e, directive, s))
}

/// Whether a function with this head may have the directive behind those before it.
pub fn is_directive_after(
    target: Target,
    head: &Head,
    before: &[RawDirective],
    directive: &RawDirective,
) -> bool
    ensures { result ≡ is_directive_after target (head_types head.now) before.now directive.now }
{
    match signature_of(head, directive) {
        Some(s) => {
            is_directive(target, head, &s) && !shares_any(target, head, before, directive, &s)
        }
        None => false,
    }
}
