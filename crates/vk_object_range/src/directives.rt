// The numbers of directives, which are in range by their types.

ghost use Rattle.std.specs.Prelude.{◌≡◌, map};
ghost use Rattle.std.specs.List.{list_all};
ghost use Rattle.vk_kinds.specs.Sizes.{signature_tree};
ghost use Rattle.vk_object_laws.specs.Ranges.{directive_in_range, is_signed, kind_in_range, param_in_range, step_in_range};

use vk_kinds::{Kind, Param, Signature, Step};

/// A number of 32 bits with a sign is one.
pub(crate) fn is_signed(n: i32) -> bool
    ensures { result ≡ is_signed n }
{
    i32::MIN <= n
}

fn is_step(step: Step) -> bool
    ensures { result ≡ step_in_range step }
{
    match step {
        Step::One => true,
        Step::By(n) => is_signed(n),
        Step::Arg(place) => place <= u8::MAX,
    }
}

fn is_kind(kind: Kind) -> bool
    ensures { result ≡ kind_in_range kind }
{
    match kind {
        Kind::Vector => true,
        Kind::Uniform => true,
        Kind::Linear(step) => is_step(step),
        Kind::Ref(step) => is_step(step),
        Kind::Val(step) => is_step(step),
        Kind::Uval(step) => is_step(step),
    }
}

fn is_param(param: Param) -> bool
    ensures { result ≡ param_in_range param }
{
    is_kind(param.kind)
}

fn are_params(params: &[Param]) -> bool
    ensures { result ≡ list_all param_in_range params.now }
{
    params.iter().all(|param| is_param(*param))
}

fn is_directive(directive: &Signature) -> bool
    ensures { result ≡ directive_in_range (signature_tree directive.now) }
{
    are_params(directive.params.as_slice())
}

fn each_directive(directives: &[Signature]) -> bool
    ensures { result ≡ list_all (λ x. directive_in_range (signature_tree x)) directives.now }
{
    directives.iter().all(|directive| is_directive(directive))
}

/// Whether the numbers of directives are in range.
pub(crate) fn are_directives(directives: &[Signature]) -> bool
    ensures { result ≡ list_all directive_in_range (map signature_tree directives.now) }
{
    each_directive(directives)
}
