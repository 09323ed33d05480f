// The parameters of a function, by their names.

ghost use Rattle.std.specs.Prelude.{◌≡◌, ◌≤◌, length, Some};
ghost use Rattle.vk_rules_book.specs.Signatures.{is_integer, is_named, number_of, param_of, pointee, pointee_of};

use vk_ast::{NameId, ParamDecl};
use vk_kinds::CType;
use vk_types::Ty;

/// Whether a parameter has this name.
pub fn is_named(id: NameId, p: &ParamDecl) -> bool
    ensures { result ≡ is_named id p.now }
{
    match p.name {
        Some(own) => own.0 == id.0,
        None => false,
    }
}

/// Whether a parameter is an integer.
pub fn is_integer(p: &ParamDecl) -> bool
    ensures { result ≡ is_integer (Some p.now) }
{
    match p.ctype {
        CType::Int(_) => true,
        CType::Void | CType::Ptr { .. } => false,
    }
}

/// The type that a pointer points to, none of other types.
pub fn pointee(ctype: CType) -> Option<Ty>
    ensures { result ≡ pointee ctype }
{
    match ctype {
        CType::Ptr { to, written: _ } => Some(to),
        CType::Void | CType::Int(_) => None,
    }
}

// The type that the first of these parameters with this name points to, none where it is no pointer.
#[tactic(auto, unfolding(vk_rules_book::specs::Signatures::param_of))]
pub(crate) fn pointee_of(params: &[ParamDecl], id: NameId) -> Option<Ty>
    ensures { result ≡ pointee_of params.now id }
{
    match params {
        [] => None,
        [p, rest @ ..] => {
            if is_named(id, p) {
                pointee(p.ctype)
            } else {
                pointee_of(rest, id)
            }
        }
    }
}

// Whether the first of these parameters with this name is an integer.
#[tactic(auto, unfolding(vk_rules_book::specs::Signatures::param_of))]
pub(crate) fn is_integer_named(params: &[ParamDecl], id: NameId) -> bool
    ensures { result ≡ is_integer (param_of params.now id) }
{
    match params {
        [] => false,
        [p, rest @ ..] => {
            if is_named(id, p) {
                is_integer(p)
            } else {
                is_integer_named(rest, id)
            }
        }
    }
}

// The number of the first of these parameters with this name.
#[tactic(auto, unfolding(vk_rules_book::specs::Signatures::number_of))]
pub(crate) fn number_of(params: &[ParamDecl], id: NameId) -> usize
    ensures number { result ≡ number_of params.now id }
    ensures within { result ≤ length params.now }
{
    match params {
        [] => 0,
        [p, rest @ ..] => {
            if is_named(id, p) {
                0
            } else {
                1 + number_of(rest, id)
            }
        }
    }
}
