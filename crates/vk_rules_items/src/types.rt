// Types of functions, and those that `print` and `main` have.

ghost use Rattle.std.specs.Prelude.{◌≡◌, ◌&&◌, ◌∷◌, [], map};
ghost use Rattle.vk_types.specs.declared.types.Ty.TheVariants.{I64};
ghost use Rattle.vk_kinds.specs.declared.heads.CType.TheVariants.{Void, Int};
ghost use Rattle.vk_ast.specs.Directives.{directive_of};
ghost use Rattle.vk_ast.specs.Units.{function_of};
ghost use Rattle.vk_rules_book.specs.Items.{is_wrong_main, is_wrong_print, same_ctype, same_ctypes};
ghost use Rattle.vk_rules_book.specs.Scopes.{has_directives, types_of};

use vk_ast::{Directive, Function, ParamDecl};
use vk_kinds::CType;
use vk_types::Ty;

/// Whether two types are the same.
pub fn same_ctype(a: CType, b: CType) -> bool
    ensures { result ≡ same_ctype a b }
{
    match (a, b) {
        (CType::Void, CType::Void) => true,
        (CType::Int(s), CType::Int(t)) => s == t,
        (CType::Ptr { to: s, written: v }, CType::Ptr { to: t, written: w }) => s == t && v == w,
        _ => false,
    }
}

/// Whether two lists of parameters have the same types.
pub fn same_types(a: &[ParamDecl], b: &[ParamDecl]) -> bool
    ensures { result ≡ same_ctypes (types_of a.now) (types_of b.now) }
{
    if a.len() != b.len() {
        return false;
    }
    for (i, p) in a.iter().enumerate() {
        if !same_ctype(p.ctype, b[i].ctype) {
            return false;
        }
    }
    true
}

// Whether there is one parameter, of type `long`.
#[tactic(auto, unfolding(vk_rules_book::specs::Items::same_ctypes))]
fn takes_long(params: &[ParamDecl]) -> bool
    ensures { result ≡ same_ctypes (types_of params.now) (Int I64 ∷ []) }
{
    match params {
        [] => false,
        [p] => same_ctype(p.ctype, CType::Int(Ty::I64)),
        [_, _, ..] => false,
    }
}

#[tactic(auto, unfolding(vk_rules_book::specs::Items::same_ctypes))]
fn takes_nothing(params: &[ParamDecl]) -> bool
    ensures { result ≡ same_ctypes (types_of params.now) [] }
{
    match params {
        [] => true,
        [_, ..] => false,
    }
}

fn has_directives(directives: &[Directive]) -> bool
    ensures { result ≡ has_directives (map directive_of directives.now) }
{
    match directives {
        [] => false,
        [_, ..] => true,
    }
}

/// Whether a function is not `void print(long)` without body and directives.
pub fn is_wrong_print(f: &Function) -> bool
    ensures { result ≡ is_wrong_print (function_of f.now) }
{
    !(((same_ctype(f.result, CType::Void) && takes_long(&f.params))
        && !has_directives(&f.directives))
        && f.body.is_none())
}

/// Whether a function is not `int main(void)` without directives.
pub fn is_wrong_main(f: &Function) -> bool
    ensures { result ≡ is_wrong_main (function_of f.now) }
{
    !((same_ctype(f.result, CType::Int(Ty::I32)) && takes_nothing(&f.params))
        && !has_directives(&f.directives))
}
