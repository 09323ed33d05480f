// Signatures and heads.

ghost use Rattle.std.specs.Prelude.{◌≡◌, ◌≤◌, ◌+◌, ◌++◌, ◌∷◌, [], true, false, length, map};
ghost use Rattle.std.specs.List.{list_any};
ghost use Rattle.arrayvec.specs.ArrayVec.{array_vec_len};
ghost use Rattle.vk_ast.specs.Directives.{clause_of, directive_of};
ghost use Rattle.vk_ast.specs.Units.{function_of};
ghost use Rattle.vk_kinds.specs.Sizes.{head_types, signature_tree};
ghost use Rattle.vk_rules_book.specs.Directives.{has_signature, has_wrong_step};
ghost use Rattle.vk_rules_book.specs.Scopes.{types_of};
ghost use Rattle.vk_rules_book.specs.Signatures.{head_of, param_signature, signature_of};

use crate::clauses::{align_in, branch_in, kind_in, simdlen_in};
use vk_ast::{Directive, Function, NameId, ParamDecl};
use vk_kinds::{Head, Kind, Param, Params, Signature, Types};

// What a directive says of the parameter with this name.
fn param_signature(f: &Function, d: &Directive, name: Option<NameId>) -> Param
    requires few { length f.now.params.items ≤ 64 }
    requires right { list_any (λ c. has_wrong_step (function_of f.now) (directive_of d.now) c.says) (map clause_of d.now.clauses.items) ≡ false }
    ensures { result ≡ param_signature (function_of f.now) (directive_of d.now) name }
{
    match name {
        None => Param {
            kind: Kind::Vector,
            align: None,
        },
        Some(id) => Param {
            kind: kind_in(f, d, id, &d.clauses),
            align: align_in(id, &d.clauses),
        },
    }
}

// What it says of each parameter.
fn params_of(f: &Function, d: &Directive) -> Params
    requires few { length f.now.params.items ≤ 64 }
    requires right { list_any (λ c. has_wrong_step (function_of f.now) (directive_of d.now) c.says) (map clause_of d.now.clauses.items) ≡ false }
    ensures { result.items ≡ map (λ p. param_signature (function_of f.now) (directive_of d.now) p.name) f.now.params.items }
{
    let mut params = Params::new();
    for p in &f.params {
        params.push(param_signature(f, d, p.name));
    }
    params
}

/// What a directive says of its function (OpenMP 5.2, 7.7): of each parameter whether its lanes have their own values, one value
/// or values that grow by a step, in bytes for a pointer, and its alignment in bytes; where its variants are called; and how many
/// lanes it asks for.
///
/// The directive breaks none of the rules on clauses and on the names that they list, and its function has at most 64 parameters.
#[tactic(auto, unfolding(vk_rules_book::specs::Signatures::signature_of))]
pub fn signature_of(f: &Function, d: &Directive) -> Signature
    requires { has_signature (function_of f.now) (directive_of d.now) ≡ true }
    ensures { signature_tree result ≡ signature_of (function_of f.now) (directive_of d.now) }
{
    Signature {
        params: params_of(f, d),
        branch: branch_in(&d.clauses),
        simdlen: simdlen_in(&d.clauses),
    }
}

fn types_of(params: &[ParamDecl]) -> Types
    requires { length params.now ≤ 64 }
    ensures { result.items ≡ types_of params.now }
{
    let mut types = Types::new();
    for p in params {
        types.push(p.ctype);
    }
    types
}

/// The types of a function of at most 64 parameters.
pub fn head_of(f: &Function) -> Head
    requires { length f.now.params.items ≤ 64 }
    ensures { head_types result ≡ head_of (function_of f.now) }
{
    Head {
        result: f.result,
        params: types_of(&f.params),
    }
}
