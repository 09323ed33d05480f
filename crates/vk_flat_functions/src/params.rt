// Parameters as locals in the first registers.

ghost use Rattle.std.specs.Prelude.{◌≡◌, ◌≤◌, length, true, IfOk};
ghost use Rattle.std.specs.List.{list_all};
ghost use Rattle.vk_rules_book.specs.Scopes.{types_of};
ghost use Rattle.vk_one_return.specs.Form.{is_integer};
ghost use Rattle.vk_flat_functions.specs.Params.{AreParams, IsParam};

use std::alloc::{AllocError, Global};
use vk_ast::ParamDecl;
use vk_flat::Place;
use vk_flat::locals::Local;
use vk_kinds::CType;

/// The types of parameters.
pub fn types_of(alloc: Global, params: &[ParamDecl]) -> Result<Vec<CType>, AllocError>
    ensures { IfOk result (λ types. types.items ≡ types_of params.now) }
{
    params.iter().map(|param| param.ctype).collect(alloc)
}

/// Parameters with names and integer types, in the registers from 0 on.
pub fn locals_of(alloc: Global, params: &[ParamDecl]) -> Result<Vec<Local>, AllocError>
    requires integers { list_all is_integer params.now ≡ true }
    requires few { length params.now ≤ 64 }
    ensures { IfOk result (λ locals. AreParams 0 params.now locals.items) }
{
    let mut locals = Vec::new(alloc);
    for (register, param) in params.iter().enumerate() {
        locals.push(local_of(register as u16, param))?;
    }
    Ok(locals)
}

// A parameter in a register.
fn local_of(register: u16, param: &ParamDecl) -> Local
    requires { is_integer param.now ≡ true }
    ensures { IsParam register param.now result }
{
    let Some(name) = param.name else {
        unreachable!();
    };
    let Some(ty) = param.ctype.integer() else {
        unreachable!();
    };
    Local {
        name,
        place: Place { register, ty },
    }
}
