// The types of a function's parameters, by their names.

ghost use Rattle.std.specs.Prelude.{◌≡◌, cond, None, Some, OnOk};
ghost use Rattle.std.specs.Option.{option_or};
ghost use Rattle.vk_ast.specs.declared.names.NameId.{NameId};
ghost use Rattle.vk_rules_book.specs.Signatures.{is_named};
ghost use Rattle.vk_rules_directives.specs.Inner.Tables.{AreTypes, type_at};

use crate::names::{add_type, remove_type};
use vk_ast::{Memory, ParamDecl};
use vk_kinds::CType;

fn learn_one(types: &mut Vec<Option<CType>>, p: &ParamDecl) -> Result<(), Memory>
    ensures { OnOk result ((id : NameId) → type_at types.new.items id ≡ option_or (type_at types.old.items id) (cond (is_named id p.now) (Some p.now.ctype) None)) }
{
    if let Some(id) = p.name {
        add_type(types, id, p.ctype)?;
    }
    Ok(())
}

// Makes an empty table that of these parameters.
pub(crate) fn learn(types: &mut Vec<Option<CType>>, params: &[ParamDecl]) -> Result<(), Memory>
    requires { (id : NameId) → type_at types.old.items id ≡ None }
    ensures { OnOk result (AreTypes types.new.items params.now) }
{
    for p in params {
        learn_one(types, p)?;
    }
    Ok(())
}

fn unlearn_one(types: &mut Vec<Option<CType>>, p: &ParamDecl) -> Result<(), Memory>
    ensures { OnOk result ((id : NameId) → type_at types.new.items id ≡ cond (is_named id p.now) None (type_at types.old.items id)) }
{
    if let Some(id) = p.name {
        remove_type(types, id)?;
    }
    Ok(())
}

// Makes the table of these parameters empty.
pub(crate) fn unlearn(types: &mut Vec<Option<CType>>, params: &[ParamDecl]) -> Result<(), Memory>
    requires { AreTypes types.old.items params.now }
    ensures { OnOk result ((id : NameId) → type_at types.new.items id ≡ None) }
{
    for p in params {
        unlearn_one(types, p)?;
    }
    Ok(())
}
