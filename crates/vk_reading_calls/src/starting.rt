// How a function starts and ends.

ghost use Rattle.std.specs.Prelude.{◌≡◌, [], IfOk, OnOk};
ghost use Rattle.vk_meaning.specs.Meaning.{fallen};
ghost use Rattle.vk_reading.specs.Held.{IsHeld, datum_of};
ghost use Rattle.vk_rules_book.specs.Scopes.{with_param, with_params};
ghost use Rattle.vk_rules_names.specs.Seen.{scope_at};
ghost use Rattle.vk_rules_names.specs.declared.known.Place.{Place};
ghost use Rattle.vk_reading_statements.specs.Flows.{IsSound};
ghost use Rattle.vk_reading_calls.specs.Ends.{given_by};

use std::alloc::Global;
use vk_ast::ParamDecl;
use vk_kinds::CType;
use vk_memory::Memory;
use vk_reading::Held;
use vk_reading_statements::{Flow, Locals};
use vk_reading_steps::operands::literal;
use vk_rules_book::Binding;
use vk_types::Ty;

// Makes a parameter visible, where it has a name.
fn bind(bindings: &mut Vec<Binding>, p: &ParamDecl) -> Result<(), Memory>
    ensures { (place : Place) → OnOk result (scope_at place bindings.new.items 0 ≡ with_param (scope_at place bindings.old.items 0) p.now.name p.now) }
{
    match p.name {
        Some(name) => {
            bindings.push(Binding {
                name,
                ctype: p.ctype,
                fixed: p.fixed,
            })?;
            Ok(())
        }
        None => Ok(()),
    }
}

// The parameters that have names, in their order.
fn bindings_of(alloc: Global, params: &[ParamDecl]) -> Result<Vec<Binding>, Memory>
    ensures { (place : Place) → IfOk result (λ v. scope_at place v.items 0 ≡ with_params (scope_at place [] 0) params.now) }
{
    let mut bindings = Vec::new(alloc);
    for p in params {
        bind(&mut bindings, p)?;
    }
    Ok(bindings)
}

/// The parameters, which have these arguments.
pub fn first_locals(
    alloc: Global,
    params: &[ParamDecl],
    arguments: &[Held],
) -> Result<Locals, Memory>
    ensures scope { (place : Place) → IfOk result (λ l. scope_at place l.bindings.items 0 ≡ with_params (scope_at place [] 0) params.now) }
    ensures values { IfOk result (λ l. l.values.items ≡ arguments.now) }
{
    let bindings = bindings_of(alloc, params)?;
    let mut values = Vec::new(alloc);
    values.extend_from_slice(arguments)?;
    Ok(Locals { bindings, values })
}

// What a function of this type gives that falls off its end: 0, or nothing where it is void.
fn fallen(ctype: CType) -> Held
    ensures value { datum_of result ≡ fallen ctype }
    ensures held { IsHeld result }
{
    match ctype {
        CType::Void | CType::Ptr { .. } => Held::Nothing,
        CType::Int(_) => literal(Ty::I32, 0),
    }
}

/// What a function of this type gives whose body ended so.
pub fn given_by(ctype: CType, flow: Flow) -> Held
    requires { IsSound flow }
    ensures value { datum_of result ≡ given_by ctype flow }
    ensures held { IsHeld result }
{
    match flow {
        Flow::Fell | Flow::Broke | Flow::Continued => fallen(ctype),
        Flow::Returned(held) => held,
    }
}
