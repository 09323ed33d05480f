// What code of an object may name.

ghost use Rattle.std.specs.Prelude.{◌≡◌, map, IfOk, IfSome};
ghost use Rattle.vk_kinds.specs.Sizes.{head_types};
ghost use Rattle.vk_code.specs.Valid.{callee_of as callee_of_head, environment_of};
ghost use Rattle.vk_object.specs.Objects.{callee_of, names_of, object_of};
ghost use Rattle.vk_object_format.specs.Values.{data_of, function_of, head_of, object_of as object_of_raw};

use std::alloc::Global;
use vk_code::{Env, FunctionHead, ObjectHead};
use vk_kinds::{Head, Types};
use vk_memory::Memory;
use vk_object_format::{RawData, RawFunction, RawObject};

// The types of a function of at most 64 parameters.
fn head_of(function: &RawFunction) -> Option<Head>
    ensures some { IfSome result (λ h. head_types h ≡ head_of function.now) }
{
    let mut params = Types::new();
    if params
        .try_extend_from_slice(function.params.as_slice())
        .is_err()
    {
        return None;
    }
    Some(Head {
        result: function.result,
        params,
    })
}

fn function_head(function: &RawFunction) -> Result<FunctionHead, Memory>
    ensures { IfOk result (λ f. callee_of_head f ≡ callee_of (function_of function.now)) }
{
    match head_of(function) {
        Some(head) => Ok(FunctionHead {
            head,
            simd: function.directives.len() != 0,
        }),
        // Does not come: there are at most 64 parameters.
        None => Err(Memory),
    }
}

fn function_heads(alloc: Global, functions: &[RawFunction]) -> Result<Vec<FunctionHead>, Memory>
    ensures { IfOk result (λ heads. map callee_of_head heads.items ≡ map callee_of (map function_of functions.now)) }
{
    let mut heads = Vec::new(alloc);
    for function in functions {
        heads.push(function_head(function)?)?;
    }
    Ok(heads)
}

fn object_head(object: &RawData) -> ObjectHead
    ensures { result ≡ object_of (data_of object.now) }
{
    ObjectHead {
        ty: object.ty,
        fixed: object.fixed,
    }
}

fn object_heads(alloc: Global, objects: &[RawData]) -> Result<Vec<ObjectHead>, Memory>
    ensures { IfOk result (λ heads. heads.items ≡ map object_of (map data_of objects.now)) }
{
    let mut heads = Vec::new(alloc);
    for object in objects {
        heads.push(object_head(object))?;
    }
    Ok(heads)
}

/// The functions and the objects.
pub(crate) fn names_of(alloc: Global, object: &RawObject) -> Result<Env, Memory>
    ensures { IfOk result (λ env. environment_of env ≡ names_of (object_of_raw object.now)) }
{
    let functions = function_heads(alloc, object.functions.as_slice())?;
    let objects = object_heads(alloc, object.objects.as_slice())?;
    Ok(Env {
        image: false,
        functions,
        objects,
    })
}
