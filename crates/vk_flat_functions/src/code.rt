// The code of a function that returns an expression.

ghost use Rattle.std.specs.Prelude.{◌≡◌, ◌+◌, ◌*◌, ◌≤◌, ◌<◌, ℕ, [], length, true, IfOk, OnOk, IsTrue};
ghost use Rattle.std.specs.List.{list_all};
ghost use Rattle.vk_ast.specs.Tree.{cast, expr_of, nodes_of};
ghost use Rattle.vk_ast.specs.Units.{function_of};
ghost use Rattle.vk_rules_book.specs.Scopes.{types_of};
ghost use Rattle.vk_code.specs.Listing.{listing_of};
ghost use Rattle.vk_construct_whole.specs.Wholes.{started};
ghost use Rattle.vk_one_return.specs.Form.{IsReturn, IsSmall, is_integer};
ghost use Rattle.vk_flat.specs.Emitters.{written_of};
ghost use Rattle.vk_flat.specs.Locals.{ArePlaces, Emits, is_numeric};
ghost use Rattle.vk_flat_functions.specs.Finished.{finished};
ghost use Rattle.vk_flat_functions.specs.Returns.{HasParams, IsLaneCode, IsReturnCode, IsShort};

use crate::params::{locals_of, types_of};
use std::alloc::{AllocError, Global};
use vk_ast::{Expr, ParamDecl};
use vk_code::Code;
use vk_flat::expression::emit;
use vk_flat::locals::Local;
use vk_flat::{Emitter, Place, Under};
use vk_one_return::Form;
use vk_types::Ty;

/// The code of a function that is one `return`: its parameters in the first registers, and the returned expression, converted to the
/// type of the result, in another or in one of them.
pub fn compile(alloc: Global, form: &Form<'_>) -> Result<Code, AllocError>
    requires returns { IsReturn (function_of form.now.function.now) (expr_of form.now.value.now) form.now.result }
    requires small { IsSmall (function_of form.now.function.now) }
    ensures returns { IfOk result (λ code. IsReturnCode (function_of form.now.function.now) (expr_of form.now.value.now) form.now.result (listing_of code)) }
    ensures lanes { IfOk result (λ code. IsLaneCode (listing_of code)) }
    ensures params { IfOk result (λ code. HasParams (types_of form.now.function.now.params.items) (listing_of code)) }
    ensures short { IfOk result (λ code. IsShort (nodes_of (expr_of form.now.value.now)) (listing_of code)) }
{
    let params = form.function.params.as_slice();
    let locals = locals_of(alloc, params)?;
    let mut emitter = started(alloc, params)?;
    let place = emit_returned(&mut emitter, &locals, form.value, form.result)?;
    Ok(finished(alloc, emitter, place.register))
}

// The parameters' registers.
fn started(alloc: Global, params: &[ParamDecl]) -> Result<Emitter, AllocError>
    requires integers { list_all is_integer params.now ≡ true }
    requires few { length params.now ≤ 64 }
    ensures { IfOk result (λ emitter. written_of emitter ≡ started (types_of params.now)) }
{
    let regs = types_of(alloc, params)?;
    Ok(Emitter {
        params: params.len() as u16,
        regs,
        masks: 1,
        slots: Vec::new(alloc),
        instrs: Vec::new(alloc),
    })
}

// Appends the code of an expression and of its conversion to a type, under the mask of the call.
fn emit_returned(
    emitter: &mut Emitter,
    locals: &[Local],
    value: &Expr,
    ty: Ty,
) -> Result<Place, AllocError>
    requires numeric { IsTrue (is_numeric locals.now (expr_of value.now)) }
    requires places { ArePlaces (written_of emitter.old) locals.now }
    requires params { emitter.old.params ≤ length emitter.old.regs.items }
    requires masks { 1 ≤ emitter.old.masks }
    requires room { length emitter.old.regs.items + emitter.old.masks + 4 * (nodes_of (expr_of value.now)) < 65530 }
    ensures code { IfOk result (λ d. Emits (written_of emitter.old) (written_of emitter.new) locals.now (cast 0 0 ty (expr_of value.now)) d (record { mask = 0; free = 1 })) }
    ensures ty { IfOk result (λ d. d.ty ≡ ty) }
    ensures slots { OnOk result ((written_of emitter.new).slots ≡ (written_of emitter.old).slots) }
    ensures count { OnOk result (length emitter.new.regs.items + emitter.new.masks ≤ length emitter.old.regs.items + emitter.old.masks + 4 * (nodes_of (expr_of value.now)) + 1) }
{
    let under = Under { mask: 0, free: 1 };
    let place = emit(emitter, locals, value, under)?;
    emitter.convert(place, ty, under)
}

// The code that has been written, with its result in a register.
fn finished(alloc: Global, emitter: Emitter, register: u16) -> Code
    ensures { listing_of result ≡ finished (written_of emitter) register }
{
    Code {
        lane_code: true,
        params: emitter.params,
        result: Some(register),
        regs: emitter.regs,
        masks: emitter.masks,
        slots: emitter.slots,
        loops: Vec::new(alloc),
        instrs: emitter.instrs,
    }
}
