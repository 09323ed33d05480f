// Which heads, slots and loops are good.

ghost use Rattle.std.specs.Prelude.{◌≡◌, nat_lt};
ghost use Rattle.std.specs.List.{list_all};
ghost use Rattle.vk_kinds.specs.Types.{ctype_number};
ghost use Rattle.vk_code.specs.Listing.{call_site_of, routine_of};
ghost use Rattle.vk_code.specs.Tests.{pairs};
ghost use Rattle.vk_code.specs.Valid.{callee_of, environment_of, has_callee, has_good_args, has_good_counts, has_good_registers, is_arg_for, is_call_of, is_good_arg, is_good_guard, is_good_head, is_good_shape, is_good_simdlen, is_good_slot, is_result};

use crate::code::{Code, Guard, Shape, Slot, SlotArg};
use crate::env::{Env, FunctionHead};
use crate::types::{is_pointer, reg_type, result_type};
use vk_kinds::CType;

/// The most registers and masks of a code.
pub const MAX_CELLS: usize = 8192;

/// The most slots, loops, captures or guards that an object can hold.
pub const MAX_COUNT: usize = 65535;

/// The most instructions.
pub const MAX_INSTRUCTIONS: usize = 4294967295;

/// The most arguments of a call.
pub const MAX_ARGUMENTS: usize = 255;

/// Whether the registers, masks and the result are good.
pub(crate) fn is_good_head(code: &Code) -> bool
    ensures { result ≡ is_good_head (routine_of code.now) }
{
    has_good_registers(code) && has_good_counts(code) && are_types(&code.regs)
}

// Whether each is the type of a register.
fn are_types(types: &[CType]) -> bool
    ensures { result ≡ list_all (λ t. nat_lt (ctype_number t) 24) types.now }
{
    types.iter().all(|ctype| u8::from(*ctype) < 24)
}

// Whether there is a mask, not too many registers and masks, and the parameters and the result are registers.
fn has_good_registers(code: &Code) -> bool
    ensures { result ≡ has_good_registers (routine_of code.now) }
{
    let registers = code.regs.len();
    code.masks >= 1
        && registers + usize::from(code.masks) <= MAX_CELLS
        && usize::from(code.params) <= registers
        && is_result(registers, code.result)
}

// Whether an object can hold as many slots, loops and instructions.
fn has_good_counts(code: &Code) -> bool
    ensures { result ≡ has_good_counts (routine_of code.now) }
{
    code.slots.len() <= MAX_COUNT
        && code.loops.len() <= MAX_COUNT
        && code.instrs.len() <= MAX_INSTRUCTIONS
}

// Whether the register of a result is there.
fn is_result(registers: usize, register: Option<u16>) -> bool
    ensures { result ≡ is_result registers register }
{
    match register {
        Some(register) => usize::from(register) < registers,
        None => true,
    }
}

/// Whether the slot has its types, and its shapes name parameters.
pub(crate) fn is_good_slot(code: &Code, env: &Env, slot: &Slot) -> bool
    ensures { result ≡ is_good_slot (environment_of env.now) (routine_of code.now) (call_site_of slot.now) }
{
    has_good_args(code, slot)
        && is_result(code.regs.len(), slot.result)
        && has_callee(code, env, slot)
}

// Whether the arguments are registers of good shapes, and not too many.
fn has_good_args(code: &Code, slot: &Slot) -> bool
    ensures { result ≡ has_good_args (routine_of code.now) (call_site_of slot.now) }
{
    slot.args.len() <= MAX_ARGUMENTS && are_good_args(code, &slot.args)
}

// Whether the arguments are registers of good shapes.
fn are_good_args(code: &Code, args: &[SlotArg]) -> bool
    ensures { result ≡ list_all (is_good_arg (routine_of code.now)) args.now }
{
    args.iter().all(|arg| is_good_arg(code, *arg))
}

// Whether the slot has the types of its function.
fn has_callee(code: &Code, env: &Env, slot: &Slot) -> bool
    ensures { result ≡ has_callee (environment_of env.now) (routine_of code.now) (call_site_of slot.now) }
{
    if env.image {
        return slot.function as usize == slot.args.len();
    }
    match env.functions.get(slot.function as usize) {
        Some(callee) => is_call_of(code, slot, callee),
        None => false,
    }
}

// Whether the slot's registers have the types of the function.
fn is_call_of(code: &Code, slot: &Slot, callee: &FunctionHead) -> bool
    ensures { result ≡ is_call_of (routine_of code.now) (call_site_of slot.now) (callee_of callee.now) }
{
    are_args_for(code, &slot.args, &callee.head.params)
        && result_type(code, slot.result) == u8::from(callee.head.result)
        && (!code.lane_code || callee.simd)
}

// Whether the arguments have the types of the parameters.
fn are_args_for(code: &Code, args: &[SlotArg], params: &[CType]) -> bool
    ensures { result ≡ pairs (is_arg_for (routine_of code.now)) args.now params.now }
{
    if args.len() != params.len() {
        return false;
    }
    for at in 0..args.len() {
        if !is_arg_for(code, args[at], params[at]) {
            return false;
        }
    }
    true
}

// Whether the argument's register has the type.
fn is_arg_for(code: &Code, arg: SlotArg, ctype: CType) -> bool
    ensures { result ≡ is_arg_for (routine_of code.now) arg ctype }
{
    reg_type(code, arg.reg) == u8::from(ctype)
}

// Whether the argument is a register of a good shape.
fn is_good_arg(code: &Code, arg: SlotArg) -> bool
    ensures { result ≡ is_good_arg (routine_of code.now) arg }
{
    usize::from(arg.reg) < code.regs.len() && is_good_shape(code.params, arg.shape)
}

// Whether a parameter that the shape names is there.
fn is_good_shape(params: u16, shape: Shape) -> bool
    ensures { result ≡ is_good_shape params shape }
{
    match shape {
        Shape::Along(param) | Shape::Same(param) => u16::from(param) < params,
        Shape::Vector | Shape::Uniform | Shape::By(_) | Shape::Literal(_) => true,
    }
}

/// Whether the number of lanes that a loop asks for is a power of two from 2 to 256.
pub(crate) fn is_good_simdlen(simdlen: Option<u16>) -> bool
    ensures { result ≡ is_good_simdlen simdlen }
{
    match simdlen {
        Some(n) => n == 2
            || n == 4
            || n == 8
            || n == 16
            || n == 32
            || n == 64
            || n == 128
            || n == 256,
        None => true,
    }
}

/// Whether the guard's registers are pointers.
pub(crate) fn is_good_guard(code: &Code, guard: Guard) -> bool
    ensures { result ≡ is_good_guard (routine_of code.now) guard }
{
    is_pointer(reg_type(code, guard.first)) && is_pointer(reg_type(code, guard.second))
}
