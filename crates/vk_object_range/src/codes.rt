// The numbers of codes, which are in range by their types.

ghost use Rattle.std.specs.Prelude.{◌≡◌, map};
ghost use Rattle.std.specs.List.{list_all};
ghost use Rattle.vk_code.specs.Listing.{body_of, call_site_of, listing_of, routine_of, simd_site_of};
ghost use Rattle.vk_object_laws.specs.Ranges.{arg_in_range, body_in_range, call_in_range, code_in_range, instr_in_range, loop_in_range, routine_in_range, shape_in_range};

use crate::directives::is_signed;
use vk_code::{Body, Code, Instr, LoopSite, Shape, Slot, SlotArg};

fn is_shape(shape: Shape) -> bool
    ensures { result ≡ shape_in_range shape }
{
    match shape {
        Shape::Vector => true,
        Shape::Uniform => true,
        Shape::By(n) => is_signed(n),
        Shape::Along(place) => place <= u8::MAX,
        Shape::Literal(n) => is_signed(n),
        Shape::Same(place) => place <= u8::MAX,
    }
}

fn is_arg(arg: SlotArg) -> bool
    ensures { result ≡ arg_in_range arg }
{
    is_shape(arg.shape)
}

fn are_args(args: &[SlotArg]) -> bool
    ensures { result ≡ list_all arg_in_range args.now }
{
    args.iter().all(|arg| is_arg(*arg))
}

fn is_slot(slot: &Slot) -> bool
    ensures { result ≡ call_in_range (call_site_of slot.now) }
{
    are_args(&slot.args)
}

fn each_slot(slots: &[Slot]) -> bool
    ensures { result ≡ list_all (λ x. call_in_range (call_site_of x)) slots.now }
{
    slots.iter().all(|slot| is_slot(slot))
}

fn are_slots(slots: &[Slot]) -> bool
    ensures { result ≡ list_all call_in_range (map call_site_of slots.now) }
{
    each_slot(slots)
}

fn is_instr(instr: Instr) -> bool
    ensures { result ≡ instr_in_range instr }
{
    let bytes = instr.op <= u8::MAX && instr.ty <= u8::MAX;
    let registers = instr.m <= u16::MAX && instr.d <= u16::MAX && instr.a <= u16::MAX;
    bytes && registers && instr.imm <= u64::MAX
}

fn are_instrs(instrs: &[Instr]) -> bool
    ensures { result ≡ list_all instr_in_range instrs.now }
{
    instrs.iter().all(|instr| is_instr(*instr))
}

fn is_routine(code: &Code) -> bool
    ensures { result ≡ routine_in_range (routine_of code.now) }
{
    are_slots(&code.slots) && are_instrs(&code.instrs)
}

fn is_body(body: &Body) -> bool
    ensures { result ≡ body_in_range (body_of body.now) }
{
    match body {
        Body::Own(code) => is_routine(code),
        Body::Number(_) => true,
    }
}

fn is_loop(site: &LoopSite) -> bool
    ensures { result ≡ loop_in_range (simd_site_of site.now) }
{
    is_body(&site.body)
}

fn each_loop(loops: &[LoopSite]) -> bool
    ensures { result ≡ list_all (λ x. loop_in_range (simd_site_of x)) loops.now }
{
    loops.iter().all(|site| is_loop(site))
}

fn are_loops(loops: &[LoopSite]) -> bool
    ensures { result ≡ list_all loop_in_range (map simd_site_of loops.now) }
{
    each_loop(loops)
}

/// Whether the numbers of a code are in range.
pub(crate) fn is_code(code: &Code) -> bool
    ensures { result ≡ code_in_range (listing_of code.now) }
{
    is_routine(code) && are_loops(&code.loops)
}

fn each_code(codes: &[Code]) -> bool
    ensures { result ≡ list_all (λ x. code_in_range (listing_of x)) codes.now }
{
    codes.iter().all(|code| is_code(code))
}

/// Whether the numbers of codes are in range.
pub(crate) fn are_codes(codes: &[Code]) -> bool
    ensures { result ≡ list_all code_in_range (map listing_of codes.now) }
{
    each_code(codes)
}
