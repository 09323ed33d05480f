// The instruction at a place.

ghost use Rattle.std.specs.Prelude.{◌≡◌, ◌+◌, ◌<◌, ◌≤◌};
ghost use Rattle.vk_steps.specs.Places.{IsSound, listing};
ghost use Rattle.vk_calls.specs.Fetched.{IsFetched, IsPart, sorted};

use vk_code::{Instr, Operation};
use vk_steps::Place;

/// An instruction, by how it is performed.
#[derive(Clone, Copy)]
pub enum Fetched {
    /// A block under a mask, of so many instructions.
    Block(u16, u32),
    /// The call of a slot.
    Calls(Instr, u32),
    /// A simd loop.
    Simd(Instr, u32),
    /// A load, a store or a print.
    Accesses(Instr, Operation),
    /// An operation on registers and masks.
    Locals(Instr, Operation),
}

/// The instruction at a place, with `left` instructions from there on.
pub fn fetch(place: &Place<'_>, at: usize, left: usize) -> Fetched
    requires sound { IsSound place.now }
    requires part { IsPart place.now at left }
    requires some { 0 < left }
    ensures { IsFetched place.now at left result }
{
    let instr = place.code.instrs[at];
    let Some(operation) = instr.operation() else {
        unreachable!();
    };
    sort(instr, operation)
}

// An instruction, by how its operation is performed.
fn sort(instr: Instr, operation: Operation) -> Fetched
    ensures { result ≡ sorted instr operation }
{
    match operation {
        Operation::Const { .. } => Fetched::Locals(instr, operation),
        Operation::Copy { .. } => Fetched::Locals(instr, operation),
        Operation::Convert { .. } => Fetched::Locals(instr, operation),
        Operation::Binary { .. } => Fetched::Locals(instr, operation),
        Operation::Compare { .. } => Fetched::Locals(instr, operation),
        Operation::Unary { .. } => Fetched::Locals(instr, operation),
        Operation::Lane { .. } => Fetched::Locals(instr, operation),
        Operation::Load { .. } => Fetched::Accesses(instr, operation),
        Operation::Store { .. } => Fetched::Accesses(instr, operation),
        Operation::PtrAdd { .. } => Fetched::Locals(instr, operation),
        Operation::Addr { .. } => Fetched::Locals(instr, operation),
        Operation::MaskOf { .. } => Fetched::Locals(instr, operation),
        Operation::MaskAnd { .. } => Fetched::Locals(instr, operation),
        Operation::MaskOr { .. } => Fetched::Locals(instr, operation),
        Operation::MaskBut { .. } => Fetched::Locals(instr, operation),
        Operation::Loop { count } => Fetched::Block(instr.m, count),
        Operation::Call { slot } => Fetched::Calls(instr, slot),
        Operation::Print { .. } => Fetched::Accesses(instr, operation),
        Operation::SimdLoop { number } => Fetched::Simd(instr, number),
    }
}
