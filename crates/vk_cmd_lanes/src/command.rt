// The command over a store and a sink.

ghost use Rattle.std.specs.Prelude.{◌≡◌, ◌≤◌, Some, None, length, IfOk, IsErrOf};
ghost use Rattle.std.specs.List.{concat};
ghost use Rattle.vk_kinds.specs.declared.kinds.Isa.{Isa as IsaOf};
ghost use Rattle.vk_ends.specs.declared.ends.Refusal.{Refusal};
ghost use Rattle.vk_cmd_lanes.specs.Inner.{told_unaccepted};
ghost use Rattle.vk_cmd_lanes.specs.Lanes.{LanesHolds, PrintsLanes, RefusesLanes, asked_of};

use crate::unit_call::call_selected;
use std::alloc::{AllocError, AllocFailed, Global};
use vk_accept::{NoUnit, accepted_of};
use vk_arguments::NoArguments;
use vk_ends::{End, Refusal, UNIT_LIMIT, print, read_input};
use vk_io::{Lines, Memory, Sink, Store};
use vk_kinds::Isa;
use vk_one_return::form_of;
use vk_selection::target_of;

/// A call on lanes of what a name selects in a unit.
#[derive(Clone, Copy)]
pub struct Call<'a> {
    /// The letter that the unit is compiled for, any but `s`.
    pub isa: Isa,
    /// The unit's file.
    pub unit: &'a str,
    /// The name of a variant, or of a function with directives.
    pub name: &'a str,
    /// The texts of its arguments.
    pub arguments: &'a [&'a str],
    /// One `0` or `1` for each lane, lane 0 first; without it every lane is active.
    pub mask: Option<&'a str>,
    /// How many turns each loop makes at most.
    pub turns: u32,
}

/// Reads the unit of a call, judges it, calls what the name selects on the lanes' arguments, and writes the line of each lane.
pub fn lanes<S: Store, O: Sink>(alloc: Global, call: Call<'_>, store: &mut S, out: &mut O) -> End
    requires letter { call.isa ≡ IsaOf.S → ⊥ }
    ensures { LanesHolds (asked_of call.entry) (S.state store.old) (S.state store.new) (O.state out.old) (O.state out.new) result }
{
    let bytes = match read_input(alloc, store, call.unit, 0, UNIT_LIMIT) {
        Ok(bytes) => bytes,
        Err(end) => return end,
    };
    let lines = match call_unit(alloc, &bytes, call) {
        Ok(lines) => lines,
        Err(NoCall::Refused(refusal)) => return End::Refused(refusal),
        Err(NoCall::Memory) => return End::Memory,
    };
    print(out, &lines)
}

/// Why a call has no lines.
#[derive(Clone, Copy, PartialEq, Eq, Debug)]
pub enum NoCall {
    /// The unit or the call is refused.
    Refused(Refusal),
    /// There was no memory left.
    Memory,
}

// The lines of a call in a unit with these bytes.
fn call_unit(alloc: Global, bytes: &[u8], call: Call<'_>) -> Result<Lines, NoCall>
    requires letter { call.isa ≡ IsaOf.S → ⊥ }
    requires size { length bytes.now ≤ 1048576 }
    ensures lines { IfOk result (λ lines. PrintsLanes (asked_of call.entry) (Some bytes.now) (concat lines) None) }
    ensures refused { (refusal : Refusal) → IsErrOf result (NoCall.Refused refusal) → RefusesLanes (asked_of call.entry) (Some bytes.now) refusal }
{
    let checked = match accepted_of(alloc, bytes, target_of(call.isa)) {
        Ok(checked) => checked,
        Err(fail) => return Err(unaccepted(fail)),
    };
    let Some(form) = form_of(&checked) else {
        return Err(NoCall::Refused(Refusal::NotYet { input: 0 }));
    };
    match call_selected(alloc, &checked, &form, call) {
        Ok(lines) => Ok(lines),
        Err(NoArguments::Refused(fault)) => Err(NoCall::Refused(Refusal::Call(fault))),
        Err(NoArguments::Memory) => Err(NoCall::Memory),
    }
}

// Why there is no call in a unit that is not accepted.
fn unaccepted(fail: NoUnit) -> NoCall
    ensures { result ≡ told_unaccepted fail }
{
    match fail {
        NoUnit::Rule {
            line,
            directive,
            rule,
        } => NoCall::Refused(Refusal::Unit {
            input: 0,
            line,
            directive,
            rule,
        }),
        NoUnit::NotYet => NoCall::Refused(Refusal::NotYet { input: 0 }),
        NoUnit::Memory => NoCall::Memory,
    }
}

impl From<AllocError> for NoCall {
    ghost use Rattle.vk_cmd_lanes.specs.declared.command.NoCall.{NoCall};

    ghost from_gives = { λ _ e. e ≡ NoCall.Memory };

    fn from(_error: AllocError) -> NoCall {
        NoCall::Memory
    }
}

impl<T: Drop> From<AllocFailed<T>> for NoCall {
    ghost use Rattle.vk_cmd_lanes.specs.declared.command.NoCall.{NoCall};

    ghost from_gives = { λ _ e. e ≡ NoCall.Memory };

    fn from(_error: AllocFailed<T>) -> NoCall {
        NoCall::Memory
    }
}

impl From<Memory> for NoCall {
    ghost use Rattle.vk_cmd_lanes.specs.declared.command.NoCall.{NoCall};

    ghost from_gives = { λ _ e. e ≡ NoCall.Memory };

    fn from(_memory: Memory) -> NoCall {
        NoCall::Memory
    }
}
