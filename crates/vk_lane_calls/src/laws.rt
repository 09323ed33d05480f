// What a call does in the lanes that make it.

ghost use Rattle.std.specs.Prelude.{◌≡◌, ◌==◌, ◌<◌, ◌∷◌, [], ℕ, false, true, length, List, Some};
ghost use Rattle.vk_kinds.specs.declared.heads.CType.{CType};
ghost use Rattle.vk_kinds.specs.declared.kinds.Kind.{Kind};
ghost use Rattle.vk_meaning.specs.World.{Memory as Cells};
ghost use Rattle.vk_meaning.specs.Data.{Datum, Value};
ghost use Rattle.vk_meaning.specs.Lanes.{arguments_of};
ghost use Rattle.vk_code.specs.declared.instruction.Instr.{Instr};
ghost use Rattle.vk_code.specs.declared.instruction.Operation.TheVariants.{Call};
ghost use Rattle.vk_code.specs.Instruction.{operation_of};
ghost use Rattle.vk_object.specs.Lane.{is_live};
ghost use Rattle.vk_object.specs.Machine.{Target, target_of};
ghost use Rattle.vk_lane.specs.Runs.{RunsOnLanes};
ghost use Rattle.vk_lane.specs.Places.{IsPlace, Shares};
ghost use Rattle.vk_lane.specs.Pieces.{Does, EachSound};
ghost use Rattle.vk_lane.specs.Entries.{LaneCall, place_of};
ghost use Rattle.vk_lane_calls.specs.Callees.{TakesIf, value_behind};
ghost use Rattle.vk_lane_calls.specs.Callable.{HasArguments, HushesOver, IsLocalCall, IsResultRegister, OwnsOpenCells, Passes, own_words};

/// A call of an entry that is lane-wise for a function gives each live lane what the function gives on the lane's own arguments, from
/// the lane's own copy of the world: its word, or its stop, and its memory.
pub fn calls_are_lane_wise()
    ensures { (q : LaneCall) (i : Instr) (k : ℕ) (t : Target) (ts : List CType) (kinds : List Kind) (rt : CType) (scalar : List Datum → Cells → Value)
        → IsPlace (place_of q) → HushesOver (place_of q) q.bodies → OwnsOpenCells (place_of q) → IsLocalCall ts rt q.context.arrays scalar
        → operation_of i ≡ Some (Call k) → target_of q.site k ≡ Some t → (t.entry.lanes == 1) ≡ false
        → ((r : ℕ) → t.slot.result ≡ Some r → IsResultRegister (place_of q) rt r)
        → RunsOnLanes q.context.arrays q.bodies ts kinds scalar q.site.entry.lanes (q.site.calls t.number)
        → ((hs : Shares) → EachSound (place_of q) hs → Passes (place_of q) i.m t ts kinds hs)
        → Does (place_of q) (λ j h. is_live i.m h.lane ≡ true → HasArguments (place_of q) t.slot ts j h) (i ∷ [])
        (λ j h h'. TakesIf (is_live i.m h.lane) rt t.slot.result h h' (value_behind h.world (scalar (arguments_of ts (own_words t.slot h) j) h.world.memory))) }
{}
