// From a code that does in each lane what a scalar function does, to what a call of its entry gives.

ghost use Rattle.std.specs.Prelude.{◌≡◌, ◌≢◌, ◌<◌, ◌&&◌, ℕ, nat_lt, Bool, false, List};
ghost use Rattle.vk_types.specs.declared.types.Ty.{Ty};
ghost use Rattle.vk_kinds.specs.declared.heads.CType.{CType};
ghost use Rattle.vk_kinds.specs.declared.heads.CType.TheVariants.{Ptr};
ghost use Rattle.vk_meaning.specs.World.{Memory as Cells};
ghost use Rattle.vk_meaning.specs.Data.{Datum, Value};
ghost use Rattle.vk_meaning.specs.Expressions.{Context};
ghost use Rattle.vk_meaning.specs.Lanes.{AreApart, AreTyped, Words, arguments_of};
ghost use Rattle.vk_object.specs.Memory.{Memory};
ghost use Rattle.vk_object.specs.Machine.{Site, enters};
ghost use Rattle.vk_lane.specs.Runs.{Bodies, IsLaneRun, IsSameRun, one_lane};
ghost use Rattle.vk_lane.specs.Pieces.{Does};
ghost use Rattle.vk_lane.specs.Entries.{IsWhole, first_share, place_of};
ghost use Rattle.vk_lane_runs.specs.Sites.{IsCodeSite, alone_call, lanes_call};

/// A code that does in each lane what a function does, as this lane's own copy of the world has it, gives the function's value or stop
/// in each active lane, leaves what each lane's own call leaves in the cells that its written pointers name, and nothing else changed.
pub fn code_runs_on_lanes()
    ensures { (c : Context) (s : Site) (b : Bodies) (entry : ℕ) (ts : List CType) (rt : CType) (scalar : List Datum → Cells → Value)
        (m : Memory) (mask : ℕ → Bool) (words : Words) (old : ℕ → ℕ)
        → IsCodeSite c s ts → 0 < s.entry.lanes → b.is_body entry ≡ false → ((to : Ty) (written : Bool) → rt ≢ Ptr to written)
        → AreTyped ts c.arrays s.entry.lanes words mask → AreApart ts c.arrays s.entry.lanes words mask
        → Does (place_of (lanes_call c s b ts mask words m)) (λ j h. h ≡ first_share s mask words m.cells j) s.code.routine.instrs
        (λ j h h'. IsWhole rt s.code.routine.result (λ k. nat_lt k s.entry.lanes && mask k) (λ k. scalar (arguments_of ts words k) m.cells) j h')
        → IsLaneRun c.arrays b ts scalar s.entry.lanes mask words m old (enters entry s mask words m) }
{}

/// A code that does on one lane what a function does prints, counts and ends as the function does.
pub fn code_runs_alone()
    ensures { (c : Context) (s : Site) (b : Bodies) (entry : ℕ) (ts : List CType) (rt : CType) (scalar : List Datum → Cells → Value)
        (m : Memory) (words : Words)
        → IsCodeSite c s ts → s.entry.lanes ≡ 1 → b.is_body entry ≡ false → ((to : Ty) (written : Bool) → rt ≢ Ptr to written)
        → AreTyped ts c.arrays 1 words one_lane
        → Does (place_of (alone_call c s b ts words m)) (λ j h. h ≡ first_share s one_lane words m.cells j) s.code.routine.instrs
        (λ j h h'. IsWhole rt s.code.routine.result one_lane (λ k. scalar (arguments_of ts words k) m.cells) j h')
        → IsSameRun b m (scalar (arguments_of ts words 0) m.cells) (enters entry s one_lane words m) }
{}
