// The laws of runs.

ghost use Rattle.std.specs.Prelude.{◌≡◌, ℕ, zero, length, map, Bool, List, None, Option, Some, false, slice_get, true};
ghost use Rattle.vk_code.specs.declared.instruction.Instr.{Instr};
ghost use Rattle.vk_code.specs.declared.instruction.Operation.{Operation};
ghost use Rattle.vk_code.specs.Listing.{Listing};
ghost use Rattle.vk_object.specs.Images.{code_of, is_image, result_of};
ghost use Rattle.vk_object.specs.Lane.{is_live};
ghost use Rattle.vk_object.specs.Machine.{Site, World, enters, entry_at, extent_of, first_lane, performs_some, run, runs, site_at, word_in};
ghost use Rattle.vk_object.specs.Memory.{Memory};
ghost use Rattle.vk_object.specs.Tables.{EntryLists, Tables};
ghost use Rattle.vk_runs.specs.Logs.{Grows};
ghost use Rattle.vk_runs.specs.Rest.{IsAtRest, StaysAtRest};
ghost use Rattle.vk_runs.specs.Words.{AreArguments, HaveCells, HaveWords, IsWordOf};

/// The log of a run is the log before it and some events more.
pub fn logs()
    ensures { (image : Tables) (turns e : ℕ) (on : ℕ → Bool) (args : ℕ → ℕ → ℕ) (mem : Memory) → Grows mem (runs image turns e on args mem).mem }
{}

/// An instruction keeps the registers of a lane that is not live in its mask.
pub fn lanes_not_live()
    ensures { (s : Site) (m : ℕ) (o : Option Operation) (w : World) (j : ℕ) → is_live m (w.lane j) ≡ false
        → ((performs_some s m o w).lane j).reg ≡ (w.lane j).reg }
{}

/// A lane that is live in no mask keeps its registers and its stop, and stays so, while any code runs.
pub fn lanes_at_rest()
    ensures { (s : Site) (instrs : List Instr) (skip count : ℕ) (w : World) (j : ℕ) → IsAtRest (w.lane j)
        → StaysAtRest (w.lane j) ((run s instrs skip count w).lane j) }
{}

/// A lane that a call does not give does not stop, and its result is what the result's register has at first.
pub fn lanes_off()
    ensures stop { (image : Tables) (turns e : ℕ) (on : ℕ → Bool) (args : ℕ → ℕ → ℕ) (mem : Memory) (j : ℕ) → on j ≡ false
        → (runs image turns e on args mem).stop j ≡ None }
    ensures value { (e : ℕ) (s : Site) (on : ℕ → Bool) (args : ℕ → ℕ → ℕ) (mem : Memory) (j : ℕ) → on j ≡ false
        → (enters e s on args mem).value j ≡ word_in s.code.routine.result (first_lane s.entry.lanes s.code.routine.params args on j) }
{}

/// While the code of an entry of an image runs, at any depth of calls, each register of each lane keeps a word of its type. So an
/// entry that gets words of its parameters' types gives one of its result's type.
pub fn words_of_types()
    ensures registers { (image : Tables) → is_image image ≡ true → (turns depth e : ℕ) (x : EntryLists) (c : Listing)
        → slice_get image.entries e ≡ Some x → code_of image x ≡ Some c → (w : World) → HaveWords c.routine.regs w
        → HaveWords c.routine.regs (run (site_at image turns (entry_at image turns depth) x c) c.routine.instrs zero (length c.routine.instrs) w) }
    ensures results { (image : Tables) → is_image image ≡ true → (turns e : ℕ) (x : EntryLists) (c : Listing)
        → slice_get image.entries e ≡ Some x → code_of image x ≡ Some c → (on : ℕ → Bool) (args : ℕ → ℕ → ℕ) (mem : Memory)
        → AreArguments x.lanes c args → (j : ℕ) → IsWordOf (result_of c) ((runs image turns e on args mem).value j) }
{}

/// A run leaves words of the arrays' types in all cells, where they were there before it.
pub fn words_of_arrays()
    ensures { (image : Tables) (turns e : ℕ) (on : ℕ → Bool) (args : ℕ → ℕ → ℕ) (mem : Memory) → HaveCells (map extent_of image.arrays) mem
        → HaveCells (map extent_of image.arrays) (runs image turns e on args mem).mem }
{}
