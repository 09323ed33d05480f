// What an image gives to the codes of units.

ghost use Rattle.std.specs.Prelude.{◌≡◌, ◌<◌, ℕ, Contains, List, [], ◌∷◌, Some, slice_get};
ghost use Rattle.vk_kinds.specs.Sizes.{SignatureTree};
ghost use Rattle.vk_meaning.specs.Meaning.{means};
ghost use Rattle.vk_meaning.specs.Programs.{Definition, arrays_of};
ghost use Rattle.vk_code.specs.Listing.{CallSite, Listing};
ghost use Rattle.vk_object.specs.Images.{code_of};
ghost use Rattle.vk_object.specs.Machine.{runs};
ghost use Rattle.vk_object.specs.Objects.{FunctionLists};
ghost use Rattle.vk_object.specs.Tables.{EntryLists, Tables};
ghost use Rattle.vk_lane.specs.Runs.{RunsAs, RunsOnLanes};
ghost use Rattle.vk_sites.specs.Bounds.{own_loops};
ghost use Rattle.vk_agree.specs.Agree.{IsTurnLimit, bodies_of};
ghost use Rattle.vk_agree.specs.Units.{definition_in, kinds_of, param_types};
ghost use Rattle.vk_joins.specs.Carries.{Pair, units_of};
ghost use Rattle.vk_joins.specs.Codes.{Manner, own_calls, symbols_of};
ghost use Rattle.vk_joins.specs.Joins.{Planned};
ghost use Rattle.vk_joins.specs.Links.{body_calls, callees_of};
ghost use Rattle.vk_joins.specs.Tables.{symbol_of};
ghost use Rattle.vk_promises.specs.Codes.{IsClosed};
ghost use Rattle.vk_promises.specs.Makers.{IsLaneCode, IsLocal, IsScalarCode};
ghost use Rattle.vk_promises.specs.Settings.{CallsAreRight};
ghost use Rattle.vk_settings.specs.Programs.{IsProgram, IsRunning, IsRunningAlone, IsTold, running_setting};

use vk_compose::laws::calls_are_shallow;
use vk_meaning_laws::laws::stands_in_any_run;
use vk_meaning_terms::laws::depth_is_of_no_matter;
use vk_rules_laws::laws::expressions_have_types;

/// In a program, what a caller's object tells of a function that it calls is what the function's definition says.
pub fn callees_are_told()
    ensures { (ps : List Pair) (image : Tables) → IsProgram ps image → (p : Pair) → Contains ps p → (slot : CallSite) (row : FunctionLists)
        → slice_get p.object.functions slot.function ≡ Some row → (text : List ℕ) (d : Definition) → definition_in text p.unit ≡ Some d
        → Contains (callees_of (Some d)) (symbol_of p.object row.symbol) → IsTold ps p slot (symbol_of p.object row.symbol) }
{}

/// The slots of a code that an image runs are the calls of its text, and the entry that each calls does what the call means.
pub fn calls_in_images_are_right()
    ensures { (ps : List Pair) (image : Tables) → IsProgram ps image → (p : Pair) (text : List ℕ) (d : Definition) (manner : Manner) (e : ℕ)
        (x : EntryLists) (plan : Planned) → IsRunning ps image p text d manner e x plan → (turns : ℕ) → IsTurnLimit turns → (code : Listing)
        → code_of image x ≡ Some code → CallsAreRight (running_setting ps image turns d x code) (own_calls d.unit (body_calls d)) }
{
    expressions_have_types();
}

/// A code without simd loops of which its maker keeps the promise does in an image what its function means.
pub fn codes_agree()
    ensures ordinary { (ps : List Pair) (image : Tables) → IsProgram ps image → (p : Pair) (text : List ℕ) (d : Definition) (manner : Manner)
        (e : ℕ) (x : EntryLists) (plan : Planned) → IsRunning ps image p text d manner e x plan → (turns : ℕ) (code : Listing)
        → IsRunningAlone ps image turns d x code → (opened : Listing) → IsScalarCode (symbols_of p.object) d [] opened
        → IsClosed (own_loops d) opened plan.made.code → x.lanes ≡ 1
        → RunsAs (arrays_of (units_of ps)) (bodies_of image) (param_types d) (means (units_of ps) turns text) (runs image turns e) }
    ensures scalar { (ps : List Pair) (image : Tables) → IsProgram ps image → (p : Pair) (text : List ℕ) (d : Definition) (manner : Manner)
        (e : ℕ) (x : EntryLists) (plan : Planned) → IsRunning ps image p text d manner e x plan → (turns : ℕ) (code : Listing)
        → IsRunningAlone ps image turns d x code → (s : SignatureTree) (ss : List SignatureTree) (opened : Listing)
        → IsScalarCode (symbols_of p.object) d (s ∷ ss) opened → IsClosed (own_loops d) opened plan.made.code
        → IsLocal d (running_setting ps image turns d x code) → x.lanes ≡ 1
        → RunsOnLanes (arrays_of (units_of ps)) (bodies_of image) (param_types d) [] (means (units_of ps) turns text) 1 (runs image turns e) }
    ensures lanes { (ps : List Pair) (image : Tables) → IsProgram ps image → (p : Pair) (text : List ℕ) (d : Definition) (manner : Manner)
        (e : ℕ) (x : EntryLists) (plan : Planned) → IsRunning ps image p text d manner e x plan → (turns : ℕ) (code : Listing)
        → IsRunningAlone ps image turns d x code → (s : SignatureTree) → IsLaneCode (symbols_of p.object) d s plan.made.code
        → IsLocal d (running_setting ps image turns d x code) → 0 < x.lanes
        → RunsOnLanes (arrays_of (units_of ps)) (bodies_of image) (param_types d) (kinds_of s) (means (units_of ps) turns text) x.lanes (runs image turns e) }
{
    expressions_have_types();
    stands_in_any_run();
    calls_are_shallow();
    depth_is_of_no_matter();
}
