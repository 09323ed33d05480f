// What follows of the promises of makers.

ghost use Rattle.std.specs.Prelude.{◌≡◌, ℕ, List, Some};
ghost use Rattle.vk_kinds.specs.declared.kinds.Kind.{Kind};
ghost use Rattle.vk_kinds.specs.Sizes.{SignatureTree};
ghost use Rattle.vk_rules_book.specs.Rules.{Subject};
ghost use Rattle.vk_meaning.specs.Meaning.{means};
ghost use Rattle.vk_meaning.specs.Programs.{Definition, arrays_of, definition_of};
ghost use Rattle.vk_meaning_terms.specs.Depth.{IsShallow};
ghost use Rattle.vk_code.specs.Listing.{CallSite};
ghost use Rattle.vk_object.specs.Machine.{Site, enters, entry_at, runs, site_of};
ghost use Rattle.vk_object.specs.Objects.{CodeLists};
ghost use Rattle.vk_object.specs.Tables.{EntryLists, Tables};
ghost use Rattle.vk_lane.specs.Runs.{RunsAs, RunsOnLanes};
ghost use Rattle.vk_sites.specs.Calls.{CallText};
ghost use Rattle.vk_agree.specs.Agree.{bodies_of};
ghost use Rattle.vk_agree.specs.Units.{param_types};
ghost use Rattle.vk_joins.specs.Codes.{AreCodesOf, Symbols};
ghost use Rattle.vk_joins.specs.Joins.{Made};
ghost use Rattle.vk_promises.specs.Makers.{AreMade};
ghost use Rattle.vk_promises.specs.Places.{IsLinkedCall, setting_of};
ghost use Rattle.vk_promises.specs.Settings.{CallsAreUniform, MayCall, body_value};

use vk_meaning_laws::laws::stands_in_any_run;
use vk_meaning_terms::laws::depth_is_of_no_matter;

/// The codes that the makers promise are the codes of a function: valid, with the calls and names of the text, and short.
pub fn codes_are_made()
    ensures { (y : Symbols) (d : Definition) (signatures : List SignatureTree) (codes : CodeLists) → AreMade y d signatures codes
        → AreCodesOf y d signatures codes }
{}

/// The entry that an image gives a slot does what the call means, where the called function agrees with the image.
pub fn linked_calls_are_right()
    ensures { (units : List Subject) (image : Tables) (turns : ℕ) (d : Definition) (s : Site) (array : List ℕ → ℕ) (c : CallText) (m : Made)
        (slot linked : CallSite) (n : ℕ) (y : EntryLists) (f : Definition) → IsLinkedCall units image turns d s c m slot linked n y f
        → MayCall (setting_of units image turns d s array) c linked n y y.kind }
{}

/// Calls in a setting that an image gives do the same in the midst of any run.
pub fn calls_are_uniform()
    ensures { (units : List Subject) (image : Tables) (turns : ℕ) (d : Definition) (s : Site) (array : List ℕ → ℕ)
        → CallsAreUniform (setting_of units image turns d s array).context }
{
    stands_in_any_run();
}

/// What a maker promises of a code in the setting that an image gives it is the agreement of the code's entry.
pub fn promises_are_agreement()
    ensures alone { (units : List Subject) (image : Tables) (turns e : ℕ) (text : List ℕ) (d : Definition) (s : Site) (array : List ℕ → ℕ)
        → IsShallow 32 units text → definition_of units text ≡ Some d → site_of image turns (entry_at image turns 63) e ≡ Some s
        → RunsAs (arrays_of units) (bodies_of image) (param_types d) (body_value (setting_of units image turns d s array) d) (enters e s)
        → RunsAs (arrays_of units) (bodies_of image) (param_types d) (means units turns text) (runs image turns e) }
    ensures on_lanes { (units : List Subject) (image : Tables) (turns e lanes : ℕ) (kinds : List Kind) (text : List ℕ) (d : Definition) (s : Site)
        (array : List ℕ → ℕ) → IsShallow 32 units text → definition_of units text ≡ Some d → site_of image turns (entry_at image turns 63) e ≡ Some s
        → RunsOnLanes (arrays_of units) (bodies_of image) (param_types d) kinds (body_value (setting_of units image turns d s array) d) lanes (enters e s)
        → RunsOnLanes (arrays_of units) (bodies_of image) (param_types d) kinds (means units turns text) lanes (runs image turns e) }
{
    depth_is_of_no_matter();
}
