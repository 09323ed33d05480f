// What units that link tell of the objects of the program.

ghost use Rattle.std.specs.Prelude.{◌≡◌, ℕ, Contains, List, [], Some};
ghost use Rattle.vk_code.specs.Listing.{Listing};
ghost use Rattle.vk_meaning.specs.Programs.{Definition, first_point};
ghost use Rattle.vk_meaning_accepted.specs.Linked.{AgreeOnConsts};
ghost use Rattle.vk_object.specs.Images.{code_of};
ghost use Rattle.vk_object.specs.Tables.{EntryLists, Tables};
ghost use Rattle.vk_sites.specs.Bounds.{own_loops};
ghost use Rattle.vk_sites.specs.Objects.{objects_of as objects_named};
ghost use Rattle.vk_agree.specs.Agree.{IsTurnLimit};
ghost use Rattle.vk_agree.specs.Units.{definition_in};
ghost use Rattle.vk_joins.specs.Carries.{AreAccepted, Pair, units_of};
ghost use Rattle.vk_joins.specs.Links.{DoUnitsLink};
ghost use Rattle.vk_settings.specs.Programs.{IsProgram, IsRunningAlone, ObjectsAreArrays, running_setting};

/// What accepted units that link declare as a `const` object is `const` where it is defined.
pub fn linked_consts_agree()
    ensures { (ps : List Pair) → AreAccepted ps → DoUnitsLink (units_of ps) → AgreeOnConsts (units_of ps) }
{}

/// Of accepted units that link, the objects that a definition names are arrays of the program, of the types that its unit declares.
pub fn objects_are_arrays()
    ensures { (ps : List Pair) → AreAccepted ps → DoUnitsLink (units_of ps) → (p : Pair) → Contains ps p → (text : List ℕ) (d : Definition)
        → definition_in text p.unit ≡ Some d → (image : Tables) (turns : ℕ) (x : EntryLists) (code : Listing)
        → ObjectsAreArrays d (objects_named (first_point d) d.body) (running_setting ps image turns d x code) }
{}

/// In a program, a definition without simd loops has all that is asked of it where its code runs: the limit of turns, arrays for the
/// objects that it names, and no more arrays than words of pointers number.
pub fn definitions_run_alone()
    ensures { (ps : List Pair) (image : Tables) → IsProgram ps image → (p : Pair) → Contains ps p → (text : List ℕ) (d : Definition)
        → definition_in text p.unit ≡ Some d → own_loops d ≡ [] → (turns : ℕ) → IsTurnLimit turns → (x : EntryLists) (code : Listing)
        → code_of image x ≡ Some code → IsRunningAlone ps image turns d x code }
{}
