// The laws of linking.

ghost use Rattle.std.specs.Prelude.{◌≡◌, ℕ, Bool, Contains, List, Some, is_some, true};
ghost use Rattle.vk_kinds.specs.declared.kinds.Isa.{Isa};
ghost use Rattle.vk_rules_book.specs.Rules.{Subject};
ghost use Rattle.vk_meaning.specs.Meaning.{reading};
ghost use Rattle.vk_meaning_terms.specs.Depth.{IsShallow};
ghost use Rattle.vk_object.specs.Images.{is_image};
ghost use Rattle.vk_object.specs.Machine.{first_memory, runs};
ghost use Rattle.vk_object.specs.Objects.{ObjectLists};
ghost use Rattle.vk_object.specs.Tables.{Tables};
ghost use Rattle.vk_lane.specs.Runs.{one_lane};
ghost use Rattle.vk_agree.specs.Agree.{IsTurnLimit, RunsAsRead};
ghost use Rattle.vk_agree.specs.Units.{IsAccepted};
ghost use Rattle.vk_joins.specs.Carries.{AllAgree, AreCarried, ImageCarries, IsLinkOf, Pair, objects_of, units_of};
ghost use Rattle.vk_joins.specs.Joins.{IsChosen, Joins};
ghost use Rattle.vk_joins.specs.Links.{DoObjectsLink, DoUnitsLink};

/// Objects that carry accepted units compose: every function of units that link agrees with an image that joins the objects.
pub fn objects_compose()
    ensures { (ps : List Pair) (image : Tables) → is_image image ≡ true → AreCarried ps → Joins image (objects_of ps) → DoUnitsLink (units_of ps) → AllAgree image (units_of ps) }
{}

/// Objects that link, of accepted units that they carry, are of units that link.
pub fn units_link_as_objects()
    ensures { (ps : List Pair) → AreCarried ps → DoObjectsLink (objects_of ps) → DoUnitsLink (units_of ps) }
{}

/// An image that joins objects which link, with the chosen targets and lanes, carries all accepted units that the objects carry.
pub fn linking()
    ensures { (isa : Isa) (vl : ℕ) (need_main : Bool) (os : List ObjectLists) (image : Tables) → is_image image ≡ true → DoObjectsLink os
        → Joins image os → IsChosen image os → image.isa ≡ isa → image.vl ≡ vl → (need_main ≡ true → is_some image.main ≡ true)
        → IsLinkOf isa vl need_main os image }
{}

/// Where an image carries accepted units, its `main` prints the numbers of their reading and ends as it ends.
pub fn programs_run_as_read()
    ensures { (image : Tables) (units : List Subject) → ((u : Subject) → Contains units u → IsAccepted u) → ImageCarries image units
        → (e : ℕ) → image.main ≡ Some e → (turns : ℕ) → IsTurnLimit turns → (words : ℕ → ℕ → ℕ)
        → RunsAsRead (reading units turns) (runs image turns e one_lane words (first_memory image)) }
{}

/// In units that link no chain of calls has more than 32 functions.
pub fn calls_are_shallow()
    ensures { (ps : List Pair) → DoUnitsLink (units_of ps) → (text : List ℕ) → IsShallow 32 (units_of ps) text }
{}
