// What the laws of calls ask of a program, from units that link.

ghost use Rattle.std.specs.Prelude.{◌≡◌, List, false, codes};
ghost use Rattle.vk_joins.specs.Carries.{AreAccepted, Pair, units_of};
ghost use Rattle.vk_joins.specs.Links.{DoUnitsLink};
ghost use Rattle.vk_meaning_accepted.specs.Linked.{AgreeOnFunctions};
ghost use Rattle.vk_linked_functions.specs.Lines.{has_lines};

/// Accepted units that link agree on their functions, and on which have directives; `print` has none.
pub fn linked_functions_agree()
    ensures agree { (ps : List Pair) → AreAccepted ps → DoUnitsLink (units_of ps) → AgreeOnFunctions (units_of ps) (has_lines (units_of ps)) }
    ensures print { (ps : List Pair) → has_lines (units_of ps) (codes "print") ≡ false }
{}
