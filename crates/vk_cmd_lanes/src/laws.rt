// What the definitions of units and their calls mean.

ghost use Rattle.std.specs.Prelude.{ℕ, List, Option};
ghost use Rattle.vk_ends.specs.Holds.{Agrees};
ghost use Rattle.vk_cmd_lanes.specs.Lanes.{Asked, PrintsLanes, RefusesLanes};

/// A unit and a call have one text or a refusal, and not both.
pub fn one_answer()
    ensures { (r : Asked) (contents : Option (List ℕ)) → Agrees (PrintsLanes r contents) (RefusesLanes r contents) }
{}
