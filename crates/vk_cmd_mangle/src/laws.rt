// What the definitions of units with their names mean.

ghost use Rattle.std.specs.Prelude.{ℕ, List, Option};
ghost use Rattle.vk_ends.specs.Holds.{Agrees};
ghost use Rattle.vk_kinds.specs.declared.kinds.Target.{Target};
ghost use Rattle.vk_cmd_mangle.specs.Mangle.{PrintsMangled, RefusesMangled};

/// A unit has one list of names or a refusal, and not both.
pub fn one_answer()
    ensures { (target : Target) (contents : Option (List ℕ)) → Agrees (PrintsMangled target contents) (RefusesMangled target contents) }
{}
