// What the laws of calls ask of a program, from accepted units.

ghost use Rattle.std.specs.Prelude.{ℕ, Bool, List};
ghost use Rattle.vk_rules_book.specs.Rules.{Subject};
ghost use Rattle.vk_meaning_accepted.specs.Linked.{AgreeOnConsts, AgreeOnFunctions, AreAccepted};
ghost use Rattle.vk_meaning_laws.specs.Tame.{ConstsAreFixed, IsTameProgram};

/// Functions with directives touch memory through their pointers alone, in accepted units that agree on their functions.
pub fn accepted_programs_are_tame()
    ensures { (units : List Subject) (lane : List ℕ → Bool) → AreAccepted units → AgreeOnFunctions units lane → IsTameProgram units lane }
{}

/// What functions with directives know as `const` objects is `const` where it is defined, in units that agree on these.
pub fn consts_are_fixed()
    ensures { (units : List Subject) (lane : List ℕ → Bool) → AgreeOnConsts units → ConstsAreFixed units lane }
{}
