// What the code of a call asks of the meaning.

ghost use Rattle.std.specs.Prelude.{◌≡◌, ℕ, Bool, false, List, codes};
ghost use Rattle.vk_rules_book.specs.Rules.{Subject};
ghost use Rattle.vk_rules_book.specs.Scopes.{types_of};
ghost use Rattle.vk_meaning.specs.Meaning.{means};
ghost use Rattle.vk_meaning.specs.Programs.{Definition, arrays_of};
ghost use Rattle.vk_meaning_laws.specs.Tame.{ConstsAreFixed, IsLaneFunction, IsTameProgram};
ghost use Rattle.vk_meaning_accepted.specs.Linked.{AgreeOnConsts, AgreeOnFunctions, AreAccepted};
ghost use Rattle.vk_lane_calls.specs.Callable.{IsLocalCall};
ghost use Rattle.vk_local_calls.specs.Returns.{HaveRightReturns};

use vk_meaning_accepted::laws::{accepted_programs_are_tame, consts_are_fixed};
use vk_meaning_laws::laws::{reads_within_reach, writes_within_reach};

/// A call of a tame function depends on what it reaches, changes what its written pointers name, has no events, and gives a word of its
/// type, where `print` is none of the functions that may be called and each `return` has a value just where the result wants one.
pub fn calls_are_local()
    ensures { (units : List Subject) (lane : List ℕ → Bool) (turns : ℕ) → IsTameProgram units lane → ConstsAreFixed units lane
        → lane (codes "print") ≡ false → HaveRightReturns units lane → (text : List ℕ) (d : Definition) → IsLaneFunction units lane text d
        → IsLocalCall (types_of d.function.params) d.function.result (arrays_of units) (means units turns text) }
{
    reads_within_reach();
    writes_within_reach();
}

/// So it is in accepted units that agree on their functions and `const` objects.
pub fn accepted_calls_are_local()
    ensures { (units : List Subject) (lane : List ℕ → Bool) (turns : ℕ) → AreAccepted units → AgreeOnFunctions units lane → AgreeOnConsts units
        → lane (codes "print") ≡ false → (text : List ℕ) (d : Definition) → IsLaneFunction units lane text d
        → IsLocalCall (types_of d.function.params) d.function.result (arrays_of units) (means units turns text) }
{
    calls_are_local();
    accepted_programs_are_tame();
    consts_are_fixed();
}
