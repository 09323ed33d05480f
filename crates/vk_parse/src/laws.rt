//! What the definitions of units and their faults mean.

ghost use Rattle.std.specs.Prelude.{◌≡◌, ◌⊎◌, ℕ, List};
ghost use Rattle.vk_ast.specs.Units.{ItemTree};
ghost use Rattle.vk_tokens.specs.declared.tokens.Token.{Token};
ghost use Rattle.vk_unit_rules.specs.declared.rules.UnitRule.{UnitRule};
ghost use Rattle.vk_parse.specs.Parsing.{Parses, IsWithin, KeepsWords, IsFaultAt};
ghost use Rattle.vk_parse.specs.Readings.{HasUnit, HasFault};

/// All tokens are a unit that keeps the rules C5 to C7, or have a fault of them.
pub fn some_answer()
    ensures { (names : List (List ℕ)) (ts : List Token) (last : ℕ) → HasUnit names ts ⊎ HasFault names ts last }
{}

/// Tokens have one list of items at most, and none within the rules where there is a fault of them.
pub fn one_answer()
    ensures items { (names : List (List ℕ)) (ts : List Token) (a b : List ItemTree) (h k : ℕ) → Parses names ts a h → Parses names ts b k → a ≡ b }
    ensures not_both { (names : List (List ℕ)) (ts : List Token) (items : List ItemTree) (h : ℕ) (rule : UnitRule) (n : ℕ) → Parses names ts items h
        → IsWithin names ts items h → KeepsWords names ts → IsFaultAt names ts rule n → ⊥ }
{}
