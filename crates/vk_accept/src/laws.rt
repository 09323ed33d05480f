// What the definitions of accepted units mean.

ghost use Rattle.std.specs.Prelude.{◌≡◌, ℕ, List};
ghost use Rattle.vk_ast.specs.Units.{ItemTree};
ghost use Rattle.vk_kinds.specs.declared.kinds.Target.{Target};
ghost use Rattle.vk_tokens.specs.declared.tokens.Token.{Token};
ghost use Rattle.vk_unit_rules.specs.declared.rules.UnitRule.{UnitRule};
ghost use Rattle.vk_rules_book.specs.Rules.{Subject};
ghost use Rattle.vk_rules.specs.UnitNames.{HaveIdentifiers};
ghost use Rattle.vk_accept.specs.Accepted.{HasSimdLine, IsAccepted, IsUnitRefused};
ghost use Rattle.vk_accept.specs.Units.{IsUnit};

use vk_lex::laws::names_are_identifiers;

/// Bytes are one accepted unit at most, or they are refused, or they have a SIMD line.
pub fn one_answer()
    ensures one { (bytes : List ℕ) (a b : Subject) → IsAccepted bytes a → IsAccepted bytes b → a.target ≡ b.target → a ≡ b }
    ensures not_refused { (bytes : List ℕ) (a : Subject) (line directive : ℕ) (rule : UnitRule) →
        IsAccepted bytes a → IsUnitRefused bytes a.target line directive rule → ⊥ }
    ensures not_simd { (bytes : List ℕ) (a : Subject) → IsAccepted bytes a → HasSimdLine bytes → ⊥ }
{}

/// The functions of a unit have identifiers as names (C17 6.4.2.1).
pub fn functions_have_identifiers()
    ensures { (bytes : List ℕ) (tokens : List Token) (names : List (List ℕ)) (items : List ItemTree) (target : Target) →
        IsUnit bytes tokens names items → HaveIdentifiers (record { items = items; texts = names; target = target }) }
{
    names_are_identifiers();
}
