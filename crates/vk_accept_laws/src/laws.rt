// What holds of accepted units, from their bytes.

ghost use Rattle.std.specs.Prelude.{◌≡◌, ℕ, List, Contains, true};
ghost use Rattle.vk_ast.specs.Tree.{Tree};
ghost use Rattle.vk_ast.specs.Units.{ItemTree};
ghost use Rattle.vk_tokens.specs.declared.tokens.Token.{Token};
ghost use Rattle.vk_rules_book.specs.declared.contexts.Around.{Around};
ghost use Rattle.vk_rules_book.specs.declared.contexts.Role.{Role};
ghost use Rattle.vk_rules_book.specs.Rules.{Subject};
ghost use Rattle.vk_rules_book.specs.Scopes.{Scope};
ghost use Rattle.vk_rules_book.specs.Typings.{is_typed, typing_of};
ghost use Rattle.vk_rules_book.specs.Visits.{expression, unit_visits};
ghost use Rattle.vk_rules_laws.specs.Grammatical.{AreGrammatical};
ghost use Rattle.vk_accept.specs.Accepted.{IsAccepted};
ghost use Rattle.vk_accept.specs.Units.{IsUnit};

use vk_rules_laws::laws::expressions_have_types;

/// The functions of a unit are as the grammar gives them.
pub fn units_are_grammatical()
    ensures { (bytes : List ℕ) (tokens : List Token) (names : List (List ℕ)) (items : List ItemTree) →
        IsUnit bytes tokens names items → AreGrammatical items }
{}

/// Each expression that the rules visit in an accepted unit has a type.
pub fn accepted_expressions_have_types()
    ensures { (bytes : List ℕ) (unit : Subject) → IsAccepted bytes unit → (around : Around) (scope : Scope) (r : Role) (e : Tree) →
        Contains (unit_visits unit.texts unit.items) (expression around scope r e) → is_typed (typing_of scope e) ≡ true }
{
    expressions_have_types();
}
