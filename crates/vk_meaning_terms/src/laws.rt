// The laws of expressions and bodies.

ghost use Rattle.std.specs.Prelude.{◌≡◌, ◌≤◌, ℕ, List, Some};
ghost use Rattle.vk_types.specs.declared.types.Ty.{Ty};
ghost use Rattle.vk_types.specs.Numbers.{IsInRange};
ghost use Rattle.vk_ast.specs.Tree.{Tree};
ghost use Rattle.vk_rules_book.specs.Rules.{Subject};
ghost use Rattle.vk_rules_book.specs.Scopes.{Scope};
ghost use Rattle.vk_rules_book.specs.Typings.{number_type, typing_of};
ghost use Rattle.vk_meaning.specs.Data.{Datum, got, number_in};
ghost use Rattle.vk_meaning.specs.Expressions.{Context, Variables, value_of};
ghost use Rattle.vk_meaning.specs.Meaning.{call_of, call_within, called_where_defined};
ghost use Rattle.vk_meaning.specs.Programs.{definition_of};
ghost use Rattle.vk_meaning.specs.World.{World};
ghost use Rattle.vk_meaning_terms.specs.Depth.{IsShallow};
ghost use Rattle.vk_meaning_terms.specs.Ranges.{AreRanged, CallsAreRanged};

/// The number that an expression gives is one of its type, where its variables and its calls give numbers of theirs.
pub fn expressions_give_their_types()
    ensures { (c : Context) (scope : Scope) (vs : Variables) → CallsAreRanged c scope → AreRanged scope vs
        → (e : Tree) (t : Ty) → number_type (typing_of scope e) ≡ Some t → (w w' : World) (d : Datum) → value_of c scope vs e w ≡ got d w'
        → IsInRange t (number_in d) }
{}

/// Where no chain of calls from a function has more than n functions, calls that are cut off at a greater depth do the same. So a call
/// is one of the function's definition, whose own calls are such calls again.
pub fn depth_is_of_no_matter()
    ensures deeper { (units : List Subject) (turns n m : ℕ) (text : List ℕ) → n ≤ m → IsShallow n units text
        → call_within n units turns text ≡ call_within m units turns text }
    ensures unfolds { (units : List Subject) (turns : ℕ) (text : List ℕ) → IsShallow 32 units text
        → call_of units turns text ≡ called_where_defined units turns (call_of units turns) (definition_of units text) }
{}
