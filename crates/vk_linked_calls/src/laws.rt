// The calls of functions with directives.

ghost use Rattle.std.specs.Prelude.{◌≡◌, ℕ, Contains, List, Some, false, true};
ghost use Rattle.vk_ast.specs.Units.{FunctionTree, function};
ghost use Rattle.vk_rules_book.specs.Expressions.{is_plain_function};
ghost use Rattle.vk_rules_book.specs.Rules.{Subject};
ghost use Rattle.vk_rules_book.specs.Scopes.{first_declaration, has_directives, meaning_of};
ghost use Rattle.vk_meaning.specs.Programs.{Definition};
ghost use Rattle.vk_sites.specs.Calls.{CallText};
ghost use Rattle.vk_agree.specs.Units.{IsAccepted, definition_in};
ghost use Rattle.vk_joins.specs.Links.{body_calls};

/// In an accepted unit, a function whose first declaration has directives calls no function without (the rule D15), outside simd loops.
pub fn lane_functions_call_such()
    ensures { (v : Subject) → IsAccepted v → (text : List ℕ) (d : Definition) → definition_in text v ≡ Some d → (g : FunctionTree)
        → first_declaration d.items d.function.name ≡ Some (function g) → has_directives g.directives ≡ true → (c : CallText)
        → Contains (body_calls d) c → is_plain_function (meaning_of c.scope c.callee) ≡ false }
{}
