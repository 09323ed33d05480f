//! What holds of the names of a directive.
ghost use Rattle.std.specs.Prelude.{◌≡◌, ◌≢◌, ℕ, List, All, AllPairs};
ghost use Rattle.vk_kinds.specs.Sizes.{HeadTypes, SignatureTree};
ghost use Rattle.vk_kinds.specs.declared.kinds.Target.{Target};
ghost use Rattle.vk_names.specs.Spelling.{IsScalar, Spells, name_text};
ghost use Rattle.vk_variants.specs.Directives.{IsNamed, directive_names, names_given};

/// No two names of a directive are the same.
pub fn different_names()
    ensures { (t : Target) (scalar : List ℕ) (h : HeadTypes) (s : SignatureTree) → IsScalar scalar → IsNamed s
        → AllPairs (λ x y. x ≢ y) (directive_names t scalar h s) }
{}

/// The text of each name of a directive spells it, so `read_name` gives it back.
pub fn names_are_read()
    ensures { (t : Target) (scalar : List ℕ) (h : HeadTypes) (s : SignatureTree) → IsScalar scalar → IsNamed s
        → All (λ name. Spells name (name_text name)) (names_given t scalar h s) }
{}
