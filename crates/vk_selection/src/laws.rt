//! What holds of what is selected.

ghost use Rattle.std.specs.Prelude.{◌≡◌, ◌<◌, ◌≤◌, ℕ, List};
ghost use Rattle.vk_kinds.specs.declared.kinds.Isa.{Isa};
ghost use Rattle.vk_kinds.specs.declared.kinds.Isa.TheVariants.{S};
ghost use Rattle.vk_rules_book.specs.Rules.{Subject};
ghost use Rattle.vk_selection.specs.Selection.{IsVector};
ghost use Rattle.vk_selection.specs.declared.selection.Variant.{Variant};

/// A variant has 1 to 256 lanes, with every letter of the image but `s`.
pub fn lanes_fit()
    ensures least { (unit : Subject) (image : Isa) (vl : ℕ) (text : List ℕ) (v : Variant) (lanes : ℕ) → (image ≡ S → ⊥) →
        IsVector unit image vl text v lanes → 0 < lanes }
    ensures most { (unit : Subject) (image : Isa) (vl : ℕ) (text : List ℕ) (v : Variant) (lanes : ℕ) → (image ≡ S → ⊥) →
        IsVector unit image vl text v lanes → lanes ≤ 256 }
{}
