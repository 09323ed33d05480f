//! What holds of the arguments of calls.

ghost use Rattle.std.specs.Prelude.{◌≡◌, ℕ};
ghost use Rattle.vk_ends.specs.declared.ends.CallRule.{CallRule};
ghost use Rattle.vk_arguments.specs.Arguments.{AreTaken, Called, Given, IsRefused};
ghost use Rattle.vk_arguments.specs.Texts.{Meaning};

/// Arguments are taken or refused by one rule with one pair of numbers, and not both.
pub fn one_answer()
    ensures one { (word : Meaning) (c : Called) (g : Given) (rule other : CallRule) (a b x y : ℕ) →
        IsRefused word c g rule a b → IsRefused word c g other x y → (rule ≡ other) × (a ≡ x) × (b ≡ y) }
    ensures apart { (word : Meaning) (c : Called) (g : Given) (rule : CallRule) (a b : ℕ) →
        AreTaken word c g → IsRefused word c g rule a b → ⊥ }
{}
