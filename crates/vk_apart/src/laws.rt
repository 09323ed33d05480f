//! What holds of lanes that are apart.

ghost use Rattle.std.specs.Prelude.{◌≡◌, ℕ, List, Bool};
ghost use Rattle.vk_kinds.specs.declared.heads.CType.{CType};
ghost use Rattle.vk_ends.specs.declared.ends.CallRule.{CallRule};
ghost use Rattle.vk_meaning.specs.World.{Array};
ghost use Rattle.vk_meaning.specs.Lanes.{AreApart, Words};
ghost use Rattle.vk_arguments.specs.Arguments.{Called, Given};
ghost use Rattle.vk_arguments.specs.Texts.{Meaning};
ghost use Rattle.vk_apart.specs.Apart.{AreMeeting, AreTakenApart, IsCallRefused};

/// Lanes are apart exactly where no two active ones meet.
pub fn apart_or_meeting()
    ensures apart { (ts : List CType) (arrays : List Array) (lanes : ℕ) (words : Words) (mask : ℕ → Bool) →
        ((i j : ℕ) → AreMeeting ts arrays lanes words mask i j → ⊥) → AreApart ts arrays lanes words mask }
    ensures meeting { (ts : List CType) (arrays : List Array) (lanes : ℕ) (words : Words) (mask : ℕ → Bool) →
        AreApart ts arrays lanes words mask → (i j : ℕ) → AreMeeting ts arrays lanes words mask i j → ⊥ }
{}

/// Arguments are taken or refused by one rule with one pair of numbers, and not both.
pub fn one_answer()
    ensures one { (word : Meaning) (arrays : List Array) (c : Called) (g : Given) (rule other : CallRule) (a b x y : ℕ) →
        IsCallRefused word arrays c g rule a b → IsCallRefused word arrays c g other x y → (rule ≡ other) × (a ≡ x) × (b ≡ y) }
    ensures apart { (word : Meaning) (arrays : List Array) (c : Called) (g : Given) (rule : CallRule) (a b : ℕ) →
        AreTakenApart word arrays c g → IsCallRefused word arrays c g rule a b → ⊥ }
{}
