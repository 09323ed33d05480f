// What the definitions of files of names mean.

ghost use Rattle.std.specs.Prelude.{◌≡◌, ℕ, List, Option};
ghost use Rattle.vk_ends.specs.Holds.{Agrees};
ghost use Rattle.vk_ends.specs.declared.ends.Refusal.{Refusal};
ghost use Rattle.vk_cmd_demangle.specs.Demangle.{PrintsNames, RefusesNames};

/// A file has one text or one refusal, and not both.
pub fn one_answer()
    ensures agrees { (contents : Option (List ℕ)) → Agrees (PrintsNames contents) (RefusesNames contents) }
    ensures refusal { (contents : Option (List ℕ)) (a b : Refusal) → RefusesNames contents a → RefusesNames contents b → a ≡ b }
{}
