// What the definitions of files mean.

ghost use Rattle.std.specs.Prelude.{◌≡◌, ℕ, List, Option, length};
ghost use Rattle.vk_files.specs.Reading.{AreFiles, AreReadable, IsFirstTooLong};

/// Files have one list of contents. Either all can be read, or one is the first that is too long, and not both.
pub fn one_reading()
    ensures contents { (file : List ℕ → Option (List ℕ)) (names xs ys : List (List ℕ)) → AreFiles file names xs → AreFiles file names ys → xs ≡ ys }
    ensures number { (file : List ℕ → Option (List ℕ)) (names xs : List (List ℕ)) → AreFiles file names xs → length xs ≡ length names }
    ensures apart { (file : List ℕ → Option (List ℕ)) (limit : ℕ) (names : List (List ℕ)) (input : ℕ) →
        AreReadable file limit names → IsFirstTooLong file limit names input → ⊥ }
    ensures first { (file : List ℕ → Option (List ℕ)) (limit : ℕ) (names : List (List ℕ)) (a b : ℕ) →
        IsFirstTooLong file limit names a → IsFirstTooLong file limit names b → a ≡ b }
{}
