// Cells of arrays.

ghost use Rattle.std.specs.Prelude.{◌≡◌, ℕ, Bool, true};

use vk_types::Word;

/// The words in the cells of arrays.
pub trait Cells {
    /// Whether there is a cell, by the number of the array and that of the element; the word in each.
    ghost has: { Self → (array index : ℕ) → Bool };

    ghost memory: { Self → (array index : ℕ) → ℕ };

    /// The word in a cell.
    fn word(&self, array: usize, index: usize) -> Word
        requires { has self.now array index ≡ true }
        ensures { result.0 ≡ memory self.now array index };
}
