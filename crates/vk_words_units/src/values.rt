// Values that only these commands have.

ghost use Rattle.std.specs.Prelude.{◌≡◌, ℕ, Some, IfSome, IsNone};
ghost use Rattle.vk_words_units.specs.Asked.{IsFunctions};

/// The most functions that the generator makes.
pub const MAX_FUNCTIONS: u32 = 200;

/// The number of functions that a text says: 1 to 200, in decimal with no sign and no leading zero.
pub fn functions_of(text: &str) -> Option<u32>
    ensures found { IfSome result (λ n. IsFunctions (Some text.now) n) }
    ensures none { IsNone result → (n : ℕ) → IsFunctions (Some text.now) n → ⊥ }
{
    let Ok(n) = text.parse::<u32>() else {
        return None;
    };
    let mut buffer = itoa::Buffer::new();
    if 1 <= n && n <= MAX_FUNCTIONS && buffer.format(n) == text {
        Some(n)
    } else {
        None
    }
}
