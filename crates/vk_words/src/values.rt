// Values that the product checks itself.

ghost use Rattle.std.specs.Prelude.{◌≡◌, ℕ, Option, Some, None, IfSome, IsNone, option_map};
ghost use Rattle.vk_kinds.specs.declared.kinds.Isa.{Isa as IsaOf};
ghost use Rattle.vk_kinds.specs.declared.kinds.Target.{Target as TargetOf};
ghost use Rattle.vk_words.specs.Asked.{IsIsa, IsTarget, IsTurns, IsTurnsText, IsVl, IsVlText};

use vk_kinds::{Isa, Target};

// The number of turns that a text says.
fn turns_of_text(text: &str) -> Option<u32>
    ensures found { IfSome result (λ n. IsTurnsText text.now n) }
    ensures none { IsNone result → (n : ℕ) → IsTurnsText text.now n → ⊥ }
{
    let Ok(n) = text.parse::<u32>() else {
        return None;
    };
    let mut buffer = itoa::Buffer::new();
    if 1 <= n && n <= 1_000_000_000 && buffer.format(n) == text {
        Some(n)
    } else {
        None
    }
}

/// The number of turns: 1 to 1000000000, and a million where none is given.
pub fn turns_of(text: Option<&str>) -> Option<u32>
    ensures found { IfSome result (λ n. IsTurns (option_map (λ s. s.now) text.entry) n) }
    ensures none { IsNone result → (n : ℕ) → IsTurns (option_map (λ s. s.now) text.entry) n → ⊥ }
{
    match text {
        Some(text) => turns_of_text(text),
        None => Some(1_000_000),
    }
}

/// The instruction set of a letter.
pub fn isa_of(text: &str) -> Option<Isa>
    ensures found { IfSome result (λ isa. IsIsa (Some text.now) isa) }
    ensures none { IsNone result → (isa : IsaOf) → IsIsa (Some text.now) isa → ⊥ }
{
    match text {
        "b" => Some(Isa::B),
        "c" => Some(Isa::C),
        "d" => Some(Isa::D),
        "e" => Some(Isa::E),
        "n" => Some(Isa::N),
        "s" => Some(Isa::S),
        _ => None,
    }
}

// The vector length that a text says.
fn vl_of_text(text: &str) -> Option<u32>
    ensures found { IfSome result (λ n. IsVlText text.now n) }
    ensures none { IsNone result → (n : ℕ) → IsVlText text.now n → ⊥ }
{
    match text {
        "128" => Some(128),
        "256" => Some(256),
        "512" => Some(512),
        "1024" => Some(1024),
        "2048" => Some(2048),
        _ => None,
    }
}

/// The vector length, where one is given.
pub fn vl_of(text: Option<&str>) -> Option<Option<u32>>
    ensures found { IfSome result (λ vl. IsVl (option_map (λ s. s.now) text.entry) vl) }
    ensures none { IsNone result → (vl : Option ℕ) → IsVl (option_map (λ s. s.now) text.entry) vl → ⊥ }
{
    match text {
        None => Some(None),
        Some(text) => match vl_of_text(text) {
            Some(n) => Some(Some(n)),
            None => None,
        },
    }
}

/// The machine that a text names.
pub fn target_of(text: &str) -> Option<Target>
    ensures found { IfSome result (λ target. IsTarget (Some text.now) target) }
    ensures none { IsNone result → (target : TargetOf) → IsTarget (Some text.now) target → ⊥ }
{
    match text {
        "x86-64" => Some(Target::X86),
        "aarch64" => Some(Target::Arm),
        _ => None,
    }
}
