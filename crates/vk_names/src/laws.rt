//! What holds of the two relations on bytes, `Spells` and `NameRefused`.
ghost use Rattle.std.specs.Prelude.{◌≡◌, ℕ, ◌≤◌, ◌++◌, ◌⊎◌, List, length, IsTrue};
ghost use Rattle.vk_names.specs.Spelling.{Name, IsName, Spells, name_text, text_of, is_name_byte};
ghost use Rattle.vk_names.specs.Refusal.{NameRefused, Ends};
ghost use Rattle.vk_names.specs.Pieces.{is_ended, is_due};
ghost use Rattle.vk_names.specs.declared.rules.NameRule.{NameRule};

/// All bytes spell exactly one name or are refused at exactly one place by exactly one rule.
pub fn one_answer()
    ensures some { (bytes : List ℕ) → ((name : Name) × Spells name bytes)
        ⊎ ((at : ℕ) × (rule : NameRule) × NameRefused bytes at rule) }
    ensures not_both { (bytes : List ℕ) (name : Name) (at : ℕ) (rule : NameRule)
        → Spells name bytes → NameRefused bytes at rule → ⊥ }
    ensures one_name { (bytes : List ℕ) (name other : Name)
        → Spells name bytes → Spells other bytes → name ≡ other }
    ensures one_refusal { (bytes : List ℕ) (at place : ℕ) (rule other : NameRule)
        → NameRefused bytes at rule → NameRefused bytes place other → (at ≡ place) × (rule ≡ other) }
{}

/// No place of a refusal is above the number of bytes.
pub fn places()
    ensures { (bytes : List ℕ) (at : ℕ) (rule : NameRule) → NameRefused bytes at rule → at ≤ length bytes }
{}

/// What is written for a name spells it, where no letter, digit or underscore follows. So `read_name` gives back each
/// name that `write_name` wrote.
pub fn written_is_read()
    ensures { (name : Name) (rest : List ℕ) → IsName name → Ends is_name_byte rest
        → Spells name (name_text name ++ rest) }
{}

/// The text that spells a name is the one that is written for it.
pub fn read_is_written()
    ensures { (name : Name) (bytes : List ℕ) → Spells name bytes
        → IsName name × (text_of bytes ≡ name_text name) }
{}

/// What is due to be answered of bytes that come in pieces stays so, whatever follows.
pub fn answers_stay()
    ensures ended { (bytes more : List ℕ) → IsTrue (is_ended bytes) → IsTrue (is_ended (bytes ++ more)) }
    ensures text { (bytes more : List ℕ) → IsTrue (is_ended bytes) → text_of (bytes ++ more) ≡ text_of bytes }
    ensures name { (bytes more : List ℕ) (name : Name) → IsTrue (is_ended bytes) → Spells name bytes
        → Spells name (bytes ++ more) }
    ensures due { (bytes more : List ℕ) (at : ℕ) (rule : NameRule) → IsTrue (is_due bytes at rule)
        → IsTrue (is_due (bytes ++ more) at rule) }
    ensures refusal { (bytes more : List ℕ) (at : ℕ) (rule : NameRule) → IsTrue (is_due bytes at rule)
        → NameRefused bytes at rule → NameRefused (bytes ++ more) at rule }
{}
