//! What holds of the tokens and the first fault of a unit.

ghost use Rattle.std.specs.Prelude.{◌≡◌, ◌⊎◌, ℕ, List, true, Some, None, Ok, Err};
ghost use Rattle.vk_types.specs.declared.types.Ty.{Ty};
ghost use Rattle.vk_unit_rules.specs.declared.rules.UnitRule.TheVariants.{C3};
ghost use Rattle.vk_lex.specs.declared.literals.Base.{Base as BaseOf};
ghost use Rattle.vk_lex.specs.declared.literals.Suffix.{Suffix as SuffixOf};
ghost use Rattle.vk_lex.specs.Integers.{IsWritten};
ghost use Rattle.vk_lex.specs.Literals.{begins_digit, literal, first_type, types_for};
ghost use Rattle.vk_unit_rules.specs.declared.rules.UnitRule.{UnitRule};
ghost use Rattle.vk_lex.specs.Tokens.{Tok, AreIdentifiers};
ghost use Rattle.vk_lex.specs.Lexing.{Lexes, Refuses, HasFault, IsTokenRule};
ghost use Rattle.vk_lex.specs.Tables.{AreTokens, HasTokens};
ghost use Rattle.vk_tokens.specs.declared.tokens.Token.{Token};

/// All bytes have tokens, with a table of their names, or a first fault, which is of C1 to C4.
pub fn some_answer()
    ensures some { (bytes : List ℕ) → HasTokens bytes ⊎ HasFault bytes }
    ensures rules { (bytes : List ℕ) (line : ℕ) (rule : UnitRule) → Refuses bytes line rule → IsTokenRule rule }
{}

/// The bytes of a unit have one list of tokens at most, or one first fault at most, and not both.
pub fn one_answer()
    ensures one_list { (bytes : List ℕ) (a b : List Tok) → Lexes bytes a → Lexes bytes b → a ≡ b }
    ensures not_both { (bytes : List ℕ) (a : List Tok) (line : ℕ) (rule : UnitRule) → Lexes bytes a → Refuses bytes line rule → ⊥ }
    ensures one_fault { (bytes : List ℕ) (line other : ℕ) (rule another : UnitRule) → Refuses bytes line rule → Refuses bytes other another
        → (line ≡ other) × (rule ≡ another) }
{}

/// A number that begins with a digit has a type and a value only where it is an integer literal in the standard's words, and
/// is the literal of no type only where it is one too large for the types of its form (C17 6.4.4.1).
pub fn integer_literals()
    ensures typed { (text : List ℕ) (t : Ty) (n : ℕ) → begins_digit text ≡ true → literal text ≡ Ok (t, n)
        → (b : BaseOf) × (s : SuffixOf) × IsWritten text b s n × (first_type (types_for b s) n ≡ Some t) }
    ensures large { (text : List ℕ) → begins_digit text ≡ true → literal text ≡ Err C3
        → (n : ℕ) × (b : BaseOf) × (s : SuffixOf) × IsWritten text b s n × (first_type (types_for b s) n ≡ None) }
{}

/// Each name of a unit is an identifier (C17 6.4.2.1).
pub fn names_are_identifiers()
    ensures { (bytes : List ℕ) (names : List (List ℕ)) (ts : List Token) → AreTokens bytes names ts → AreIdentifiers names }
{}

/// The bytes of a unit have one list of tokens and one table of names at most.
pub fn one_table()
    ensures names { (bytes : List ℕ) (m n : List (List ℕ)) (a b : List Token) → AreTokens bytes m a → AreTokens bytes n b → m ≡ n }
    ensures tokens { (bytes : List ℕ) (m n : List (List ℕ)) (a b : List Token) → AreTokens bytes m a → AreTokens bytes n b → a ≡ b }
{}
