//! What the reader of whole units tells, against the grammar.

ghost use Rattle.std.specs.Prelude.{◌≡◌, ◌≤◌, ◌<◌, ℕ, suc, List, [], length, Ok, Err};
ghost use Rattle.vk_ast.specs.Units.{ItemTree};
ghost use Rattle.vk_grammar_expr.specs.declared.symbols.Sym.{Sym};
ghost use Rattle.vk_grammar_expr.specs.Inner.Parser.{Syntax, Deep, Spent};
ghost use Rattle.vk_grammar_expr.specs.Texts.{IsPlace, IsDeepPlace};
ghost use Rattle.vk_grammar_stmt.specs.Trees.{Clauses};
ghost use Rattle.vk_grammar_unit.specs.Items.{unit_levels};
ghost use Rattle.vk_grammar_unit.specs.Grammar.{AreItems, IsText, IsTextWithin};
ghost use Rattle.vk_grammar_unit.specs.Inner.Reading.{whole_unit};

/// A whole unit is read exactly where the grammar has items for the tokens with at most `d` levels of statements in each
/// function and expressions of a height of at most `e + 1` (C17 6.9). Else the fault is at its place: C5 at the first token
/// that no text of the grammar has there, C6 at a token up to which some text goes, each such text being beyond a limit. One
/// turn more than there are tokens is enough.
pub fn whole_units()
    ensures found { (clauses : Clauses) (e d turns : ℕ) (ts : List Sym) (list : List ItemTree) (r : List Sym)
        → whole_unit clauses e d turns ts ≡ Ok (list, r)
        → (h : ℕ) × (AreItems clauses list h ts × ((h ≤ suc e) × (unit_levels list ≤ d))) }
    ensures only { (clauses : Clauses) (e d turns : ℕ) (ts : List Sym) (list : List ItemTree) (h : ℕ)
        → AreItems clauses list h ts → h ≤ suc e → unit_levels list ≤ d → length ts < turns
        → whole_unit clauses e d turns ts ≡ Ok (list, []) }
    ensures refused { (clauses : Clauses) (e d turns : ℕ) (ts : List Sym) (n : ℕ)
        → whole_unit clauses e d turns ts ≡ Err (Syntax n) → IsPlace (IsText clauses) ts n }
    ensures deep { (clauses : Clauses) (e d turns : ℕ) (ts : List Sym) (n : ℕ)
        → whole_unit clauses e d turns ts ≡ Err (Deep n)
        → IsDeepPlace (IsText clauses) (IsTextWithin clauses (suc e) d) ts n }
    ensures ends { (clauses : Clauses) (e d turns : ℕ) (ts : List Sym) → length ts < turns
        → whole_unit clauses e d turns ts ≡ Err Spent → ⊥ }
{}

/// A list of tokens is the text of at most one list of items. It has at most one place of C5, and none where it is a text.
pub fn one_unit()
    ensures list { (clauses : Clauses) (ts : List Sym) (a b : List ItemTree) (h k : ℕ) → AreItems clauses a h ts
        → AreItems clauses b k ts → a ≡ b }
    ensures place { (clauses : Clauses) (ts : List Sym) (n m : ℕ) → IsPlace (IsText clauses) ts n
        → IsPlace (IsText clauses) ts m → n ≡ m }
    ensures not_both { (clauses : Clauses) (ts : List Sym) (n : ℕ) → IsPlace (IsText clauses) ts n → IsText clauses ts → ⊥ }
{}
