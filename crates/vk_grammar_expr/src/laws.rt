//! What the reader of whole expressions tells, against the grammar.

ghost use Rattle.std.specs.Prelude.{◌≡◌, ◌≤◌, ◌<◌, ℕ, List, [], length, Ok, Err};
ghost use Rattle.vk_ast.specs.Tree.{Tree};
ghost use Rattle.vk_grammar_expr.specs.declared.symbols.Sym.{Sym};
ghost use Rattle.vk_grammar_expr.specs.Grammar.{Tall, tall, full, Spells, IsExpression, IsExpressionWithin};
ghost use Rattle.vk_grammar_expr.specs.Inner.Parser.{Syntax, Deep, Spent};
ghost use Rattle.vk_grammar_expr.specs.Inner.Reading.{whole_expression};
ghost use Rattle.vk_grammar_expr.specs.Texts.{IsPlace, IsDeepPlace};

/// A whole expression is read exactly where the grammar has a tree for the tokens that is at most `d` high (C17 6.5). Else
/// the fault is at its place: C5 at the first token that no text of the grammar has there, C6 at a token up to which some
/// text goes, each such text being too high. One turn more than there are tokens is enough.
pub fn whole_expressions()
    ensures found { (turns d : ℕ) (ts : List Sym) (e : Tall) (r : List Sym) → whole_expression turns d ts ≡ Ok (e, r)
        → Spells full e.tree e.height ts }
    ensures within { (turns d : ℕ) (ts : List Sym) (e : Tall) (r : List Sym) → whole_expression turns d ts ≡ Ok (e, r)
        → e.height ≤ d }
    ensures only { (turns d : ℕ) (ts : List Sym) (e : Tree) (h : ℕ) → Spells full e h ts → h ≤ d → length ts < turns
        → whole_expression turns d ts ≡ Ok (tall e h, []) }
    ensures refused { (turns d : ℕ) (ts : List Sym) (n : ℕ) → whole_expression turns d ts ≡ Err (Syntax n)
        → IsPlace IsExpression ts n }
    ensures deep { (turns d : ℕ) (ts : List Sym) (n : ℕ) → whole_expression turns d ts ≡ Err (Deep n)
        → IsDeepPlace IsExpression (IsExpressionWithin d) ts n }
    ensures ends { (turns d : ℕ) (ts : List Sym) → length ts < turns → whole_expression turns d ts ≡ Err Spent → ⊥ }
{}

/// A list of tokens is the text of at most one tree, with one height. It has at most one place of C5, and none where it is
/// a text.
pub fn one_expression()
    ensures tree { (ts : List Sym) (e f : Tree) (h k : ℕ) → Spells full e h ts → Spells full f k ts → tall e h ≡ tall f k }
    ensures place { (ts : List Sym) (n m : ℕ) → IsPlace IsExpression ts n → IsPlace IsExpression ts m → n ≡ m }
    ensures not_both { (ts : List Sym) (n : ℕ) → IsPlace IsExpression ts n → IsExpression ts → ⊥ }
{}
