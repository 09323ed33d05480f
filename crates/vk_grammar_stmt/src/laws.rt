//! What the reader of whole statements tells, against the grammar.

ghost use Rattle.std.specs.Prelude.{◌≡◌, ◌≤◌, ◌<◌, ℕ, suc, List, [], length, Ok, Err};
ghost use Rattle.vk_ast.specs.Statements.{StmtTree};
ghost use Rattle.vk_grammar_expr.specs.declared.symbols.Sym.{Sym};
ghost use Rattle.vk_grammar_expr.specs.Inner.Parser.{Syntax, Deep, Spent};
ghost use Rattle.vk_grammar_expr.specs.Texts.{IsPlace, IsDeepPlace};
ghost use Rattle.vk_grammar_stmt.specs.Trees.{Clauses, levels_of};
ghost use Rattle.vk_grammar_stmt.specs.Grammar.{IsStmt, IsStatement, IsStatementWithin};
ghost use Rattle.vk_grammar_stmt.specs.Inner.Reading.{whole_statement};

/// A whole statement is read exactly where the grammar has a tree for the tokens that has at most `d` levels of statements
/// and expressions of a height of at most `e + 1` (C17 6.8). Else the fault is at its place: C5 at the first token that no
/// text of the grammar has there, C6 at a token up to which some text goes, each such text being beyond a limit. One turn
/// more than there are tokens is enough.
pub fn whole_statements()
    ensures found { (clauses : Clauses) (e turns d : ℕ) (ts : List Sym) (s : StmtTree) (r : List Sym)
        → whole_statement clauses e turns d ts ≡ Ok (s, r)
        → (h : ℕ) × (IsStmt clauses s h ts × ((h ≤ suc e) × (levels_of s ≤ d))) }
    ensures only { (clauses : Clauses) (e turns d : ℕ) (ts : List Sym) (s : StmtTree) (h : ℕ) → IsStmt clauses s h ts
        → h ≤ suc e → levels_of s ≤ d → length ts < turns → whole_statement clauses e turns d ts ≡ Ok (s, []) }
    ensures refused { (clauses : Clauses) (e turns d : ℕ) (ts : List Sym) (n : ℕ)
        → whole_statement clauses e turns d ts ≡ Err (Syntax n) → IsPlace (IsStatement clauses) ts n }
    ensures deep { (clauses : Clauses) (e turns d : ℕ) (ts : List Sym) (n : ℕ)
        → whole_statement clauses e turns d ts ≡ Err (Deep n)
        → IsDeepPlace (IsStatement clauses) (IsStatementWithin clauses (suc e) d) ts n }
    ensures ends { (clauses : Clauses) (e turns d : ℕ) (ts : List Sym) → length ts < turns
        → whole_statement clauses e turns d ts ≡ Err Spent → ⊥ }
{}

/// A list of tokens is the text of at most one statement. It has at most one place of C5, and none where it is a text.
pub fn one_statement()
    ensures tree { (clauses : Clauses) (ts : List Sym) (a b : StmtTree) (h k : ℕ) → IsStmt clauses a h ts
        → IsStmt clauses b k ts → a ≡ b }
    ensures place { (clauses : Clauses) (ts : List Sym) (n m : ℕ) → IsPlace (IsStatement clauses) ts n
        → IsPlace (IsStatement clauses) ts m → n ≡ m }
    ensures not_both { (clauses : Clauses) (ts : List Sym) (n : ℕ) → IsPlace (IsStatement clauses) ts n
        → IsStatement clauses ts → ⊥ }
{}
