//! What the reader of clauses tells, against the grammar.

ghost use Rattle.std.specs.Prelude.{◌≡◌, ℕ, List};
ghost use Rattle.vk_ast.specs.Directives.{ClauseTree};
ghost use Rattle.vk_grammar_expr.specs.declared.symbols.Sym.{Sym};
ghost use Rattle.vk_parse_directives.specs.Clauses.{AreClauses};
ghost use Rattle.vk_parse_directives.specs.Inner.Reading.{clauses_of};

/// Each list of tokens is the text of one list of clauses (OpenMP 5.2, declare simd and simd).
pub fn one_list_of_clauses()
    ensures some { (names : List (List ℕ)) (w : List Sym) → AreClauses names (clauses_of names w) w }
    ensures only { (names : List (List ℕ)) (w : List Sym) (cs : List ClauseTree) → AreClauses names cs w → cs ≡ clauses_of names w }
{}
