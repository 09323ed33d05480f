// Directives, whose clauses are read elsewhere.

ghost use Rattle.std.specs.Prelude.{◌≡◌, ℕ, List, MatchResult};
ghost use Rattle.vk_ast.specs.Directives.{ClauseTree, directive_of};
ghost use Rattle.vk_parse_expr.specs.declared.fail.ReadFail.TheVariants.{Memory as MemoryFail};
ghost use Rattle.vk_grammar_stmt.specs.Trees.{directive_at};

use std::alloc::Global;
use vk_ast::Directive;
use vk_grammar_expr::Sym;
use vk_parse_expr::ReadFail;

/// Where the directives of a unit come from.
pub trait Directives {
    /// The clauses of each directive, by its number.
    ghost clauses: { Self → ℕ → List ClauseTree };

    /// The directive of the line for which `sym` stands, by its number in the unit.
    fn directive(&self, alloc: Global, sym: Sym, number: u32) -> Result<Directive, ReadFail>
        ensures { MatchResult result (λ d. directive_of d ≡ directive_at (clauses self.now) sym number) (λ fail. fail ≡ MemoryFail) };
}
