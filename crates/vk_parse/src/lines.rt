// The directive lines of a unit, for the reader of units.

ghost use Rattle.vk_parse.specs.Inner.Answers.{known_clauses};

use std::alloc::Global;
use vk_ast::{Directive, NameTable};
use vk_grammar_expr::Sym;
use vk_parse_directives::read_directive;
use vk_parse_expr::ReadFail;
use vk_parse_stmt::Directives;
use vk_parse_words::Syms;

// The lines, and the names in them.
#[derive(Drop)]
pub(crate) struct Lines<'a> {
    pub(crate) names: &'a NameTable,
    pub(crate) syms: &'a Syms,
}

impl Directives for Lines<'_> {
    ghost clauses = { λ lines. known_clauses lines.names.now lines.syms.now };

    fn directive(&self, alloc: Global, sym: Sym, number: u32) -> Result<Directive, ReadFail> {
        if number == 0 || self.syms.lines.len() < number as usize {
            return Ok(Directive {
                line: sym.line,
                token: sym.at,
                number,
                clauses: Vec::new(alloc),
            });
        }
        match read_directive(alloc, self.names, self.syms, sym, number) {
            Ok(directive) => Ok(directive),
            Err(_) => Err(ReadFail::Memory),
        }
    }
}
