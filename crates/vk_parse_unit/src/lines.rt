// Lines of `declare simd`.

ghost use Rattle.std.specs.Prelude.{◌≡◌, ◌+◌, ◌≤◌, ◌<◌, ℕ, map, length, IfOk};
ghost use Rattle.vk_ast.specs.Directives.{directive_of};
ghost use Rattle.vk_parse_expr.specs.Inner.Answers.{Gives};
ghost use Rattle.vk_grammar_unit.specs.Inner.Reading as spec;

use crate::words::{is_line, line_at};
use std::alloc::Global;
use vk_ast::Directive;
use vk_grammar_expr::Sym;
use vk_nodes::DirectiveList;
use vk_parse_expr::signs::kind_at;
use vk_parse_expr::steps::take;
use vk_parse_expr::{Read, ReadFail};
use vk_parse_stmt::Directives;

// The directive of a line.
#[tactic(auto, unfolding(vk_grammar_unit::specs::Inner::Reading::line))]
fn line<'a, D: Directives>(alloc: Global, directives: &D, syms: &'a [Sym]) -> Read<'a, Directive>
    ensures value { Gives (λ x. (directive_of x.0, x.1.now)) result (spec.line (D.clauses directives.now) syms.now) }
    ensures shorter { IfOk result (λ x. length x.1.now + 1 ≤ length syms.now) }
{
    let Some(number) = line_at(kind_at(syms)) else {
        return Err(ReadFail::Syntax(syms.len()));
    };
    let (sym, rest) = take(syms)?;
    let directive = directives.directive(alloc, sym, number)?;
    Ok((directive, rest))
}

/// The directives of all lines that stand here.
#[tactic(auto, unfolding(vk_grammar_unit::specs::Inner::Reading::lines))]
pub(crate) fn lines<'a, D: Directives>(
    alloc: Global,
    directives: &D,
    syms: &'a [Sym],
) -> Read<'a, DirectiveList>
    ensures value { (turns : ℕ) → length syms.now < turns
        → Gives (λ x. (map directive_of x.0, x.1.now)) result (spec.lines (D.clauses directives.now) turns syms.now) }
    ensures shorter { IfOk result (λ x. length x.1.now ≤ length syms.now) }
{
    let mut list = DirectiveList::new(alloc);
    let mut rest = syms;
    'lines: while is_line(kind_at(rest)) {
        let (directive, after) = match line(alloc, directives, rest) {
            Ok(read) => read,
            Err(fail) => return Err(fail),
        };
        list.push(directive)?;
        rest = after;
    }
    Ok((list, rest))
}
