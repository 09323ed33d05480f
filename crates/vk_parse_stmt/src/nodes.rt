// Nodes of trees, as the grammar makes them of what was read.

ghost use Rattle.std.specs.Prelude.{◌≡◌, map, MatchResult};
ghost use Rattle.vk_ast.specs.Statements.{stmt_of};
ghost use Rattle.vk_ast.specs.Statements as tree;
ghost use Rattle.vk_ast.specs.Tree.{expr_of};
ghost use Rattle.vk_grammar_stmt.specs.Trees.{stmts_in, single, unit_at};
ghost use Rattle.vk_parse_stmt.specs.Inner.Answers.{Makes};

use std::alloc::Global;
use vk_grammar_expr::Sym;
use vk_nodes::{ExprBox, Start, StmtBox, StmtList};
use vk_parse_expr::ReadFail;
use vk_parse_expr::signs::start_of;
use vk_types::Ty;

/// The 1 that `++` and `--` add or take away, at their sign.
pub(crate) fn unit_node(alloc: Global, sign: Sym) -> Result<ExprBox, ReadFail>
    ensures { MatchResult result (λ e. expr_of e ≡ unit_at sign) (λ fail. fail ≡ ReadFail.Memory) }
{
    Ok(ExprBox::int(alloc, start_of(&sign), Ty::I32, 1)?)
}

/// A block that begins at `first`.
#[tactic(auto, using(crate::proofs::Blocks::list_in))]
pub(crate) fn block_node(alloc: Global, first: Start, list: StmtList) -> Result<StmtBox, ReadFail>
    ensures { Makes result (tree.block first.line first.token (stmts_in (map stmt_of list))) }
{
    Ok(StmtBox::block(alloc, first, list)?)
}

/// The statement that several are where one is wanted: a block of them that begins at `first`.
#[tactic(auto, using(crate::proofs::Blocks::single_of_one, crate::proofs::Blocks::single_of_several))]
pub(crate) fn single_node(
    alloc: Global,
    first: Start,
    mut list: StmtList,
) -> Result<StmtBox, ReadFail>
    ensures { Makes result (single first.line first.token (map stmt_of list)) }
{
    if list.len() != 1 {
        return block_node(alloc, first, list);
    }
    let Some(only) = list.pop() else {
        return block_node(alloc, first, list);
    };
    Ok(StmtBox::of(alloc, only)?)
}
