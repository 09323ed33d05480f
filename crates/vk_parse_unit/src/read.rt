// The reader that others call.

ghost use Rattle.std.specs.Prelude.{◌≡◌, ◌≤◌, ◌<◌, ℕ, List, [], map, length, Ok, Err, MatchResult, IfOk};
ghost use Rattle.vk_ast.specs.Units.{ItemTree, item_of};
ghost use Rattle.vk_grammar_expr.specs.Texts.{IsPlace, IsDeepPlace};
ghost use Rattle.vk_grammar_unit.specs.Grammar.{AreItems, IsText, IsTextWithin};
ghost use Rattle.vk_grammar_unit.specs.Items.{unit_levels};
ghost use Rattle.vk_grammar_unit.specs.Inner.Reading.{whole_unit};
ghost use Rattle.vk_parse_expr.specs.Inner.Answers.{Gives};

use crate::functions::next_item;
use std::alloc::Global;
use vk_ast::Item;
use vk_grammar_expr::Sym;
use vk_nodes::ItemList;
use vk_parse_expr::ReadFail;
use vk_parse_stmt::Directives;

fn whole<D: Directives>(alloc: Global, directives: &D, syms: &[Sym]) -> Result<ItemList, ReadFail>
    ensures { (turns : ℕ) → length syms.now < turns
        → Gives (λ list. (map item_of list, [])) result (whole_unit (D.clauses directives.now) 63 65 turns syms.now) }
{
    let mut list = ItemList::new(alloc);
    let mut rest = syms;
    'items: while !rest.is_empty() {
        let (more, after) = match next_item(alloc, directives, rest) {
            Ok(read) => read,
            Err(fail) => return Err(fail),
        };
        list.append(more)?;
        rest = after;
    }
    Ok(list)
}

fn whole_items<D: Directives>(
    alloc: Global,
    directives: &D,
    syms: &[Sym],
) -> Result<Vec<Item>, ReadFail>
    ensures { (turns : ℕ) → length syms.now < turns
        → Gives (λ list. (map item_of list.items, [])) result (whole_unit (D.clauses directives.now) 63 65 turns syms.now) }
{
    let list = whole(alloc, directives, syms)?;
    Ok(list.into_vec())
}

/// Reads the tokens as one unit (C17 6.9), all of them: its functions, objects and lines of `declare simd`, in their order,
/// each name that is declared as an item of its own. A line before a function is one of the function's directives. A
/// statement stands within at most 64 others, a function's block counted, and an expression has at most 64 levels, a pair of
/// parentheses being one.
///
/// # Errors
///
/// `Syntax` with the place of C5, the first token that no unit has there, the end counting as a last token. `Deep` with a
/// place of C6, a token up to which the tokens begin some unit, each beyond a limit. A place is told as the number of
/// tokens from it on. `Memory` if an allocation fails.
pub fn read_unit<D: Directives>(
    alloc: Global,
    directives: &D,
    syms: &[Sym],
) -> Result<Vec<Item>, ReadFail>
    ensures found { IfOk result (λ list. (h : ℕ) × (AreItems (D.clauses directives.now) (map item_of list.items) h syms.now × (h ≤ 64))) }
    ensures within { IfOk result (λ list. unit_levels (map item_of list.items) ≤ 65) }
    ensures only { (list : List ItemTree) (h : ℕ) → AreItems (D.clauses directives.now) list h syms.now → h ≤ 64 → unit_levels list ≤ 65
        → MatchResult result (λ found. map item_of found.items ≡ list) (λ fail. fail ≡ ReadFail.Memory) }
    ensures syntax { (n : ℕ) → result ≡ Err (ReadFail.Syntax n) → IsPlace (IsText (D.clauses directives.now)) syms.now n }
    ensures deep { (n : ℕ) → result ≡ Err (ReadFail.Deep n)
        → IsDeepPlace (IsText (D.clauses directives.now)) (IsTextWithin (D.clauses directives.now) 64 65) syms.now n }
{
    whole_items(alloc, directives, syms)
}
