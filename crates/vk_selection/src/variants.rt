// The variants of a unit with a name that was read.

ghost use Rattle.std.specs.Prelude.{◌≡◌, ◌<◌, Contains, IsTrue, Some, length, slice_get};
ghost use Rattle.std.specs.Bool.{Decides};
ghost use Rattle.vk_kinds.specs.declared.kinds.Isa.TheVariants.{S};
ghost use Rattle.vk_kinds.specs.declared.kinds.Len.TheVariants.{Scalable};
ghost use Rattle.vk_kinds.specs.Lengths.{is_vector_length};
ghost use Rattle.vk_kinds.specs.Sizes.{SignatureTree};
ghost use Rattle.vk_ast.specs.Units.{FunctionTree};
ghost use Rattle.vk_rules_book.specs.Directives.{signatures};
ghost use Rattle.vk_rules.specs.Functions.{directives_at, functions_of};
ghost use Rattle.vk_rules.specs.Verdicts.{judged};
ghost use Rattle.vk_selection.specs.Inner.{HasLanes};

use crate::params::are_same;
use vk_kinds::{Length, Param, lanes_at, lengths, wds};
use vk_rules::Checked;

/// How many lanes the variant of a directive has whose name has these parameters and what stands before them; none where the
/// directive gives none, or it has no number of lanes where vectors have `vl` bits.
pub fn lanes_with(
    unit: &Checked,
    function: usize,
    directive: usize,
    params: &[Param],
    front: Length,
    vl: u32,
) -> Option<u16>
    requires function { function < length (functions_of (judged unit.now)) }
    requires directive { directive < directives_at (judged unit.now) function }
    requires scalable { front.len ≡ Scalable → front.isa ≡ S }
    requires width { front.isa ≡ S → IsTrue (is_vector_length vl) }
    ensures { (g : FunctionTree) (s : SignatureTree) → slice_get (functions_of (judged unit.now)) function ≡ Some g → slice_get (signatures g) directive ≡ Some s →
        HasLanes (judged unit.now).target g s params.now front vl result }
{
    let head = unit.head(function);
    let signature = unit.signature(function, directive);
    if !are_same(signature.params.as_slice(), params) {
        return None;
    }
    let variants = lengths(unit.target(), head, signature);
    if !has(variants.as_slice(), front) {
        return None;
    }
    lanes_at(front.isa, front.len, wds(head, signature), vl)
}

// Whether a variant is one of some.
fn has(variants: &[Length], front: Length) -> bool
    ensures { Decides result (Contains variants.now front) }
{
    variants.contains(&front)
}
