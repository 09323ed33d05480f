// What a name selects in a unit.

ghost use Rattle.std.specs.Prelude.{◌≡◌, ◌<◌, IfSome, IsNone, IsTrue, length, slice_get, Some};
ghost use Rattle.vk_kinds.specs.declared.kinds.Isa.TheVariants.{S};
ghost use Rattle.vk_kinds.specs.declared.kinds.Len.TheVariants.{Scalable};
ghost use Rattle.vk_kinds.specs.Lengths.{is_vector_length};
ghost use Rattle.vk_ast.specs.Units.{FunctionTree};
ghost use Rattle.vk_rules.specs.Functions.{functions_of};
ghost use Rattle.vk_rules.specs.Verdicts.{judged};
ghost use Rattle.vk_selection.specs.Inner.{IsAt, IsFound, IsScalarOf, IsVectorOf};
ghost use Rattle.vk_selection.specs.Selection.{IsSelected};
ghost use Rattle.vk_selection.specs.declared.selection.Selected.{Selected as SelectedOf};

use crate::definitions::{is_defined, is_same};
use crate::letters::uses;
use crate::variants::lanes_with;
use vk_kinds::{Isa, Length, Param};
use vk_names::read_name;
use vk_rules::Checked;

/// A variant that a directive of a unit gives.
#[derive(Clone, Copy, PartialEq, Eq, Debug)]
pub struct Variant {
    /// The number of its function, from 0.
    pub function: usize,
    /// The number of the directive among those of the function, from 0.
    pub directive: usize,
    /// Its letter, whether it takes a mask, and its length.
    pub front: Length,
}

/// What a name selects.
#[derive(Clone, Copy, PartialEq, Eq, Debug)]
pub enum Selected {
    /// A variant, with so many lanes.
    Vector { variant: Variant, lanes: u16 },
    /// The scalar code of the function with this number.
    Scalar { function: usize },
}

/// What a name selects in a unit that is called with a letter and, where that is `s`, with vectors of `vl` bits: the variant of that
/// name that the image for the letter has (with the letter or one before it, of a function that the unit defines, with a number of
/// lanes), else the scalar code of the function of that name, where the unit defines it with directives.
pub fn selected_in(unit: &Checked, isa: Isa, vl: u32, name: &[u8]) -> Option<Selected>
    requires width { isa ≡ S → IsTrue (is_vector_length vl) }
    ensures found { IfSome result (IsSelected (judged unit.now) isa vl name.now) }
    ensures none { IsNone result → (selected : SelectedOf) → IsSelected (judged unit.now) isa vl name.now selected → ⊥ }
{
    match vector_in(unit, isa, vl, name) {
        Some((variant, lanes)) => Some(Selected::Vector { variant, lanes }),
        None => scalar_in(unit, name),
    }
}

// The variant that a name selects, with its lanes.
fn vector_in(unit: &Checked, isa: Isa, vl: u32, name: &[u8]) -> Option<(Variant, u16)>
    requires width { isa ≡ S → IsTrue (is_vector_length vl) }
    ensures { IsVectorOf (judged unit.now) isa vl name.now result }
{
    let Ok(read) = read_name(name) else {
        return None;
    };
    if (read.used as usize) < name.len() || !uses(isa, read.head.isa) {
        return None;
    }
    let front = Length {
        isa: read.head.isa,
        masked: read.head.masked,
        len: read.head.len,
    };
    let (_, scalar) = name.split_at(read.scalar_at as usize);
    variant_of(unit, vl, scalar, read.head.params.as_slice(), front)
}

// The variant whose name has these parts, with its lanes.
fn variant_of(
    unit: &Checked,
    vl: u32,
    scalar: &[u8],
    params: &[Param],
    front: Length,
) -> Option<(Variant, u16)>
    requires scalable { front.len ≡ Scalable → front.isa ≡ S }
    requires width { front.isa ≡ S → IsTrue (is_vector_length vl) }
    ensures { IsFound (judged unit.now) scalar.now params.now front vl result }
{
    if !is_defined(unit.unit(), scalar) {
        return None;
    }
    for function in 0..unit.functions() {
        if let Some((directive, lanes)) = directive_of(unit, function, vl, scalar, params, front) {
            let variant = Variant {
                function,
                directive,
                front,
            };
            return Some((variant, lanes));
        }
    }
    None
}

// The directive of a function with this name that gives the variant, and its lanes.
fn directive_of(
    unit: &Checked,
    function: usize,
    vl: u32,
    scalar: &[u8],
    params: &[Param],
    front: Length,
) -> Option<(usize, u16)>
    requires function { function < length (functions_of (judged unit.now)) }
    requires scalable { front.len ≡ Scalable → front.isa ≡ S }
    requires width { front.isa ≡ S → IsTrue (is_vector_length vl) }
    ensures { (g : FunctionTree) → slice_get (functions_of (judged unit.now)) function ≡ Some g → IsAt (judged unit.now) g scalar.now params.now front vl result }
{
    if !is_same(unit.name(function), scalar) {
        return None;
    }
    for directive in 0..unit.directives(function) {
        if let Some(lanes) = lanes_with(unit, function, directive, params, front, vl) {
            return Some((directive, lanes));
        }
    }
    None
}

// The scalar code of the function with this name, where it has directives and is defined.
fn scalar_in(unit: &Checked, name: &[u8]) -> Option<Selected>
    ensures { IsScalarOf (judged unit.now) name.now result }
{
    if !is_defined(unit.unit(), name) {
        return None;
    }
    for function in 0..unit.functions() {
        if is_same(unit.name(function), name) && unit.directives(function) > 0 {
            return Some(Selected::Scalar { function });
        }
    }
    None
}
