// What a name selects, as what is called.

ghost use Rattle.std.specs.Prelude.{◌≡◌, slice_get, Some};
ghost use Rattle.vk_ast.specs.Units.{FunctionTree};
ghost use Rattle.vk_rules.specs.Functions.{functions_of};
ghost use Rattle.vk_rules.specs.Verdicts.{judged};
ghost use Rattle.vk_arguments.specs.Arguments.{called};
ghost use Rattle.vk_cmd_lanes.specs.Inner.{IsListed, function_in};
ghost use Rattle.vk_cmd_lanes.specs.Lanes.{IsCalledAs};

use vk_arguments::Callee;
use vk_rules::Checked;
use vk_selection::{Selected, Variant};

/// What a name selects in a unit, as what is called on lanes: a variant with the kinds of its directive and its lanes, or scalar code.
pub fn callee_of(unit: &Checked, selected: Selected) -> Callee<'_>
    requires listed { IsListed (judged unit.now) selected }
    ensures { (f : FunctionTree) → slice_get (functions_of (judged unit.now)) (function_in selected) ≡ Some f → IsCalledAs f selected (called result) }
{
    match selected {
        Selected::Vector { variant, lanes } => variant_of(unit, variant, lanes),
        Selected::Scalar { function } => Callee {
            types: unit.head(function).params.as_slice(),
            params: &[],
            lanes: 1,
            takes_mask: true,
        },
    }
}

// A variant with so many lanes.
fn variant_of(unit: &Checked, variant: Variant, lanes: u16) -> Callee<'_>
    requires listed { IsListed (judged unit.now) (Selected.Vector variant lanes) }
    ensures { (f : FunctionTree) → slice_get (functions_of (judged unit.now)) variant.function ≡ Some f → IsCalledAs f (Selected.Vector variant lanes) (called result) }
{
    let Variant {
        function,
        directive,
        front,
    } = variant;
    Callee {
        types: unit.head(function).params.as_slice(),
        params: unit.signature(function, directive).params.as_slice(),
        lanes: usize::from(lanes),
        takes_mask: front.masked,
    }
}
