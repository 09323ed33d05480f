// Parameters from their rows.

ghost use Rattle.std.specs.Prelude.{◌≡◌, map, IfOk};
ghost use Rattle.vk_code_format.specs.Parameters.{param_of};
ghost use Rattle.vk_object_fields.specs.Cut.{is_near};

use vk_code_format::{ParamKind, ParamRow};
use vk_kinds::{Param, Params};
use vk_memory::Memory;
use vk_object_fields::parameters::param_of;

// Whether a parameter that it names has a number of one byte.
fn is_near(row: ParamRow) -> bool
    ensures { result ≡ is_near row }
{
    match row.kind {
        ParamKind::Along => row.value < 256,
        ParamKind::Vector | ParamKind::Uniform | ParamKind::By => true,
    }
}

// The parameter of a row. A number above that of any parameter does not come.
#[tactic(auto, using(vk_object_rows::proofs::Exact::near_row))]
fn exact_param(row: ParamRow) -> Result<Param, Memory>
    ensures { IfOk result (λ param. param ≡ param_of row) }
{
    if !is_near(row) {
        return Err(Memory);
    }
    Ok(param_of(row))
}

/// The parameters of rows. Want of memory is the answer too where there are more than there is room for, or one names a parameter by a
/// number of more than one byte: then they are none of an entry.
pub fn params_of(rows: &[ParamRow]) -> Result<Params, Memory>
    ensures { IfOk result (λ params. params.items ≡ map param_of rows.now) }
{
    let mut params = Params::new();
    for row in rows {
        let param = exact_param(*row)?;
        match params.try_push(param) {
            Ok(()) => {}
            Err(_) => return Err(Memory),
        }
    }
    Ok(params)
}
