// Directives from their rows.

ghost use Rattle.std.specs.Prelude.{◌≡◌, map, IfOk};
ghost use Rattle.vk_kinds.specs.Sizes.{signature_tree};
ghost use Rattle.vk_code_format.specs.Parameters.{param_of};
ghost use Rattle.vk_object_fields.specs.Cut.{is_near};
ghost use Rattle.vk_object_format.specs.Values.{signature_of};

use std::alloc::Global;
use vk_code_format::{ParamKind, ParamRow};
use vk_kinds::{Param, Params, Signature};
use vk_memory::Memory;
use vk_object_fields::parameters::param_of;
use vk_object_format::RawDirective;

// Whether a parameter that it names has a number of one byte.
fn is_near(row: ParamRow) -> bool
    ensures { result ≡ is_near row }
{
    match row.kind {
        ParamKind::Along => row.value < 256,
        ParamKind::Vector | ParamKind::Uniform | ParamKind::By => true,
    }
}

// The parameter of a row. A number above that of any parameter does not come.
#[tactic(auto, using(crate::proofs::Exact::near_row))]
fn exact_param(row: ParamRow) -> Result<Param, Memory>
    ensures { IfOk result (λ param. param ≡ param_of row) }
{
    if !is_near(row) {
        return Err(Memory);
    }
    Ok(param_of(row))
}

// The parameters of rows. More than there is room for do not come.
fn params_of(rows: &[ParamRow]) -> Result<Params, Memory>
    ensures { IfOk result (λ params. params.items ≡ map param_of rows.now) }
{
    let mut params = Params::new();
    for row in rows {
        let param = exact_param(*row)?;
        match params.try_push(param) {
            Ok(()) => {}
            Err(_) => return Err(Memory),
        }
    }
    Ok(params)
}

fn directive_of(row: &RawDirective) -> Result<Signature, Memory>
    ensures { IfOk result (λ s. signature_tree s ≡ signature_of row.now) }
{
    let params = params_of(row.params.as_slice())?;
    Ok(Signature {
        params,
        branch: row.branch,
        simdlen: row.simdlen,
    })
}

/// The directives of rows.
pub(crate) fn directives_of(alloc: Global, rows: &[RawDirective]) -> Result<Vec<Signature>, Memory>
    ensures { IfOk result (λ signatures. map signature_tree signatures.items ≡ map signature_of rows.now) }
{
    let mut directives = Vec::new(alloc);
    for row in rows {
        directives.push(directive_of(row)?)?;
    }
    Ok(directives)
}
