// Functions and their codes from their rows.

ghost use Rattle.std.specs.Prelude.{◌≡◌, map, IfOk};
ghost use Rattle.std.specs.Option.{option_map};
ghost use Rattle.vk_kinds.specs.Sizes.{head_types};
ghost use Rattle.vk_code.specs.Listing.{listing_of};
ghost use Rattle.vk_code_format.specs.Values.{listing_of as listing_of_row};
ghost use Rattle.vk_object.specs.Objects.{code_list_of, function_list_of};
ghost use Rattle.vk_object_format.specs.Values.{codes_of, function_of, head_of};

use crate::directives::directives_of;
use std::alloc::Global;
use vk_code::Code;
use vk_code_format::CodeRow;
use vk_code_rows::faults::exact_code_of;
use vk_kinds::{Head, Types};
use vk_memory::Memory;
use vk_object::{Codes, FunctionRow};
use vk_object_format::{RawCodes, RawFunction};

// The types of a function. More parameters than there is room for do not come.
fn head_of(function: &RawFunction) -> Result<Head, Memory>
    ensures { IfOk result (λ h. head_types h ≡ head_of function.now) }
{
    let mut params = Types::new();
    match params.try_extend_from_slice(function.params.as_slice()) {
        Ok(()) => {}
        Err(_) => return Err(Memory),
    }
    Ok(Head {
        result: function.result,
        params,
    })
}

fn lanes_of(alloc: Global, rows: &[CodeRow]) -> Result<Vec<Code>, Memory>
    ensures { IfOk result (λ codes. map listing_of codes.items ≡ map listing_of_row rows.now) }
{
    let mut codes = Vec::new(alloc);
    for row in rows {
        codes.push(exact_code_of(alloc, row)?)?;
    }
    Ok(codes)
}

fn whole_codes_of(alloc: Global, rows: &RawCodes) -> Result<Codes, Memory>
    ensures { IfOk result (λ codes. code_list_of codes ≡ codes_of rows.now) }
{
    let scalar = exact_code_of(alloc, &rows.scalar)?;
    let lanes = lanes_of(alloc, rows.lanes.as_slice())?;
    Ok(Codes { scalar, lanes })
}

fn codes_of(alloc: Global, rows: &Option<RawCodes>) -> Result<Option<Codes>, Memory>
    ensures { IfOk result (λ codes. option_map code_list_of codes ≡ option_map codes_of rows.now) }
{
    match rows {
        None => Ok(None),
        Some(rows) => Ok(Some(whole_codes_of(alloc, rows)?)),
    }
}

fn function_of(alloc: Global, row: &RawFunction) -> Result<FunctionRow, Memory>
    ensures { IfOk result (λ f. function_list_of f ≡ function_of row.now) }
{
    let head = head_of(row)?;
    let directives = directives_of(alloc, row.directives.as_slice())?;
    let codes = codes_of(alloc, &row.codes)?;
    Ok(FunctionRow {
        symbol: row.symbol,
        head,
        directives,
        codes,
    })
}

/// The functions of rows.
pub(crate) fn functions_of(alloc: Global, rows: &[RawFunction]) -> Result<Vec<FunctionRow>, Memory>
    ensures { IfOk result (λ functions. map function_list_of functions.items ≡ map function_of rows.now) }
{
    let mut functions = Vec::new(alloc);
    for row in rows {
        functions.push(function_of(alloc, row)?)?;
    }
    Ok(functions)
}
