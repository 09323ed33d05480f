// How many bytes the tables of an object have. Numbers of bytes stay at the greatest `u64` once they would pass it.

ghost use Rattle.std.specs.Prelude.{◌≡◌};
ghost use Rattle.std.specs.List.{sum_by};
ghost use Rattle.vk_code_rows.specs.Sums.{capped};
ghost use Rattle.vk_object_format.specs.Object.{codes_in, data_length, front_length, functions_at, symbol_length};
ghost use Rattle.vk_object_faults.specs.Inner.Told.{code_size, function_size};

use crate::symbols::SYMBOLS_AT;
use vk_code_format::CodeRow;
use vk_code_read::CodePlace;
use vk_code_rows::places::code_length;
use vk_format::Items;
use vk_object_fields::fields::bytes_of;
use vk_object_format::{RawCodes, RawData, RawFunction, RawObject};

fn symbols_length(symbols: &[Items<u8>]) -> u64
    ensures { result ≡ capped (sum_by symbol_length symbols.now) }
{
    let mut bytes: u64 = 0;
    for symbol in symbols {
        bytes = bytes.saturating_add(2).saturating_add(symbol.len() as u64);
    }
    bytes
}

fn data_length(row: &RawData) -> u64
    ensures { result ≡ capped (data_length row.now) }
{
    let elements = (row.elements.len() as u64).saturating_mul(bytes_of(row.ty) as u64);
    elements.saturating_add(14)
}

fn objects_length(objects: &[RawData]) -> u64
    ensures { result ≡ capped (sum_by data_length objects.now) }
{
    let mut bytes: u64 = 0;
    for object in objects {
        bytes = bytes.saturating_add(data_length(object));
    }
    bytes
}

/// Where the first function begins.
pub(crate) fn functions_at(object: &RawObject) -> u64
    ensures { result ≡ capped (functions_at object.now) }
{
    SYMBOLS_AT
        .saturating_add(symbols_length(object.symbols.as_slice()))
        .saturating_add(4)
        .saturating_add(objects_length(object.objects.as_slice()))
        .saturating_add(4)
}

/// The bytes of a function before its codes.
pub(crate) fn front_length(function: &RawFunction) -> u64
    ensures { result ≡ capped (front_length function.now) }
{
    let params = function.params.len() as u64;
    let directive = params.saturating_mul(9).saturating_add(3);
    let directives = (function.directives.len() as u64).saturating_mul(directive);
    params.saturating_add(9).saturating_add(directives)
}

/// The codes of an object; how long they are does not go by what they name.
pub(crate) const PLACE: CodePlace = CodePlace::Object {
    functions: 0,
    params: 0,
};

/// How many bytes the code has.
pub(crate) fn code_size(row: &CodeRow) -> u64
    ensures { result ≡ capped (code_size row.now) }
{
    code_length(PLACE, row)
}

fn codes_size(rows: &[CodeRow]) -> u64
    ensures { result ≡ capped (sum_by code_size rows.now) }
{
    let mut bytes: u64 = 0;
    for row in rows {
        bytes = bytes.saturating_add(code_size(row));
    }
    bytes
}

// How many bytes the codes of a function have.
fn all_codes_size(codes: &Option<RawCodes>) -> u64
    ensures { result ≡ capped (sum_by code_size (codes_in codes.now)) }
{
    match codes {
        None => 0,
        Some(codes) => {
            code_size(&codes.scalar).saturating_add(codes_size(codes.lanes.as_slice()))
        }
    }
}

/// How many bytes the function has.
pub(crate) fn function_size(function: &RawFunction) -> u64
    ensures { result ≡ capped (function_size function.now) }
{
    front_length(function).saturating_add(all_codes_size(&function.codes))
}
