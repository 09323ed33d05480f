// An object from its tables.

ghost use Rattle.std.specs.Prelude.{◌≡◌, true, map, IfOk};
ghost use Rattle.vk_object.specs.Objects.{data_list_of, is_object, symbol_text};
ghost use Rattle.vk_object_format.specs.Values.{data_of, object_of};
ghost use Rattle.vk_object_write.specs.Lists.{object_lists};

use crate::functions::functions_of;
use std::alloc::Global;
use vk_format::Items;
use vk_memory::Memory;
use vk_object::{DataRow, Object, Symbol};
use vk_object_format::{RawData, RawObject};

fn symbol_of(alloc: Global, text: &Items<u8>) -> Result<Symbol, Memory>
    ensures { IfOk result (λ symbol. symbol_text symbol ≡ text.now) }
{
    Ok(Symbol {
        text: Vec::from_slice(alloc, text.as_slice())?,
    })
}

fn symbols_of(alloc: Global, texts: &[Items<u8>]) -> Result<Vec<Symbol>, Memory>
    ensures { IfOk result (λ symbols. map symbol_text symbols.items ≡ texts.now) }
{
    let mut symbols = Vec::new(alloc);
    for text in texts {
        symbols.push(symbol_of(alloc, text)?)?;
    }
    Ok(symbols)
}

fn data_of(alloc: Global, row: &RawData) -> Result<DataRow, Memory>
    ensures { IfOk result (λ d. data_list_of d ≡ data_of row.now) }
{
    let elements = Vec::from_slice(alloc, row.elements.as_slice())?;
    Ok(DataRow {
        symbol: row.symbol,
        ty: row.ty,
        fixed: row.fixed,
        defined: row.defined,
        length: row.length,
        elements,
    })
}

fn objects_of(alloc: Global, rows: &[RawData]) -> Result<Vec<DataRow>, Memory>
    ensures { IfOk result (λ objects. map data_list_of objects.items ≡ map data_of rows.now) }
{
    let mut objects = Vec::new(alloc);
    for row in rows {
        objects.push(data_of(alloc, row)?)?;
    }
    Ok(objects)
}

/// The object of these tables.
pub fn object_of(alloc: Global, tables: &RawObject) -> Result<Object, Memory>
    requires valid { is_object (object_of tables.now) ≡ true }
    ensures same { IfOk result (λ object. object_lists object ≡ object_of tables.now) }
{
    let symbols = symbols_of(alloc, tables.symbols.as_slice())?;
    let objects = objects_of(alloc, tables.objects.as_slice())?;
    let functions = functions_of(alloc, tables.functions.as_slice())?;
    Ok(Object {
        target: tables.target,
        symbols,
        objects,
        functions,
    })
}
