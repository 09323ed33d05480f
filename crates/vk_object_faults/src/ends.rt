// What is judged once the last field of an object is complete.

ghost use Rattle.std.specs.Prelude.{◌≡◌, ℕ, IfOk};
ghost use Rattle.std.specs.Option.{option_map};
ghost use Rattle.vk_object_format.specs.Object.{object_faults};
ghost use Rattle.vk_object_faults.specs.Inner.Told.{capped_fault};

use crate::codes::fault_in_functions;
use crate::lengths::functions_at;
use crate::names::names_of;
use crate::symbols::{symbol_uses, unused_symbol};
use std::alloc::Global;
use vk_format::{ObjectFault, ObjectRule};
use vk_memory::Memory;
use vk_object_format::RawObject;

// Where the first fault is, and by which rule.
fn first_fault(alloc: Global, object: &RawObject) -> Result<Option<ObjectFault>, Memory>
    ensures { IfOk result (λ told. (end : ℕ) → told ≡ option_map capped_fault (object_faults object.now end)) }
{
    let uses = symbol_uses(alloc, object)?;
    match unused_symbol(object.symbols.as_slice(), &uses) {
        Some(at) => {
            return Ok(Some(ObjectFault {
                at,
                rule: ObjectRule::O6,
            }));
        }
        None => {}
    }
    let env = names_of(alloc, object)?;
    match fault_in_functions(
        alloc,
        &env,
        functions_at(object),
        object.functions.as_slice(),
    )? {
        Some(at) => Ok(Some(ObjectFault {
            at,
            rule: ObjectRule::O9,
        })),
        None => Ok(None),
    }
}

/// The first fault of tables whose fields are complete: a symbol that is not used by one record, or a code that is not valid. Want of
/// memory is the answer too where its place would have more than 64 bits.
pub fn object_faults(alloc: Global, object: &RawObject) -> Result<Option<ObjectFault>, Memory>
    ensures { IfOk result (λ told. (end : ℕ) → told ≡ object_faults object.now end) }
{
    match first_fault(alloc, object)? {
        None => Ok(None),
        Some(fault) => {
            if fault.at == u64::MAX {
                return Err(Memory);
            }
            Ok(Some(fault))
        }
    }
}
