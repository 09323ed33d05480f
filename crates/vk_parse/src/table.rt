// A table of names of its own for the tree.

ghost use Rattle.std.specs.Prelude.{◌≡◌, ◌≤◌, ◌+◌, length, IfOk};

use std::alloc::Global;
use vk_ast::{NameId, NameTable};
use vk_memory::Memory;

/// A table with the same names, each with the same number.
pub fn copy_table(alloc: Global, names: &NameTable) -> Result<NameTable, Memory>
    requires { length names.now ≤ 1048576 }
    ensures { IfOk result (λ copy. copy ≡ names.now) }
{
    let mut copy = NameTable::new(alloc);
    for id in 0..names.len() as u32 {
        copy.add(names.text(NameId(id)))?;
    }
    Ok(copy)
}
