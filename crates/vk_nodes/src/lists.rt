// Lists that grow.

ghost use Rattle.std.specs.Prelude.{◌≡◌, ◌++◌, IfOk};

use vk_memory::Memory;

/// Moves the items of one list behind those of another.
pub fn append<T: Drop>(list: &mut Vec<T>, more: Vec<T>) -> Result<(), Memory>
    ensures { IfOk result (λ _. list.new.items ≡ list.old.items ++ more.items) }
{
    list.extend(more)?;
    Ok(())
}
