// What is written as bytes, one after the other.

ghost use Rattle.std.specs.Prelude.{◌≡◌, ℕ, ◌++◌, List, OnOk};
ghost use Rattle.std.specs.List.{flat_map};
ghost use Rattle.vk_code_write.specs.declared.written.FileKind.{FileKind};

use vk_memory::Memory;

/// What bytes are to be.
#[derive(Clone, Copy, PartialEq, Eq, Debug)]
pub enum FileKind {
    Object,
    Image,
}

/// What has bytes in an object and in an image.
pub trait Written {
    /// Its bytes.
    ghost bytes: { FileKind → Self → List ℕ };

    /// Writes its bytes at the end.
    fn put(&self, file: FileKind, out: &mut Vec<u8>) -> Result<(), Memory>
        ensures written { OnOk result (out.new.items ≡ out.old.items ++ bytes file self.now) };
}

/// Writes all of them, in order.
pub fn put_all<T: Written>(items: &[T], file: FileKind, out: &mut Vec<u8>) -> Result<(), Memory>
    ensures written { OnOk result (out.new.items ≡ out.old.items ++ flat_map (T.bytes file) items.now) }
{
    for item in items {
        item.put(file, out)?;
    }
    Ok(())
}
