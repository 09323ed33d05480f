// Reads the input files of a command.

ghost use Rattle.std.specs.Prelude.{◌≡◌, ℕ, ◌≤◌, [], ◌∷◌, length, Some, IfOk, IfErr, IsErrOf, IsTrue};
ghost use Rattle.vk_io.specs.Counts.{Rose};
ghost use Rattle.vk_io.specs.Store.{Reads};
ghost use Rattle.vk_io.specs.Whole.{IsTooLong};
ghost use Rattle.vk_ends.specs.Inputs.{IsUnread};

use crate::ends::{End, Refusal};
use std::alloc::Global;
use vk_io::{Store, WholeFail, read_whole};

/// The most bytes of a unit or of a file of names.
pub const UNIT_LIMIT: u64 = 1_048_576;

/// The most bytes of an object.
pub const OBJECT_LIMIT: u64 = 16_777_216;

/// The most bytes of an image.
pub const IMAGE_LIMIT: u64 = 67_108_864;

/// Reads the whole file of a name, the command's input of this number.
///
/// Else it gives the end of the command: a read fault, the refusal of more than `limit` bytes, or want of memory.
pub fn read_input<S: Store>(
    alloc: Global,
    store: &mut S,
    name: &str,
    input: usize,
    limit: u64,
) -> Result<Vec<u8>, End>
    ensures found { IsTrue (S.state store.old).tells → IfOk result (λ bytes. (S.state store.old).file name.now ≡ Some bytes.items) }
    ensures fits { IfOk result (λ bytes. length bytes.items ≤ limit) }
    ensures unread { IfErr result (IsUnread input) }
    ensures size { IsTrue (S.state store.old).tells → IsErrOf result (End.Refused (Refusal.Size input)) →
        IsTooLong ((S.state store.old).file name.now) limit }
    ensures failed { IsErrOf result (End.ReadFault input) →
        Rose ((S.state store.old).reads name.now) ((S.state store.new).reads name.now) }
    ensures reads { Reads (name.now ∷ []) (S.state store.old) (S.state store.new) }
{
    match read_whole(alloc, store, name, limit) {
        Ok(bytes) => Ok(bytes),
        Err(WholeFail::Fault) => Err(End::ReadFault(input)),
        Err(WholeFail::Size) => Err(End::Refused(Refusal::Size { input })),
        Err(WholeFail::Memory) => Err(End::Memory),
    }
}
