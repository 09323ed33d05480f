// Reads the input files of a command.

ghost use Rattle.std.specs.Prelude.{◌≡◌, ℕ, map, take, length, IfOk, IfErr, IsErrOf, IsTrue};
ghost use Rattle.vk_io.specs.Store.{Reads};
ghost use Rattle.vk_ends.specs.Inputs.{HasFailed};
ghost use Rattle.vk_files.specs.Reading.{AreFiles, AreReadable, AreWithin, IsFirstTooLong, IsUnreadOf};

use crate::inputs::Inputs;
use std::alloc::Global;
use vk_ends::{End, Refusal, read_input};
use vk_io::Store;

/// Reads the whole files of these names, a command's inputs from 0 on, one after another. A name that stands twice is read twice.
///
/// Else it gives the end of the command for the first that is not read: a read fault, the refusal of more than `limit` bytes, or
/// want of memory.
pub fn read_inputs<S: Store>(
    alloc: Global,
    store: &mut S,
    files: &[&str],
    limit: u64,
) -> Result<Inputs, End>
    ensures found { IsTrue (S.state store.old).tells →
        IfOk result (λ inputs. AreFiles (S.state store.old).file (map (λ file. file.now) files.now) inputs) }
    ensures fit { IfOk result (λ inputs. AreWithin limit inputs) }
    ensures unread { IfErr result (IsUnreadOf (length files.now)) }
    ensures size { IsTrue (S.state store.old).tells → (input : ℕ) → IsErrOf result (End.Refused (Refusal.Size input)) →
        IsFirstTooLong (S.state store.old).file limit (map (λ file. file.now) files.now) input }
    ensures fault { IsTrue (S.state store.old).tells → (input : ℕ) → IsErrOf result (End.ReadFault input) →
        AreReadable (S.state store.old).file limit (take input (map (λ file. file.now) files.now)) }
    ensures failed { (input : ℕ) → IsErrOf result (End.ReadFault input) →
        HasFailed (map (λ file. file.now) files.now) input (S.state store.old) (S.state store.new) }
    ensures reads { Reads (map (λ file. file.now) files.now) (S.state store.old) (S.state store.new) }
{
    let mut inputs = Inputs::new(alloc);
    for (input, file) in files.iter().enumerate() {
        let bytes = read_input(alloc, store, file, input, limit)?;
        inputs.push(bytes)?;
    }
    Ok(inputs)
}
