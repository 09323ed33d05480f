// What the records of commands mean over files in memory.

ghost use Rattle.std.specs.Prelude.{◌≡◌, ◌⊎◌, ℕ, List, Option};
ghost use Rattle.vk_types.specs.declared.types.Stop.{Stop};
ghost use Rattle.vk_io.specs.PureStore.{state_of};
ghost use Rattle.vk_ends.specs.Holds.{end_of};
ghost use Rattle.vk_requests.specs.Command.{Command, IsCommand, files_of};
ghost use Rattle.vk_cli.specs.Commands.{AreThere, CommandPrints};

use crate::call::vfabi;
use std::alloc::Global;
use vk_ends::End;
use vk_io::{PureSink, PureStore, Words};

/// Over files in memory, where every input is there, and sinks in memory without faults, a command prints its text and ends so, or
/// memory runs out.
pub fn vfabi_in_memory(
    alloc: Global,
    words: &Words,
    files: &mut PureStore,
    out: &mut PureSink,
    err: &mut PureSink,
) -> End
    ensures complete { (k : Command) → IsCommand words.now k → AreThere (files_of k) (state_of files.old) → (text : List ℕ) (stop : Option Stop) →
        CommandPrints k (state_of files.old).file text stop → (result ≡ end_of stop) ⊎ (result ≡ End.Memory) }
{
    vfabi(alloc, words, files, out, err)
}
