// Writes the file of a command.

ghost use Rattle.std.specs.Prelude.{◌≡◌, Some, IsTrue, IsErrOf, OnOk};
ghost use Rattle.std.specs.List.{flat_map};
ghost use Rattle.vk_io.specs.Counts.{Rose};
ghost use Rattle.vk_io.specs.Store.{Writes};
ghost use Rattle.vk_ends.specs.Printing.{IsPrinted};
ghost use Rattle.vk_files.specs.Writing.{HoldsFront};

use vk_ends::End;
use vk_io::{Outside, Store};

/// Makes the file of a name hold the bytes of these pieces, and nothing else, and says how the command ended: done, with a write
/// fault, or for want of memory.
///
/// It starts the file and adds each piece with a call of its own, up to the first call that fails.
pub fn write_file<S: Store>(store: &mut S, name: &str, pieces: &[&[u8]]) -> End
    ensures possible { IsPrinted result }
    ensures whole { IsTrue (S.state store.old).tells → result ≡ End.Done →
        (S.state store.new).file name.now ≡ Some (flat_map (λ piece. piece.now) pieces.now) }
    ensures front { IsTrue (S.state store.old).tells →
        HoldsFront (flat_map (λ piece. piece.now) pieces.now) ((S.state store.old).file name.now) ((S.state store.new).file name.now) }
    ensures unwritten { result ≡ End.WriteFault → Rose ((S.state store.old).writes name.now) ((S.state store.new).writes name.now) }
    ensures writes { Writes name.now (S.state store.old) (S.state store.new) }
{
    match write_pieces(store, name, pieces) {
        Ok(()) => End::Done,
        Err(Outside::Failed) => End::WriteFault,
        Err(Outside::Memory) => End::Memory,
    }
}

// Starts the file and adds each piece.
fn write_pieces<S: Store>(store: &mut S, name: &str, pieces: &[&[u8]]) -> Result<(), Outside>
    ensures whole { IsTrue (S.state store.old).tells →
        OnOk result ((S.state store.new).file name.now ≡ Some (flat_map (λ piece. piece.now) pieces.now)) }
    ensures front { IsTrue (S.state store.old).tells →
        HoldsFront (flat_map (λ piece. piece.now) pieces.now) ((S.state store.old).file name.now) ((S.state store.new).file name.now) }
    ensures failed { IsErrOf result Outside.Failed → Rose ((S.state store.old).writes name.now) ((S.state store.new).writes name.now) }
    ensures writes { Writes name.now (S.state store.old) (S.state store.new) }
{
    store.start(name)?;
    for piece in pieces {
        store.append(name, piece)?;
    }
    Ok(())
}
