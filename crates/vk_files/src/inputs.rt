// The inputs of a command.

ghost use Rattle.std.specs.Prelude.{◌≡◌, ℕ, List, [], ◌∷◌, ◌++◌, map, OnOk, OnErr};

use std::alloc::Global;
use std::marker::Model;
use vk_memory::Memory;

/// The bytes of each input file of a command, in the order of the inputs. Its value is their list.
#[derive(Drop)]
pub struct Inputs {
    files: Vec<Vec<u8>>,
}

impl Model for Inputs {
    ghost Value = { List (List ℕ) };

    ghost view = { λ inputs. map (λ bytes. bytes.items) inputs.files.items };
}

impl Inputs {
    /// No input.
    pub fn new(alloc: Global) -> Inputs
        ensures { result ≡ [] }
    {
        Inputs {
            files: Vec::new(alloc),
        }
    }

    /// Adds the bytes of the next input.
    pub fn push(&mut self, bytes: Vec<u8>) -> Result<(), Memory>
        ensures ok { OnOk result (self.new ≡ self.old ++ bytes.items ∷ []) }
        ensures err { OnErr result (self.new ≡ self.old) }
    {
        self.files.push(bytes)?;
        Ok(())
    }

    /// The bytes of each input, first to last.
    pub fn files(&self) -> &[Vec<u8>]
        ensures { map (λ bytes. bytes.items) result.now ≡ self.now }
    {
        &self.files
    }
}
