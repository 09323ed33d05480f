// A sink for code that does not print.

ghost use Rattle.std.specs.Prelude.{◌≡◌, IsErr};

use vk_io::{Outside, Sink};

/// A sink that keeps nothing and tells no bytes. It never fails, and needs no memory.
#[derive(Drop)]
pub struct Discard {
    calls: u64,
}

impl Discard {
    ghost use Rattle.vk_direct.specs.Discard.{state_of};

    /// A sink that was not called yet.
    pub fn new() -> Discard
        ensures { (state_of result).calls ≡ 0 }
    {
        Discard { calls: 0 }
    }
}

impl Sink for Discard {
    ghost use Rattle.vk_direct.specs.Discard.{state_of};

    ghost state = { state_of };

    fn put(&mut self, _piece: &[u8]) -> Result<(), Outside> {
        self.calls = self.calls.saturating_add(1);
        Ok(())
    }
}
