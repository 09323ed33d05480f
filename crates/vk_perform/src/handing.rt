// What is handed over to an entry that is called, and back.

ghost use Rattle.std.specs.Prelude.{◌≤◌, length};
ghost use Rattle.vk_steps.specs.Places.{FitsPlace, called_cells, entry, tables};
ghost use Rattle.vk_access.specs.Stores.{FitsStore};
ghost use Rattle.vk_calls.specs.Found.{IsCallee};
ghost use Rattle.vk_perform.specs.Ready.{IsReady};

use vk_access::Store;
use vk_frames::Frame;
use vk_steps::Place;
use vk_types::Word;

/// An entry that is called has what its code needs.
pub fn hand_over(
    place: &Place<'_>,
    inner: &Place<'_>,
    memory: &Store,
    callee: &Frame<'_>,
    rest: &[Word],
)
    requires callee { IsCallee place.now inner.now }
    requires store { FitsStore place.now.image.now memory.now }
    requires fits { FitsPlace inner.now callee.now }
    requires room { called_cells (tables inner.now) inner.now.depth (entry inner.now) ≤ length rest.now }
    ensures { IsReady inner.now callee.now memory.now rest.now }
{}

/// The memory after the call fits the caller's image.
pub fn hand_back(place: &Place<'_>, inner: &Place<'_>, memory: &Store)
    requires callee { IsCallee place.now inner.now }
    requires store { FitsStore inner.now.image.now memory.now }
    ensures { FitsStore place.now.image.now memory.now }
{}
