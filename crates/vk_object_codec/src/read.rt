// An object from bytes.

ghost use Rattle.std.specs.Prelude.{◌≡◌, IfOk};
ghost use Rattle.vk_object_format.specs.Object.{object_bytes};
ghost use Rattle.vk_object_write.specs.Lists.{object_lists};
ghost use Rattle.vk_object_codec.specs.Reading.{IsRead};

use crate::feed::ObjectFeed;
use std::alloc::Global;
use vk_format::ObjectFail;
use vk_object::Object;

/// The object that the bytes spell, which is written as these bytes again, or the first rule that they break, at its place. Want of
/// memory is the answer too where a place would have more than 64 bits.
pub fn read_object(alloc: Global, bytes: &[u8]) -> Result<Object, ObjectFail>
    ensures read { IsRead result bytes.now }
    ensures spelled { IfOk result (λ object. bytes.now ≡ object_bytes (object_lists object)) }
{
    let mut feed = ObjectFeed::new(alloc);
    match feed.feed(bytes) {
        Ok(()) => feed.end(),
        Err(e) => Err(e),
    }
}
