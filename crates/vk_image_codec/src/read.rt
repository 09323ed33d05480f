// An image from bytes.

ghost use Rattle.std.specs.Prelude.{◌≡◌, IfOk};
ghost use Rattle.vk_image_format.specs.Image.{image_bytes};
ghost use Rattle.vk_image_write.specs.Lists.{image_lists};
ghost use Rattle.vk_image_codec.specs.Reading.{IsRead};

use crate::feed::ImageFeed;
use std::alloc::Global;
use vk_format::ObjectFail;
use vk_object::Image;

/// The image that the bytes spell, which is written as these bytes again, or the first rule that they break, at its place. Want of
/// memory is the answer too where a place would have more than 64 bits.
pub fn read_image(alloc: Global, bytes: &[u8]) -> Result<Image, ObjectFail>
    ensures read { IsRead result bytes.now }
    ensures spelled { IfOk result (λ image. bytes.now ≡ image_bytes (image_lists image)) }
{
    let mut feed = ImageFeed::new(alloc);
    match feed.feed(bytes) {
        Ok(()) => feed.end(),
        Err(e) => Err(e),
    }
}
