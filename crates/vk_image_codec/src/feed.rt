// An image that comes in pieces.

ghost use Rattle.std.specs.Prelude.{◌≡◌, ◌≤◌, ◌-◌, length, true, IfOk};
ghost use Rattle.vk_image_codec.specs.Rows.{rows_left, rows_width};
ghost use Rattle.vk_image_codec.specs.Images.{StandsFor, are_valid};
ghost use Rattle.vk_image_codec.specs.Inner.Came.{Came};

use crate::rows::ImageRows;
use std::alloc::Global;
use vk_format::ObjectFail;
use vk_image_format::RawImage;
use vk_image_rows::image_of;
use vk_memory::Memory;
use vk_object::Image;
use vk_pieces::Pieces;

/// An image that comes in pieces of any lengths. It keeps no bytes but those of a field that is not whole.
#[derive(Drop)]
pub struct ImageFeed {
    pub(crate) alloc: Global,
    pub(crate) rows: ImageRows,
    pub(crate) pieces: Pieces,
    ghost fits: { length pieces.pending.items ≤ rows_width rows.fields - 1 },
    ghost came: { Came (rows_left rows.fields pieces.at) pieces },
}

// The image of tables that stand for one.
fn image(alloc: Global, tables: &RawImage) -> Result<Image, Memory>
    requires { are_valid tables.now ≡ true }
    ensures { IfOk result (λ image. StandsFor tables.now image) }
{
    image_of(alloc, tables)
}

impl ImageFeed {
    ghost use Rattle.std.specs.Prelude.{ℕ, ◌++◌, [], List, Err, IfErr, IfSome, Some};
    ghost use Rattle.vk_format.specs.Format.{advance};
    ghost use Rattle.vk_image_codec.specs.Rows.{rows_format};
    ghost use Rattle.vk_pieces.specs.Standing.{IsTold};
    ghost use Rattle.vk_image_codec.specs.Reading.{IsRead};
    ghost use Rattle.vk_image_codec.specs.Standing.{Stands};

    /// A feed of no byte yet.
    pub fn new(alloc: Global) -> ImageFeed
        ensures stands { Stands result [] }
    {
        ImageFeed {
            alloc,
            rows: ImageRows::new(alloc),
            pieces: Pieces::new::<RawImage>(alloc),
        }
    }

    /// Takes the next piece, of bytes that may go on, and answers by all bytes that were fed, in whatever pieces. A fault stays
    /// the answer, and so does want of memory, which is the answer too where a place would have more than 64 bits.
    pub fn feed(&mut self, piece: &[u8]) -> Result<(), ObjectFail>
        ensures fed { (bytes : List ℕ) → Stands self.old bytes → Stands self.new (bytes ++ piece.now) }
        ensures told { (bytes : List ℕ) → Stands self.new bytes → IsTold result (advance rows_format 0 bytes) }
        ensures same { IfSome self.old.pieces.failed (λ fail. result ≡ Err fail) }
        ensures kept { IfErr result (λ fail. self.new.pieces.failed ≡ Some fail) }
    {
        self.pieces.feed(&mut self.rows, piece)
    }

    /// The bytes end here.
    pub fn end(self) -> Result<Image, ObjectFail>
        ensures { (bytes : List ℕ) → Stands self bytes → IsRead result bytes }
    {
        let alloc = self.alloc;
        let pieces = self.pieces;
        let rows = self.rows;
        match pieces.end(&rows) {
            Err(fail) => Err(fail),
            Ok(()) => Ok(image(alloc, &rows.fields.image)?),
        }
    }
}
