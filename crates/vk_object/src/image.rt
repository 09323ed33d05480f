// An image: a linked program.

ghost use Rattle.std.specs.Prelude.{◌≡◌, true, map};
ghost use Rattle.vk_code.specs.Listing.{listing_of};
ghost use Rattle.vk_object.specs.Tables.{array_list_of, entry_list_of};
ghost use Rattle.vk_object.specs.Images.{is_image};

use crate::tables::{ArrayRow, Entry};
use vk_code::Code;
use vk_kinds::{Isa, Target};

/// A linked program.
#[derive(Drop)]
pub struct Image {
    pub target: Target,
    pub isa: Isa,
    /// The vector length in bits, 0 where there is none.
    pub vl: u16,
    /// The entry of the program, where there is one.
    pub main: Option<u32>,
    pub arrays: Vec<ArrayRow>,
    pub codes: Vec<Code>,
    pub entries: Vec<Entry>,
    pub ghost valid: { is_image (record {
      target = target;
      isa = isa;
      vl = vl;
      main = main;
      arrays = map array_list_of arrays.items;
      codes = map listing_of codes.items;
      entries = map entry_list_of entries.items;
    }) ≡ true },
}
