// The bytes of an image.

ghost use Rattle.std.specs.Prelude.{◌≡◌, ◌++◌, map, true, is_some, IfOk, OnOk};
ghost use Rattle.byteorder.specs.Endian.{little_bytes};
ghost use Rattle.vk_code.specs.Listing.{listing_of};
ghost use Rattle.vk_image_format.specs.Image.{image_bytes, letter};
ghost use Rattle.vk_image_format.specs.Values.{main_number};
ghost use Rattle.vk_image_write.specs.Lists.{image_lists};
ghost use Rattle.vk_image_write.specs.Inner.Bytes.{codes_bytes, header_bytes, lists_bytes, magic_bytes};

use crate::arrays::put_arrays;
use crate::entries::put_entries;
use std::alloc::Global;
use vk_code::Code;
use vk_code_write::parts::put_target;
use vk_code_write::{FileKind, put_all};
use vk_format::fields::{put_count_u32, put_u8, put_u16, put_u32};
use vk_kinds::{Isa, Target};
use vk_memory::Memory;
use vk_object::Image;

/// The bytes of an image that has a `main`: the one text that the table of its fields gives it.
pub fn write_image(alloc: Global, image: &Image) -> Result<Vec<u8>, Memory>
    requires main { is_some image.now.main ≡ true }
    ensures bytes { IfOk result (λ bytes. bytes.items ≡ image_bytes (image_lists image.now)) }
{
    let mut out = Vec::new(alloc);
    put_lists(&mut out, image)?;
    Ok(out)
}

fn put_lists(out: &mut Vec<u8>, image: &Image) -> Result<(), Memory>
    ensures written { OnOk result (out.new.items ≡ out.old.items ++ lists_bytes (image_lists image.now)) }
{
    put_header(out, image.target, image.isa, image.vl)?;
    put_main(out, image.main)?;
    put_arrays(out, &image.arrays)?;
    put_codes(out, &image.codes)?;
    put_entries(out, &image.entries)
}

// The first bytes, the version, the target, the letter and the vector length.
fn put_header(out: &mut Vec<u8>, target: Target, isa: Isa, vl: u16) -> Result<(), Memory>
    ensures written { OnOk result (out.new.items ≡ out.old.items ++ header_bytes target isa vl) }
{
    put_magic(out)?;
    put_target(out, target)?;
    put_letter(out, isa)?;
    put_u16(out, vl)
}

// The first bytes and the version.
#[tactic(auto, unfolding(crate::specs::Inner::Bytes::magic_bytes))]
fn put_magic(out: &mut Vec<u8>) -> Result<(), Memory>
    ensures written { OnOk result (out.new.items ≡ out.old.items ++ magic_bytes) }
{
    out.extend_from_slice(b"VKLINKED\x01\x00")?;
    Ok(())
}

fn put_letter(out: &mut Vec<u8>, isa: Isa) -> Result<(), Memory>
    ensures written { OnOk result (out.new.items ≡ out.old.items ++ little_bytes 1 (letter isa)) }
{
    match isa {
        Isa::B => put_u8(out, b'b'),
        Isa::C => put_u8(out, b'c'),
        Isa::D => put_u8(out, b'd'),
        Isa::E => put_u8(out, b'e'),
        Isa::N => put_u8(out, b'n'),
        Isa::S => put_u8(out, b's'),
    }
}

// The entry of the program; no bytes say that there is none.
fn put_main(out: &mut Vec<u8>, main: Option<u32>) -> Result<(), Memory>
    ensures written { OnOk result (out.new.items ≡ out.old.items ++ little_bytes 4 (main_number main)) }
{
    match main {
        Some(number) => put_u32(out, number),
        None => put_u32(out, 0),
    }
}

fn put_codes(out: &mut Vec<u8>, codes: &[Code]) -> Result<(), Memory>
    ensures written { OnOk result (out.new.items ≡ out.old.items ++ codes_bytes (map listing_of codes.now)) }
{
    put_count_u32(out, codes.len())?;
    put_all(codes, FileKind::Image, out)
}
