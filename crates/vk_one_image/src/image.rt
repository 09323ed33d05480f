// The image of one entry.

ghost use Rattle.std.specs.Prelude.{◌≡◌, ◌+◌, ◌≤◌, ◌∷◌, [], length, IfOk};
ghost use Rattle.vk_code.specs.Listing.{listing_of};
ghost use Rattle.vk_object.specs.Tables.{entry_list_of};
ghost use Rattle.vk_flat_functions.specs.Returns.{IsLaneCode};
ghost use Rattle.vk_steps.specs.Places.{image_tables};
ghost use Rattle.vk_one_image.specs.Tables.{entry_of, tables_of};

use crate::params::{kind_of, params_of};
use std::alloc::{AllocError, Global};
use vk_code::Code;
use vk_kinds::{Isa, Target};
use vk_object::{Entry, Image};

/// An image that has the code alone, as entry 0 in so many lanes: scalar code in one, a variant under a mask in more. It has no
/// arrays and no program.
///
/// Each lane of a call from outside has its own words, so the parameters of a variant are of no other kind; what target and letter
/// the image has plays no part in a call.
pub fn one_image(alloc: Global, code: Code, lanes: u16) -> Result<Image, AllocError>
    requires code { IsLaneCode (listing_of code) }
    requires params { (listing_of code).routine.params ≤ 64 }
    requires registers { length (listing_of code).routine.regs + (listing_of code).routine.masks ≤ 8192 }
    requires instrs { length (listing_of code).routine.instrs ≤ 4294967295 }
    requires least { 1 ≤ lanes }
    requires most { lanes ≤ 256 }
    ensures { IfOk result (λ image. image_tables image ≡ tables_of lanes (listing_of code)) }
{
    let entry = entry_of(alloc, lanes, code.params)?;
    let mut entries = Vec::new(alloc);
    entries.push(entry)?;
    let mut codes = Vec::new(alloc);
    codes.push(code)?;
    Ok(Image {
        target: Target::X86,
        isa: Isa::B,
        vl: 0,
        main: None,
        arrays: Vec::new(alloc),
        codes,
        entries,
    })
}

// The entry.
fn entry_of(alloc: Global, lanes: u16, params: u16) -> Result<Entry, AllocError>
    requires { params ≤ 64 }
    ensures { IfOk result (λ entry. entry_list_of entry ≡ entry_of lanes params) }
{
    Ok(Entry {
        text: Vec::from_slice(alloc, b"f")?,
        kind: kind_of(lanes),
        lanes,
        code: 0,
        params: params_of(lanes, params),
        targets: Vec::new(alloc),
        loops: Vec::new(alloc),
    })
}
