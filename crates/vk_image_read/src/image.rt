// An image, field by field.

ghost use Rattle.std.specs.Prelude.{◌≡◌, ◌<◌, ◌+◌, ◌^◌, ℕ, length, IfSome};
ghost use Rattle.vk_format.specs.Format.{Format};
ghost use Rattle.vk_format.specs.Codec.{mismatch_from, read_after};
ghost use Rattle.vk_code_format.specs.declared.rows.CodeRow.{CodeRow};
ghost use Rattle.vk_code_format.specs.Codes.{code, in_image};
ghost use Rattle.vk_code_read.specs.Inner.Left.{Stepped};
ghost use Rattle.vk_code_read.specs.Inner.LeftCode.{code_left, code_row, code_width};
ghost use Rattle.vk_image_format.specs.declared.rows.RawImage.{RawImage};
ghost use Rattle.vk_image_format.specs.Image.{array, entry, image_table};
ghost use Rattle.vk_image_read.specs.declared.image.ImageStage.TheVariants as ImageStage;
ghost use Rattle.vk_image_read.specs.Inner.LeftArray.{array_width};
ghost use Rattle.vk_image_read.specs.Inner.LeftEntry.{entry_width};
ghost use Rattle.vk_image_read.specs.Inner.LeftImage.{after_arrays, after_codes, after_entries, image_left, image_width};

use crate::array::{ArrayFeed, ArrayStage};
use crate::entry::{EntryFeed, EntryStage};
use std::alloc::Global;
use std::mem;
use vk_code_format::{CodeRow, RoutineRow};
use vk_code_read::code::CodeStage;
use vk_code_read::front::refused;
use vk_code_read::{CodeFeed, CodePlace};
use vk_format::fields::{u8_of, u16_of, u32_of};
use vk_format::{Items, ObjectFail, ObjectRule};
use vk_image_fields::fields::{is_letter, is_vl, isa_of};
use vk_image_format::RawImage;
use vk_kinds::{Isa, Target};
use vk_object_fields::fields::target_of;

/// Which field comes next. Counts of what is left are without the item that the field belongs to.
#[derive(Clone, Copy)]
pub enum ImageStage {
    Magic,
    Version,
    TargetOf,
    Letter,
    Vl,
    Main,
    ArrayCount,
    Array(u32),
    CodeCount,
    Code(u32),
    EntryCount,
    Entry(u32),
    Done,
}

/// An image of which some fields have come.
#[derive(Drop)]
pub struct ImageFields {
    pub(crate) alloc: Global,
    pub stage: ImageStage,
    /// The tables so far.
    pub image: RawImage,
    /// How many codes there are, and later how many entries.
    pub count: u32,
    /// The array, the code and the entry that come.
    pub array: ArrayFeed,
    pub code: CodeFeed,
    pub entry: EntryFeed,
}

const MAGIC: &[u8] = b"VKLINKED";

// The first place from `i` on where the bytes are not those that are wanted.
fn mismatch(i: u8, wanted: &[u8], bytes: &[u8]) -> Option<u8>
    requires { i + length wanted.now < 256 }
    ensures value { result ≡ mismatch_from i wanted.now bytes.now }
    ensures range { IfSome result (λ k. k < i + length wanted.now) }
{
    match wanted {
        [] => None,
        [w, ws @ ..] => match bytes {
            [] => Some(i),
            [b, bs @ ..] => {
                if *w == *b {
                    mismatch(i + 1, ws, bs)
                } else {
                    Some(i)
                }
            }
        },
    }
}

// Code of an image of so many codes, of which nothing has come.
fn no_code<R>(alloc: Global, codes: u32) -> CodeFeed
    ensures { (at : ℕ) (next : CodeRow → ℕ → Format R) → code_left result at next ≡ (code (in_image codes)).read at next }
{
    CodeFeed::new::<R>(alloc, CodePlace::Image { codes })
}

// The code that has come whole.
fn row_of(code: CodeFeed) -> CodeRow
    ensures { result ≡ code_row code.front.front code.loops code.instrs }
{
    let feed = code.front;
    let instrs = code.instrs;
    let loops = code.loops;
    let front = feed.front;
    CodeRow {
        routine: RoutineRow { front, instrs },
        loops,
    }
}

impl ImageFields {
    /// An image of which nothing has come.
    pub fn new<R>(alloc: Global) -> ImageFields
        ensures { (at : ℕ) (next : RawImage → ℕ → Format R) → image_left result at next ≡ image_table.read at next }
    {
        ImageFields {
            alloc,
            stage: ImageStage::Magic,
            image: RawImage {
                target: Target::X86,
                isa: Isa::B,
                vl: 0,
                main: 0,
                arrays: Items::new(alloc),
                codes: Items::new(alloc),
                entries: Items::new(alloc),
            },
            count: 0,
            array: ArrayFeed::new::<R>(alloc),
            code: no_code::<R>(alloc, 0),
            entry: EntryFeed::new::<R>(alloc),
        }
    }

    /// How many bytes the next field has, 0 where none is wanted.
    pub fn width(&self) -> usize
        ensures { result ≡ image_width self.now }
    {
        match self.stage {
            ImageStage::Magic => 8,
            ImageStage::Version => 2,
            ImageStage::TargetOf => 1,
            ImageStage::Letter => 1,
            ImageStage::Vl => 2,
            ImageStage::Main => 4,
            ImageStage::ArrayCount => 4,
            ImageStage::Array(_) => self.array.width(),
            ImageStage::CodeCount => 4,
            ImageStage::Code(_) => self.code.width(),
            ImageStage::EntryCount => 4,
            ImageStage::Entry(_) => self.entry.width(),
            ImageStage::Done => 0,
        }
    }

    // So many arrays are left.
    fn arrays<R>(&mut self, left: u32)
        ensures { (at : ℕ) (next : RawImage → ℕ → Format R) → image_left self.new at next ≡ read_after array left self.old.image.arrays at (after_arrays self.old.image next) }
    {
        if left == 0 {
            self.stage = ImageStage::CodeCount;
            return;
        }
        self.array = ArrayFeed::new::<R>(self.alloc);
        self.stage = ImageStage::Array(left - 1);
    }

    // So many codes are left.
    fn codes<R>(&mut self, left: u32)
        ensures { (at : ℕ) (next : RawImage → ℕ → Format R) → image_left self.new at next
            ≡ read_after (λ before. code (in_image self.old.count)) left self.old.image.codes at (after_codes self.old.image next) }
    {
        if left == 0 {
            self.stage = ImageStage::EntryCount;
            return;
        }
        self.code = no_code::<R>(self.alloc, self.count);
        self.stage = ImageStage::Code(left - 1);
    }

    // So many entries are left.
    fn entries<R>(&mut self, left: u32)
        ensures { (at : ℕ) (next : RawImage → ℕ → Format R) → image_left self.new at next
            ≡ read_after (entry self.old.image.codes self.old.count) left self.old.image.entries at (after_entries self.old.image next) }
    {
        if left == 0 {
            self.stage = ImageStage::Done;
            return;
        }
        self.entry = EntryFeed::new::<R>(self.alloc);
        self.stage = ImageStage::Entry(left - 1);
    }

    // The array goes on with a field, and so many come after it.
    fn array<R>(&mut self, left: u32, at: u64, field: &[u8]) -> Result<(), ObjectFail>
        requires stage { self.old.stage ≡ ImageStage.Array left }
        requires width { length field.now ≡ array_width self.old.array }
        requires wanted { 0 < array_width self.old.array }
        ensures { (next : RawImage → ℕ → Format R) → Stepped (image_left self.old at next) field.now result (image_left self.new (at + array_width self.old.array) next) }
    {
        match self
            .array
            .step::<R>(at, field, self.image.arrays.as_slice())
        {
            Err(fail) => return Err(fail),
            Ok(()) => {}
        }
        if let ArrayStage::Done = self.array.stage {
            let none = ArrayFeed::new::<R>(self.alloc);
            let whole = mem::replace(&mut self.array, none);
            self.image.arrays.push(whole.array)?;
            self.arrays::<R>(left);
        }
        Ok(())
    }

    // The code goes on with a field, and so many come after it.
    fn code<R>(&mut self, left: u32, at: u64, field: &[u8]) -> Result<(), ObjectFail>
        requires stage { self.old.stage ≡ ImageStage.Code left }
        requires width { length field.now ≡ code_width self.old.code }
        requires wanted { 0 < code_width self.old.code }
        ensures { (next : RawImage → ℕ → Format R) → Stepped (image_left self.old at next) field.now result (image_left self.new (at + code_width self.old.code) next) }
    {
        match self.code.step::<R>(at, field) {
            Err(fail) => return Err(fail),
            Ok(()) => {}
        }
        if let CodeStage::Done = self.code.stage {
            let none = no_code::<R>(self.alloc, 0);
            let whole = mem::replace(&mut self.code, none);
            self.image.codes.push(row_of(whole))?;
            self.codes::<R>(left);
        }
        Ok(())
    }

    // The entry goes on with a field, and so many come after it.
    fn entry<R>(&mut self, left: u32, at: u64, field: &[u8]) -> Result<(), ObjectFail>
        requires stage { self.old.stage ≡ ImageStage.Entry left }
        requires width { length field.now ≡ entry_width self.old.entry }
        requires wanted { 0 < entry_width self.old.entry }
        ensures { (next : RawImage → ℕ → Format R) → Stepped (image_left self.old at next) field.now result (image_left self.new (at + entry_width self.old.entry) next) }
    {
        let codes = self.image.codes.as_slice();
        let before = self.image.entries.as_slice();
        match self.entry.step::<R>(at, field, codes, self.count, before) {
            Err(fail) => return Err(fail),
            Ok(()) => {}
        }
        if let EntryStage::Done = self.entry.stage {
            let none = EntryFeed::new::<R>(self.alloc);
            let whole = mem::replace(&mut self.entry, none);
            self.image.entries.push(whole.entry)?;
            self.entries::<R>(left);
        }
        Ok(())
    }

    /// Takes the next field, which stands at this place.
    pub fn step<R>(&mut self, at: u64, field: &[u8]) -> Result<(), ObjectFail>
        requires width { length field.now ≡ image_width self.old }
        requires wanted { 0 < image_width self.old }
        requires place { at + image_width self.old < 2 ^ 64 }
        ensures { (next : RawImage → ℕ → Format R) → Stepped (image_left self.old at next) field.now result (image_left self.new (at + image_width self.old) next) }
    {
        match self.stage {
            ImageStage::Magic => match mismatch(0, MAGIC, field) {
                Some(i) => return Err(refused(at + u64::from(i), ObjectRule::O1)),
                None => self.stage = ImageStage::Version,
            },
            ImageStage::Version => {
                if u16_of(field) != 1 {
                    return Err(refused(at, ObjectRule::O2));
                }
                self.stage = ImageStage::TargetOf;
            }
            ImageStage::TargetOf => match target_of(u8_of(field)) {
                None => return Err(refused(at, ObjectRule::O3)),
                Some(target) => {
                    self.image.target = target;
                    self.stage = ImageStage::Letter;
                }
            },
            ImageStage::Letter => match isa_of(u8_of(field)) {
                None => return Err(refused(at, ObjectRule::O3)),
                Some(isa) => {
                    if !is_letter(self.image.target, isa) {
                        return Err(refused(at, ObjectRule::O3));
                    }
                    self.image.isa = isa;
                    self.stage = ImageStage::Vl;
                }
            },
            ImageStage::Vl => {
                let vl = u16_of(field);
                if !is_vl(self.image.isa, vl) {
                    return Err(refused(at, ObjectRule::O3));
                }
                self.image.vl = vl;
                self.stage = ImageStage::Main;
            }
            ImageStage::Main => {
                self.image.main = u32_of(field);
                self.stage = ImageStage::ArrayCount;
            }
            ImageStage::ArrayCount => {
                self.image.arrays = Items::new(self.alloc);
                self.arrays::<R>(u32_of(field));
            }
            ImageStage::Array(left) => match self.array::<R>(left, at, field) {
                Err(fail) => return Err(fail),
                Ok(()) => {}
            },
            ImageStage::CodeCount => {
                let count = u32_of(field);
                self.count = count;
                self.image.codes = Items::new(self.alloc);
                self.codes::<R>(count);
            }
            ImageStage::Code(left) => match self.code::<R>(left, at, field) {
                Err(fail) => return Err(fail),
                Ok(()) => {}
            },
            ImageStage::EntryCount => {
                let count = u32_of(field);
                self.count = count;
                self.image.entries = Items::new(self.alloc);
                self.entries::<R>(count);
            }
            ImageStage::Entry(left) => match self.entry::<R>(left, at, field) {
                Err(fail) => return Err(fail),
                Ok(()) => {}
            },
            ImageStage::Done => {}
        }
        Ok(())
    }
}
