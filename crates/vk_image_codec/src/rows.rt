// The fields of an image as those of any table, and what is judged once the last one is complete.

ghost use Rattle.std.specs.Prelude.{◌≡◌, ◌<◌, ◌+◌, ◌^◌, Bool, true, length, IfOk};
ghost use Rattle.vk_code_read.specs.Inner.Left.{Stepped};
ghost use Rattle.vk_image_read.specs.Stages.{is_done};
ghost use Rattle.vk_image_faults.specs.Ends.{faults_at};
ghost use Rattle.vk_image_codec.specs.Rows.{is_judged, rows_format, rows_left, rows_width};

use std::alloc::Global;
use vk_format::{ObjectFail, ObjectFault};
use vk_image_faults::image_faults;
use vk_image_format::RawImage;
use vk_image_read::ImageFields;
use vk_image_read::image::ImageStage;
use vk_memory::Memory;
use vk_pieces::Fields;

/// An image of which some fields have come.
#[derive(Drop)]
pub struct ImageRows {
    pub(crate) alloc: Global,
    pub fields: ImageFields,
    /// Whether all have come, and no condition over the tables is broken.
    pub whole: bool,
    pub ghost judged: { whole ≡ true → is_judged fields ≡ true },
}

fn is_done(stage: ImageStage) -> bool
    ensures { result ≡ is_done stage }
{
    match stage {
        ImageStage::Done => true,
        ImageStage::Magic | ImageStage::Version | ImageStage::TargetOf => false,
        ImageStage::Letter | ImageStage::Vl | ImageStage::Main => false,
        ImageStage::ArrayCount | ImageStage::Array(_) => false,
        ImageStage::CodeCount | ImageStage::Code(_) => false,
        ImageStage::EntryCount | ImageStage::Entry(_) => false,
    }
}

// Fields of which none has come.
fn no_fields(alloc: Global) -> ImageFields
    ensures start { rows_left result 0 ≡ rows_format }
{
    ImageFields::new::<RawImage>(alloc)
}

// How many bytes the next field has, 0 where none is wanted.
#[tactic(auto, unfolding(crate::specs::Rows::rows_width))]
fn next_width(fields: &ImageFields) -> usize
    ensures { result ≡ rows_width fields.now }
{
    fields.width()
}

// The first condition over the tables that is broken, where the last field ends at this place.
fn broken(alloc: Global, tables: &RawImage, end: u64) -> Result<Option<ObjectFault>, Memory>
    ensures { IfOk result (λ fault. fault ≡ faults_at tables.now end) }
{
    image_faults(alloc, tables, end)
}

// Takes the next field, without what is judged after the last one.
fn take_next(fields: &mut ImageFields, at: u64, field: &[u8]) -> Result<(), ObjectFail>
    requires width { length field.now ≡ rows_width fields.old }
    requires wanted { 0 < rows_width fields.old }
    requires place { at + rows_width fields.old < 2 ^ 64 }
    ensures { Stepped (rows_left fields.old at) field.now result (rows_left fields.new (at + rows_width fields.old)) }
{
    fields.step::<RawImage>(at, field)
}

// Takes the next field, and says whether none is left. The tables are judged when the last one is complete.
fn take(alloc: Global, fields: &mut ImageFields, at: u64, field: &[u8]) -> Result<bool, ObjectFail>
    requires width { length field.now ≡ rows_width fields.old }
    requires wanted { 0 < rows_width fields.old }
    requires place { at + rows_width fields.old < 2 ^ 64 }
    ensures step { Stepped (rows_left fields.old at) field.now result (rows_left fields.new (at + rows_width fields.old)) }
    ensures judged { IfOk result (λ whole. whole ≡ true → is_judged fields.new ≡ true) }
{
    match take_next(fields, at, field) {
        Err(e) => return Err(e),
        Ok(()) => {}
    }
    if !is_done(fields.stage) {
        return Ok(false);
    }
    match broken(alloc, &fields.image, at + field.len() as u64) {
        Ok(None) => Ok(true),
        Ok(Some(fault)) => Err(ObjectFail::Fault(fault)),
        Err(_) => Err(ObjectFail::Memory),
    }
}

impl ImageRows {
    /// An image of which nothing has come.
    pub fn new(alloc: Global) -> ImageRows
        ensures start { rows_left result.fields 0 ≡ rows_format }
    {
        ImageRows {
            alloc,
            fields: no_fields(alloc),
            whole: false,
        }
    }
}

impl Fields for ImageRows {
    ghost use Rattle.vk_image_codec.specs.Rows.{rows_left, rows_width};
    ghost use Rattle.vk_image_codec.specs.Inner.Wanted.{field_wanted, none_wanted, rows_whole};

    type Rows = RawImage;

    ghost left = { λ s at. rows_left s.fields at };

    ghost width = { λ s. rows_width s.fields };

    ghost is_whole = { λ s. s.whole };

    ghost rows = { λ s. s.fields.image };

    ghost field = { λ s at h. field_wanted s.fields at h };

    ghost nothing = { λ s h. none_wanted s.fields (s.judged h) };

    ghost whole = { λ s at h. rows_whole s.fields at (s.judged h) };

    fn width(&self) -> usize {
        next_width(&self.fields)
    }

    fn is_whole(&self) -> bool {
        self.whole
    }

    fn step(&mut self, at: u64, field: &[u8]) -> Result<(), ObjectFail> {
        self.whole = false;
        match take(self.alloc, &mut self.fields, at, field) {
            Err(e) => Err(e),
            Ok(whole) => {
                self.whole = whole;
                Ok(())
            }
        }
    }
}
