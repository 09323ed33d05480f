// The fields of an object as those of any table, and what is judged once the last one is complete.

ghost use Rattle.std.specs.Prelude.{◌≡◌, ◌<◌, ◌+◌, ◌^◌, Bool, true, length, IfOk};
ghost use Rattle.vk_code_read.specs.Inner.Left.{Stepped};
ghost use Rattle.vk_object_codec.specs.Rows.{faults_of, is_done, is_judged, rows_format, rows_left, rows_width};

use std::alloc::Global;
use vk_format::{ObjectFail, ObjectFault};
use vk_memory::Memory;
use vk_object_faults::object_faults;
use vk_object_format::RawObject;
use vk_object_read::ObjectFields;
use vk_object_read::object::ObjectStage;
use vk_pieces::Fields;

/// An object of which some fields have come.
#[derive(Drop)]
pub struct ObjectRows {
    pub(crate) alloc: Global,
    pub fields: ObjectFields,
    /// Whether all have come, and no condition over the tables is broken.
    pub whole: bool,
    pub ghost judged: { whole ≡ true → is_judged fields ≡ true },
}

fn is_done(stage: ObjectStage) -> bool
    ensures { result ≡ is_done stage }
{
    match stage {
        ObjectStage::Done => true,
        ObjectStage::Magic | ObjectStage::Version | ObjectStage::TargetOf => false,
        ObjectStage::Zero => false,
        ObjectStage::SymbolCount | ObjectStage::SymbolLength(_) => false,
        ObjectStage::SymbolText(_, _) => false,
        ObjectStage::DataCount | ObjectStage::Data(_) => false,
        ObjectStage::FunctionCount | ObjectStage::Function(_) => false,
    }
}

// Fields of which none has come.
fn no_fields(alloc: Global) -> ObjectFields
    ensures start { rows_left result 0 ≡ rows_format }
{
    ObjectFields::new::<RawObject>(alloc)
}

// How many bytes the next field has, 0 where none is wanted.
#[tactic(auto, unfolding(crate::specs::Rows::rows_width))]
fn next_width(fields: &ObjectFields) -> usize
    ensures { result ≡ rows_width fields.now }
{
    fields.width()
}

// The first condition over the tables that is broken.
#[tactic(auto, unfolding(crate::specs::Rows::faults_of))]
fn broken(alloc: Global, tables: &RawObject) -> Result<Option<ObjectFault>, Memory>
    ensures { IfOk result (λ fault. fault ≡ faults_of tables.now) }
{
    object_faults(alloc, tables)
}

// Takes the next field, without what is judged after the last one.
fn take_next(fields: &mut ObjectFields, at: u64, field: &[u8]) -> Result<(), ObjectFail>
    requires width { length field.now ≡ rows_width fields.old }
    requires wanted { 0 < rows_width fields.old }
    requires place { at + rows_width fields.old < 2 ^ 64 }
    ensures { Stepped (rows_left fields.old at) field.now result (rows_left fields.new (at + rows_width fields.old)) }
{
    fields.step::<RawObject>(at, field)
}

// Takes the next field, and says whether none is left. The tables are judged when the last one is complete.
fn take(alloc: Global, fields: &mut ObjectFields, at: u64, field: &[u8]) -> Result<bool, ObjectFail>
    requires width { length field.now ≡ rows_width fields.old }
    requires wanted { 0 < rows_width fields.old }
    requires place { at + rows_width fields.old < 2 ^ 64 }
    ensures step { Stepped (rows_left fields.old at) field.now result (rows_left fields.new (at + rows_width fields.old)) }
    ensures done { IfOk result (λ whole. whole ≡ is_done fields.new.stage) }
    ensures judged { IfOk result (λ whole. whole ≡ true → is_judged fields.new ≡ true) }
{
    match take_next(fields, at, field) {
        Err(e) => return Err(e),
        Ok(()) => {}
    }
    if !is_done(fields.stage) {
        return Ok(false);
    }
    match broken(alloc, &fields.object) {
        Ok(None) => Ok(true),
        Ok(Some(fault)) => Err(ObjectFail::Fault(fault)),
        Err(_) => Err(ObjectFail::Memory),
    }
}

impl ObjectRows {
    /// An object of which nothing has come.
    pub fn new(alloc: Global) -> ObjectRows
        ensures start { rows_left result.fields 0 ≡ rows_format }
    {
        ObjectRows {
            alloc,
            fields: no_fields(alloc),
            whole: false,
        }
    }
}

impl Fields for ObjectRows {
    ghost use Rattle.vk_object_codec.specs.Rows.{rows_left, rows_width};
    ghost use Rattle.vk_object_codec.specs.Inner.Wanted.{field_wanted, none_wanted, rows_whole};

    type Rows = RawObject;

    ghost left = { λ s at. rows_left s.fields at };

    ghost width = { λ s. rows_width s.fields };

    ghost is_whole = { λ s. s.whole };

    ghost rows = { λ s. s.fields.object };

    ghost field = { λ s at h. field_wanted s.fields at h };

    ghost nothing = { λ s h. none_wanted s.fields (s.judged h) };

    ghost whole = { λ s at h. rows_whole s.fields at (s.judged h) };

    fn width(&self) -> usize {
        next_width(&self.fields)
    }

    fn is_whole(&self) -> bool {
        self.whole
    }

    fn step(&mut self, at: u64, field: &[u8]) -> Result<(), ObjectFail> {
        self.whole = false;
        match take(self.alloc, &mut self.fields, at, field) {
            Err(e) => Err(e),
            Ok(whole) => {
                self.whole = whole;
                Ok(())
            }
        }
    }
}
