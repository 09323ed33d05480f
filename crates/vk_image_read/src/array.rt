// An array, field by field.

ghost use Rattle.std.specs.Prelude.{◌≡◌, ◌<◌, ◌+◌, ℕ, List, length};
ghost use Rattle.vk_format.specs.Format.{Format};
ghost use Rattle.vk_format.specs.Codec.{read_after};
ghost use Rattle.vk_object.specs.Texts.{ends_well};
ghost use Rattle.vk_code_format.specs.Fields.{element};
ghost use Rattle.vk_code_read.specs.Inner.Left.{Stepped};
ghost use Rattle.vk_image_format.specs.declared.rows.RawArray.{RawArray};
ghost use Rattle.vk_image_format.specs.Image.{array};
ghost use Rattle.vk_image_read.specs.Inner.LeftArray.{after_elements, after_text, array_left, array_width};
ghost use Rattle.vk_image_read.specs.Inner.Settled.{Settles};

use std::alloc::Global;
use vk_code_read::fields::{flag_of, int_type_of};
use vk_code_read::front::refused;
use vk_format::fields::{u8_of, u16_of, u32_of};
use vk_format::{Items, ObjectFail, ObjectRule};
use vk_image_fields::order::follows_arrays;
use vk_image_format::RawArray;
use vk_object::texts::is_identifier;
use vk_object_fields::fields::{bytes_of, element_of};
use vk_types::{Ty, Word};

/// Which field comes next. Counts of what is left are without the item that the field belongs to.
#[derive(Clone, Copy)]
pub enum ArrayStage {
    TextLength,
    Text(u16),
    TypeOf,
    Fixed,
    Length,
    Given,
    Element(u32),
    Done,
}

/// An array of which some fields have come.
#[derive(Drop)]
pub struct ArrayFeed {
    pub(crate) alloc: Global,
    pub stage: ArrayStage,
    /// Where it begins.
    pub start: u64,
    /// The array so far.
    pub array: RawArray,
}

// Whether the last of given elements, where there is one, is not 0.
fn ends_well(elements: &[Word]) -> bool
    ensures { result ≡ ends_well elements.now }
{
    match elements {
        [] => true,
        [.., last] => last.0 != 0,
    }
}

impl ArrayFeed {
    /// An array of which nothing has come.
    pub fn new<R>(alloc: Global) -> ArrayFeed
        ensures { (before : List RawArray) (at : ℕ) (next : RawArray → ℕ → Format R) → array_left before result at next ≡ (array before).read at next }
    {
        ArrayFeed {
            alloc,
            stage: ArrayStage::TextLength,
            start: 0,
            array: RawArray {
                text: Items::new(alloc),
                ty: Ty::I32,
                fixed: false,
                length: 0,
                elements: Items::new(alloc),
            },
        }
    }

    /// How many bytes the next field has.
    pub fn width(&self) -> usize
        ensures { result ≡ array_width self.now }
    {
        match self.stage {
            ArrayStage::TextLength => 2,
            ArrayStage::Text(len) => usize::from(len),
            ArrayStage::TypeOf => 1,
            ArrayStage::Fixed => 1,
            ArrayStage::Length => 4,
            ArrayStage::Given => 4,
            ArrayStage::Element(_) => bytes_of(self.array.ty),
            ArrayStage::Done => 0,
        }
    }

    // So many elements are left.
    fn elements<R>(&mut self, left: u32) -> Result<(), ObjectFail>
        ensures { (before : List RawArray) (at : ℕ) (next : RawArray → ℕ → Format R) → Settles result
            (read_after (λ b. element self.old.array.ty) left self.old.array.elements at (after_elements self.old.start self.old.array next))
            (array_left before self.new at next) }
    {
        if left != 0 {
            self.stage = ArrayStage::Element(left - 1);
            return Ok(());
        }
        if !ends_well(self.array.elements.as_slice()) {
            return Err(refused(self.start, ObjectRule::O6));
        }
        self.stage = ArrayStage::Done;
        Ok(())
    }

    // The text, behind others.
    fn text<R>(&mut self, text: &[u8], before: &[RawArray]) -> Result<(), ObjectFail>
        ensures { (end : ℕ) (next : RawArray → ℕ → Format R) → Settles result
            (after_text before.now self.old.start self.old.array next text.now end) (array_left before.now self.new end next) }
    {
        if !is_identifier(text) {
            return Err(refused(self.start, ObjectRule::O7));
        }
        if !follows_arrays(before, text) {
            return Err(refused(self.start, ObjectRule::O6));
        }
        self.array.text = Items::from_slice(self.alloc, text)?;
        self.stage = ArrayStage::TypeOf;
        Ok(())
    }

    /// Takes the next field, which stands at this place, of an array behind others.
    pub fn step<R>(&mut self, at: u64, field: &[u8], before: &[RawArray]) -> Result<(), ObjectFail>
        requires width { length field.now ≡ array_width self.old }
        requires wanted { 0 < array_width self.old }
        ensures { (next : RawArray → ℕ → Format R) → Stepped (array_left before.now self.old at next) field.now result
            (array_left before.now self.new (at + array_width self.old) next) }
    {
        match self.stage {
            ArrayStage::TextLength => {
                let len = u16_of(field);
                if len == 0 {
                    // The empty text, which is whole now.
                    return Err(refused(at, ObjectRule::O7));
                }
                self.start = at;
                self.stage = ArrayStage::Text(len);
            }
            ArrayStage::Text(_) => match self.text::<R>(field, before) {
                Err(fail) => return Err(fail),
                Ok(()) => {}
            },
            ArrayStage::TypeOf => match int_type_of(u8_of(field)) {
                None => return Err(refused(at, ObjectRule::O7)),
                Some(ty) => {
                    self.array.ty = ty;
                    self.stage = ArrayStage::Fixed;
                }
            },
            ArrayStage::Fixed => match flag_of(u8_of(field)) {
                None => return Err(refused(at, ObjectRule::O7)),
                Some(fixed) => {
                    self.array.fixed = fixed;
                    self.stage = ArrayStage::Length;
                }
            },
            ArrayStage::Length => {
                self.array.length = u32_of(field);
                self.stage = ArrayStage::Given;
            }
            ArrayStage::Given => {
                let given = u32_of(field);
                if self.array.length < given {
                    return Err(refused(at, ObjectRule::O7));
                }
                self.array.elements = Items::new(self.alloc);
                match self.elements::<R>(given) {
                    Err(fail) => return Err(fail),
                    Ok(()) => {}
                }
            }
            ArrayStage::Element(left) => {
                let element = element_of(self.array.ty, field);
                self.array.elements.push(element)?;
                match self.elements::<R>(left) {
                    Err(fail) => return Err(fail),
                    Ok(()) => {}
                }
            }
            ArrayStage::Done => {}
        }
        Ok(())
    }
}
