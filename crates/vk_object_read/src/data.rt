// An object of file scope, field by field.

ghost use Rattle.std.specs.Prelude.{◌≡◌, ◌<◌, ◌+◌, ℕ, List, cond, length, nat_lt};
ghost use Rattle.std.specs.Option.{option_map};
ghost use Rattle.vk_format.specs.Format.{Format};
ghost use Rattle.vk_format.specs.Codec.{read_after};
ghost use Rattle.vk_code_format.specs.Fields.{comes_after, element, last_of};
ghost use Rattle.vk_code_read.specs.Inner.Left.{Stepped};
ghost use Rattle.vk_object.specs.Texts.{ends_well};
ghost use Rattle.vk_object_format.specs.declared.rows.RawData.{RawData};
ghost use Rattle.vk_object_format.specs.Object.{member};
ghost use Rattle.vk_object_read.specs.Inner.LeftData.{Settles, after_elements, data_left, data_width};

use std::alloc::Global;
use vk_code_read::fields::int_type_of;
use vk_code_read::front::refused;
use vk_format::fields::{u8_of, u32_of};
use vk_format::{Items, ObjectFail, ObjectRule};
use vk_object_fields::fields::{bytes_of, element_of, flags_of};
use vk_object_format::RawData;
use vk_types::{Ty, Word};

/// Which field comes next. Counts of what is left are without the item that the field belongs to.
#[derive(Clone, Copy)]
pub enum DataStage {
    Symbol,
    TypeOf,
    Flags,
    Length,
    Given,
    Element(u32),
    Done,
}

/// An object of file scope of which some fields have come.
#[derive(Drop)]
pub struct DataFeed {
    pub(crate) alloc: Global,
    /// How many symbols there are, and the symbol of the last object.
    pub symbols: usize,
    pub last: Option<u32>,
    pub stage: DataStage,
    /// Where it begins.
    pub start: u64,
    /// The object so far.
    pub data: RawData,
}

/// Whether a number is above the last one.
pub(crate) fn comes_after(last: Option<u32>, number: u32) -> bool
    ensures { result ≡ comes_after nat_lt last number }
{
    match last {
        Some(last) => last < number,
        None => true,
    }
}

/// Whether the last of given elements, where there is one, is not 0.
pub fn ends_well(elements: &[Word]) -> bool
    ensures { result ≡ ends_well elements.now }
{
    match elements {
        [] => true,
        [.., last] => last.0 != 0,
    }
}

impl DataFeed {
    /// An object of which nothing has come, among so many symbols, behind one with the last symbol.
    pub fn new<R>(alloc: Global, symbols: usize, last: Option<u32>) -> DataFeed
        ensures { (before : List RawData) (at : ℕ) (next : RawData → ℕ → Format R) → last ≡ option_map (λ d. d.symbol) (last_of before)
            → data_left result at next ≡ (member symbols before).read at next }
    {
        DataFeed {
            alloc,
            symbols,
            last,
            stage: DataStage::Symbol,
            start: 0,
            data: RawData {
                symbol: 0,
                ty: Ty::I32,
                fixed: false,
                defined: false,
                length: 0,
                elements: Items::new(alloc),
            },
        }
    }

    /// How many bytes the next field has.
    pub fn width(&self) -> usize
        ensures { result ≡ data_width self.now }
    {
        match self.stage {
            DataStage::Symbol => 4,
            DataStage::TypeOf => 1,
            DataStage::Flags => 1,
            DataStage::Length => 4,
            DataStage::Given => 4,
            DataStage::Element(_) => bytes_of(self.data.ty),
            DataStage::Done => 0,
        }
    }

    // So many elements are left.
    fn elements<R>(&mut self, left: u32) -> Result<(), ObjectFail>
        ensures { (at : ℕ) (next : RawData → ℕ → Format R) → Settles result
            (read_after (λ before. element self.old.data.ty) left self.old.data.elements at (after_elements self.old.start self.old.data next))
            (data_left self.new at next) }
    {
        if left != 0 {
            self.stage = DataStage::Element(left - 1);
            return Ok(());
        }
        if !ends_well(self.data.elements.as_slice()) {
            return Err(refused(self.start, ObjectRule::O6));
        }
        self.stage = DataStage::Done;
        Ok(())
    }

    /// Takes the next field, which stands at this place.
    pub fn step<R>(&mut self, at: u64, field: &[u8]) -> Result<(), ObjectFail>
        requires width { length field.now ≡ data_width self.old }
        requires wanted { 0 < data_width self.old }
        ensures { (next : RawData → ℕ → Format R) → Stepped (data_left self.old at next) field.now result (data_left self.new (at + data_width self.old) next) }
    {
        match self.stage {
            DataStage::Symbol => {
                let symbol = u32_of(field);
                if self.symbols <= symbol as usize {
                    return Err(refused(at, ObjectRule::O8));
                }
                if !comes_after(self.last, symbol) {
                    return Err(refused(at, ObjectRule::O6));
                }
                self.start = at;
                self.data.symbol = symbol;
                self.stage = DataStage::TypeOf;
            }
            DataStage::TypeOf => match int_type_of(u8_of(field)) {
                None => return Err(refused(at, ObjectRule::O7)),
                Some(ty) => {
                    self.data.ty = ty;
                    self.stage = DataStage::Flags;
                }
            },
            DataStage::Flags => match flags_of(u8_of(field)) {
                None => return Err(refused(at, ObjectRule::O7)),
                Some(flags) => {
                    self.data.fixed = flags.0;
                    self.data.defined = flags.1;
                    self.stage = DataStage::Length;
                }
            },
            DataStage::Length => {
                self.data.length = u32_of(field);
                self.stage = DataStage::Given;
            }
            DataStage::Given => {
                let given = u32_of(field);
                if self.room() < given {
                    return Err(refused(at, ObjectRule::O7));
                }
                self.data.elements = Items::new(self.alloc);
                match self.elements::<R>(given) {
                    Err(fail) => return Err(fail),
                    Ok(()) => {}
                }
            }
            DataStage::Element(left) => {
                let element = element_of(self.data.ty, field);
                self.data.elements.push(element)?;
                match self.elements::<R>(left) {
                    Err(fail) => return Err(fail),
                    Ok(()) => {}
                }
            }
            DataStage::Done => {}
        }
        Ok(())
    }

    // How many elements may be given.
    fn room(&self) -> u32
        ensures { result ≡ cond self.now.data.defined self.now.data.length 0 }
    {
        if self.data.defined {
            self.data.length
        } else {
            0
        }
    }
}
