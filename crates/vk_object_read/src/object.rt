// An object, field by field.

ghost use Rattle.std.specs.Prelude.{◌≡◌, ◌<◌, ◌+◌, ◌^◌, ℕ, List, length, IfSome};
ghost use Rattle.std.specs.Option.{option_map};
ghost use Rattle.vk_object.specs.Texts.{is_before};
ghost use Rattle.vk_format.specs.Format.{Format};
ghost use Rattle.vk_format.specs.Codec.{mismatch_from, read_after};
ghost use Rattle.vk_code_format.specs.Fields.{comes_after, last_of};
ghost use Rattle.vk_code_read.specs.Inner.Left.{Stepped};
ghost use Rattle.vk_object_format.specs.declared.rows.RawObject.{RawObject};
ghost use Rattle.vk_object_format.specs.Object.{function, member, object_table, symbol};
ghost use Rattle.vk_object_read.specs.declared.object.ObjectStage.TheVariants as ObjectStage;
ghost use Rattle.vk_object_read.specs.Inner.LeftData.{Settles, data_width};
ghost use Rattle.vk_object_read.specs.Inner.LeftFunction.{function_width};
ghost use Rattle.vk_object_read.specs.Inner.LeftObject.{after_functions, after_objects, after_symbols, after_text, object_left, object_width};

use crate::data::{DataFeed, DataStage};
use crate::function::{FunctionFeed, FunctionStage};
use std::alloc::Global;
use std::mem;
use vk_code_read::front::refused;
use vk_format::fields::{u8_of, u16_of, u32_of};
use vk_format::{Items, ObjectFail, ObjectRule};
use vk_kinds::Target;
use vk_object::texts::is_before;
use vk_object_fields::fields::{is_symbol, target_of};
use vk_object_format::{RawData, RawFunction, RawObject};

/// Which field comes next. Counts of what is left are without the item that the field belongs to.
#[derive(Clone, Copy)]
pub enum ObjectStage {
    Magic,
    Version,
    TargetOf,
    Zero,
    SymbolCount,
    SymbolLength(u32),
    SymbolText(u32, u16),
    DataCount,
    Data(u32),
    FunctionCount,
    Function(u32),
    Done,
}

/// An object of which some fields have come.
#[derive(Drop)]
pub struct ObjectFields {
    pub(crate) alloc: Global,
    pub stage: ObjectStage,
    /// The tables so far.
    pub object: RawObject,
    /// Where the symbol begins that comes.
    pub start: u64,
    /// How many functions there are.
    pub functions: u32,
    /// The object of file scope and the function that come.
    pub data: DataFeed,
    pub function: FunctionFeed,
}

const MAGIC: &[u8] = b"VKOBJECT";

// The first place from `i` on where the bytes are not those that are wanted.
fn mismatch(i: u8, wanted: &[u8], bytes: &[u8]) -> Option<u8>
    requires { i + length wanted.now < 256 }
    ensures value { result ≡ mismatch_from i wanted.now bytes.now }
    ensures range { IfSome result (λ k. k < i + length wanted.now) }
{
    match wanted {
        [] => None,
        [w, ws @ ..] => match bytes {
            [] => Some(i),
            [b, bs @ ..] => {
                if *w == *b {
                    mismatch(i + 1, ws, bs)
                } else {
                    Some(i)
                }
            }
        },
    }
}

// Whether the text is behind the last symbol.
fn follows(symbols: &[Items<u8>], text: &[u8]) -> bool
    ensures { result ≡ comes_after is_before (last_of symbols.now) text.now }
{
    match symbols {
        [] => true,
        [.., last] => is_before(last.as_slice(), text),
    }
}

// The symbol of the last object.
fn last_object(objects: &[RawData]) -> Option<u32>
    ensures { result ≡ option_map (λ d. d.symbol) (last_of objects.now) }
{
    match objects {
        [] => None,
        [.., last] => Some(last.symbol),
    }
}

// The symbol of the last function.
fn last_function(functions: &[RawFunction]) -> Option<u32>
    ensures { result ≡ option_map (λ f. f.symbol) (last_of functions.now) }
{
    match functions {
        [] => None,
        [.., last] => Some(last.symbol),
    }
}

impl ObjectFields {
    /// An object of which nothing has come.
    pub fn new<R>(alloc: Global) -> ObjectFields
        ensures { (at : ℕ) (next : RawObject → ℕ → Format R) → object_left result at next ≡ object_table.read at next }
    {
        ObjectFields {
            alloc,
            stage: ObjectStage::Magic,
            object: RawObject {
                target: Target::X86,
                symbols: Items::new(alloc),
                objects: Items::new(alloc),
                functions: Items::new(alloc),
            },
            start: 0,
            functions: 0,
            data: DataFeed::new::<R>(alloc, 0, None),
            function: FunctionFeed::new::<R>(alloc, Target::X86, 0, 0, None),
        }
    }

    /// How many bytes the next field has, 0 where none is wanted.
    pub fn width(&self) -> usize
        ensures { result ≡ object_width self.now }
    {
        match self.stage {
            ObjectStage::Magic => 8,
            ObjectStage::Version => 2,
            ObjectStage::TargetOf => 1,
            ObjectStage::Zero => 1,
            ObjectStage::SymbolCount => 4,
            ObjectStage::SymbolLength(_) => 2,
            ObjectStage::SymbolText(_, len) => len as usize,
            ObjectStage::DataCount => 4,
            ObjectStage::Data(_) => self.data.width(),
            ObjectStage::FunctionCount => 4,
            ObjectStage::Function(_) => self.function.width(),
            ObjectStage::Done => 0,
        }
    }

    // So many symbols are left.
    fn symbols<R>(&mut self, left: u32)
        ensures { (at : ℕ) (next : RawObject → ℕ → Format R) → object_left self.new at next ≡ read_after symbol left self.old.object.symbols at (after_symbols self.old.object next) }
    {
        self.stage = if left == 0 {
            ObjectStage::DataCount
        } else {
            ObjectStage::SymbolLength(left - 1)
        };
    }

    // So many objects are left.
    fn objects<R>(&mut self, left: u32)
        ensures { (at : ℕ) (next : RawObject → ℕ → Format R) → object_left self.new at next
            ≡ read_after (member (length self.old.object.symbols)) left self.old.object.objects at (after_objects self.old.object next) }
    {
        if left == 0 {
            self.stage = ObjectStage::FunctionCount;
            return;
        }
        let last = last_object(self.object.objects.as_slice());
        let symbols = self.object.symbols.len();
        self.data = DataFeed::new::<R>(self.alloc, symbols, last);
        self.stage = ObjectStage::Data(left - 1);
    }

    // So many functions are left.
    fn functions<R>(&mut self, left: u32)
        ensures { (at : ℕ) (next : RawObject → ℕ → Format R) → object_left self.new at next
            ≡ read_after (function self.old.object.target (length self.old.object.symbols) self.old.functions) left self.old.object.functions at (after_functions self.old.object next) }
    {
        if left == 0 {
            self.stage = ObjectStage::Done;
            return;
        }
        let last = last_function(self.object.functions.as_slice());
        let symbols = self.object.symbols.len();
        self.function = FunctionFeed::new::<R>(
            self.alloc,
            self.object.target,
            symbols,
            self.functions,
            last,
        );
        self.stage = ObjectStage::Function(left - 1);
    }

    // The text of a symbol, with so many after it.
    fn text<R>(&mut self, left: u32, text: &[u8]) -> Result<(), ObjectFail>
        ensures { (end : ℕ) (next : RawObject → ℕ → Format R) → Settles result (after_text self.old.object self.old.start left next text.now end) (object_left self.new end next) }
    {
        if !is_symbol(text) {
            return Err(refused(self.start, ObjectRule::O7));
        }
        if !follows(self.object.symbols.as_slice(), text) {
            return Err(refused(self.start, ObjectRule::O6));
        }
        let symbol = Items::from_slice(self.alloc, text)?;
        self.object.symbols.push(symbol)?;
        self.symbols::<R>(left);
        Ok(())
    }

    // The object of file scope goes on with a field, and so many come after it.
    fn data<R>(&mut self, left: u32, at: u64, field: &[u8]) -> Result<(), ObjectFail>
        requires stage { self.old.stage ≡ ObjectStage.Data left }
        requires width { length field.now ≡ data_width self.old.data }
        requires wanted { 0 < data_width self.old.data }
        ensures { (next : RawObject → ℕ → Format R) → Stepped (object_left self.old at next) field.now result (object_left self.new (at + data_width self.old.data) next) }
    {
        match self.data.step::<R>(at, field) {
            Err(fail) => return Err(fail),
            Ok(()) => {}
        }
        if let DataStage::Done = self.data.stage {
            let none = DataFeed::new::<R>(self.alloc, 0, None);
            let whole = mem::replace(&mut self.data, none);
            self.object.objects.push(whole.data)?;
            self.objects::<R>(left);
        }
        Ok(())
    }

    // The function goes on with a field, and so many come after it.
    fn function<R>(&mut self, left: u32, at: u64, field: &[u8]) -> Result<(), ObjectFail>
        requires stage { self.old.stage ≡ ObjectStage.Function left }
        requires width { length field.now ≡ function_width self.old.function }
        requires wanted { 0 < function_width self.old.function }
        ensures { (next : RawObject → ℕ → Format R) → Stepped (object_left self.old at next) field.now result (object_left self.new (at + function_width self.old.function) next) }
    {
        match self.function.step::<R>(at, field) {
            Err(fail) => return Err(fail),
            Ok(()) => {}
        }
        if let FunctionStage::Done = self.function.stage {
            let none = FunctionFeed::new::<R>(self.alloc, Target::X86, 0, 0, None);
            let whole = mem::replace(&mut self.function, none);
            self.object.functions.push(whole.function)?;
            self.functions::<R>(left);
        }
        Ok(())
    }

    /// Takes the next field, which stands at this place.
    pub fn step<R>(&mut self, at: u64, field: &[u8]) -> Result<(), ObjectFail>
        requires width { length field.now ≡ object_width self.old }
        requires wanted { 0 < object_width self.old }
        requires place { at + object_width self.old < 2 ^ 64 }
        ensures { (next : RawObject → ℕ → Format R) → Stepped (object_left self.old at next) field.now result (object_left self.new (at + object_width self.old) next) }
    {
        match self.stage {
            ObjectStage::Magic => match mismatch(0, MAGIC, field) {
                Some(i) => return Err(refused(at + u64::from(i), ObjectRule::O1)),
                None => self.stage = ObjectStage::Version,
            },
            ObjectStage::Version => {
                if u16_of(field) != 1 {
                    return Err(refused(at, ObjectRule::O2));
                }
                self.stage = ObjectStage::TargetOf;
            }
            ObjectStage::TargetOf => match target_of(u8_of(field)) {
                None => return Err(refused(at, ObjectRule::O3)),
                Some(target) => {
                    self.object.target = target;
                    self.stage = ObjectStage::Zero;
                }
            },
            ObjectStage::Zero => {
                if u8_of(field) != 0 {
                    return Err(refused(at, ObjectRule::O7));
                }
                self.stage = ObjectStage::SymbolCount;
            }
            ObjectStage::SymbolCount => {
                self.object.symbols = Items::new(self.alloc);
                self.symbols::<R>(u32_of(field));
            }
            ObjectStage::SymbolLength(left) => {
                let len = u16_of(field);
                if len == 0 {
                    // The empty text, which is whole now.
                    return Err(refused(at, ObjectRule::O7));
                }
                self.start = at;
                self.stage = ObjectStage::SymbolText(left, len);
            }
            ObjectStage::SymbolText(left, _) => match self.text::<R>(left, field) {
                Err(fail) => return Err(fail),
                Ok(()) => {}
            },
            ObjectStage::DataCount => {
                self.object.objects = Items::new(self.alloc);
                self.objects::<R>(u32_of(field));
            }
            ObjectStage::Data(left) => match self.data::<R>(left, at, field) {
                Err(fail) => return Err(fail),
                Ok(()) => {}
            },
            ObjectStage::FunctionCount => {
                let count = u32_of(field);
                self.functions = count;
                self.object.functions = Items::new(self.alloc);
                self.functions::<R>(count);
            }
            ObjectStage::Function(left) => match self.function::<R>(left, at, field) {
                Err(fail) => return Err(fail),
                Ok(()) => {}
            },
            ObjectStage::Done => {}
        }
        Ok(())
    }
}
