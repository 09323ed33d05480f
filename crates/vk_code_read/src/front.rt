// Code up to its calls, field by field.

ghost use Rattle.std.specs.Prelude.{◌≡◌, ◌<◌, ℕ, ◌+◌, ◌∷◌, [], ◌++◌, List, length, Ok};
ghost use Rattle.vk_format.specs.Format.{Format};
ghost use Rattle.vk_format.specs.Codec.{read_after};
ghost use Rattle.vk_code_format.specs.declared.rows.FrontRow.{FrontRow};
ghost use Rattle.vk_code_format.specs.Codes.{argument, slot};
ghost use Rattle.vk_code_format.specs.Fields.{value_type};
ghost use Rattle.vk_code_read.specs.Inner.Left.{IsWanted, Stepped, after_args, after_regs, after_slots, from_params, front_left, front_width, place_of, start_left};
ghost use Rattle.vk_code_read.specs.declared.front.FrontStage.TheVariants as FrontStage;

use crate::fields::{flag_of, has_value, register_of, shape_kind_of, value_type_of};
use std::alloc::Global;
use std::mem;
use vk_code_format::{ArgRow, FrontRow, ShapeKind, SlotRow};
use vk_format::fields::{u8_of, u16_of, u32_of};
use vk_format::{Items, ObjectFail, ObjectFault, ObjectRule};

/// Where code stands.
#[derive(Clone, Copy, PartialEq, Eq, Debug)]
pub enum CodePlace {
    /// In an object of so many functions, for a function of so many parameters.
    Object { functions: u32, params: usize },
    /// In an image of so many codes.
    Image { codes: u32 },
}

/// Which field comes next. Counts of what is left are without the item that the field belongs to.
#[derive(Clone, Copy)]
pub enum FrontStage {
    Lane,
    Result,
    Params,
    RegCount,
    Reg(u16),
    Masks,
    SlotCount,
    SlotStart(u16),
    ArgCount(u16),
    Always(u16, u8),
    SlotResult(u16, u8),
    ArgReg(u16, u8),
    ArgKind(u16, u8, u16),
    ArgValue(u16, u8, u16, ShapeKind),
    Done,
}

/// Code of which some fields have come, up to its calls.
#[derive(Drop)]
pub struct FrontFeed {
    pub(crate) alloc: Global,
    pub place: CodePlace,
    pub stage: FrontStage,
    /// The code so far.
    pub front: FrontRow,
    /// The call so far.
    pub slot: SlotRow,
}

/// The rule is broken at this place.
pub fn refused(at: u64, rule: ObjectRule) -> ObjectFail
    ensures { result ≡ ObjectFail.Fault (record { at = at; rule = rule }) }
{
    ObjectFail::Fault(ObjectFault { at, rule })
}

impl FrontFeed {
    ghost use Rattle.vk_format.specs.declared.rules.ObjectFail.TheVariants as ObjectFail;

    /// Code of which nothing has come.
    pub fn new(alloc: Global, place: CodePlace) -> FrontFeed
        ensures stage { result.stage ≡ FrontStage.Lane }
        ensures place { result.place ≡ place }
    {
        FrontFeed {
            alloc,
            place,
            stage: FrontStage::Lane,
            front: FrontRow {
                lane_code: false,
                result: None,
                params: 0,
                regs: Items::new(alloc),
                masks: 0,
                slots: Items::new(alloc),
            },
            slot: SlotRow {
                function: 0,
                always: false,
                result: None,
                args: Items::new(alloc),
            },
        }
    }

    /// How many bytes the next field has.
    pub fn width(&self) -> usize
        ensures { result ≡ front_width self.now.place self.now.stage }
    {
        match self.stage {
            FrontStage::Lane => 1,
            FrontStage::Result => 2,
            FrontStage::Params => 2,
            FrontStage::RegCount => 2,
            FrontStage::Reg(_) => 1,
            FrontStage::Masks => 2,
            FrontStage::SlotCount => 2,
            FrontStage::SlotStart(_) => match self.place {
                CodePlace::Object { .. } => 4,
                CodePlace::Image { .. } => 1,
            },
            FrontStage::ArgCount(_) => 1,
            FrontStage::Always(_, _) => 1,
            FrontStage::SlotResult(_, _) => 2,
            FrontStage::ArgReg(_, _) => 2,
            FrontStage::ArgKind(_, _, _) => 1,
            FrontStage::ArgValue(_, _, _, _) => 4,
            FrontStage::Done => 0,
        }
    }

    // So many registers are left.
    fn regs<R>(&mut self, left: u16)
        ensures { (at : ℕ) (next : FrontRow → ℕ → Format R) → front_left self.new at next
            ≡ read_after (λ before. value_type) left self.old.front.regs at (after_regs (place_of self.old.place) self.old.front next) }
    {
        self.stage = if left == 0 {
            FrontStage::Masks
        } else {
            FrontStage::Reg(left - 1)
        };
    }

    // So many calls are left.
    #[tactic(auto, using(crate::proofs::Left::start_reads))]
    fn slots<R>(&mut self, left: u16)
        ensures { (at : ℕ) (next : FrontRow → ℕ → Format R) → front_left self.new at next
            ≡ read_after (λ before. slot (place_of self.old.place)) left self.old.front.slots at (after_slots self.old.front next) }
    {
        self.stage = if left == 0 {
            FrontStage::Done
        } else {
            FrontStage::SlotStart(left - 1)
        };
    }

    // So many arguments of the call are left, and so many calls after it.
    fn args<R>(&mut self, left: u16, args: u8) -> Result<(), ObjectFail>
        ensures { (at : ℕ) (next : FrontRow → ℕ → Format R) → IsWanted result (front_left self.new at next)
            (read_after (λ before. argument) args self.old.slot.args at (after_args (place_of self.old.place) self.old.front left self.old.slot next)) }
    {
        if args == 0 {
            let next = SlotRow {
                function: 0,
                always: false,
                result: None,
                args: Items::new(self.alloc),
            };
            let slot = mem::replace(&mut self.slot, next);
            self.front.slots.push(slot)?;
            self.slots::<R>(left);
        } else {
            self.stage = FrontStage::ArgReg(left, args - 1);
        }
        Ok(())
    }

    // A call begins, with so many after it.
    fn start<R>(&mut self, at: u64, left: u16, field: &[u8]) -> Result<(), ObjectFail>
        requires width { length field.now ≡ front_width self.old.place (FrontStage.SlotStart left) }
        ensures { (next : FrontRow → ℕ → Format R) → Stepped (start_left self.old left at next) field.now result
            (front_left self.new (at + front_width self.old.place (FrontStage.SlotStart left)) next) }
    {
        match self.place {
            CodePlace::Object {
                functions,
                params: _,
            } => {
                let function = u32_of(field);
                if functions <= function {
                    return Err(refused(at, ObjectRule::O8));
                }
                self.slot.function = function;
                self.stage = FrontStage::ArgCount(left);
            }
            CodePlace::Image { codes: _ } => {
                let count = u8_of(field);
                self.slot.function = u32::from(count);
                self.stage = FrontStage::Always(left, count);
            }
        }
        Ok(())
    }

    // The number of parameters comes next, where it is a field.
    fn params<R>(&mut self)
        ensures { (at : ℕ) (next : FrontRow → ℕ → Format R) → front_left self.new at next
            ≡ from_params (place_of self.old.place) self.old.front at next }
    {
        match self.place {
            CodePlace::Object {
                functions: _,
                params,
            } => {
                self.front.params = params;
                self.stage = FrontStage::RegCount;
            }
            CodePlace::Image { codes: _ } => self.stage = FrontStage::Params,
        }
    }

    /// Takes the next field, which stands at this place.
    pub fn step<R>(&mut self, at: u64, field: &[u8]) -> Result<(), ObjectFail>
        requires width { length field.now ≡ front_width self.old.place self.old.stage }
        requires wanted { 0 < front_width self.old.place self.old.stage }
        ensures { (next : FrontRow → ℕ → Format R) → Stepped (front_left self.old at next) field.now result
            (front_left self.new (at + front_width self.old.place self.old.stage) next) }
    {
        match self.stage {
            FrontStage::Lane => match flag_of(u8_of(field)) {
                None => return Err(refused(at, ObjectRule::O7)),
                Some(lane_code) => {
                    self.front.lane_code = lane_code;
                    self.stage = FrontStage::Result;
                }
            },
            FrontStage::Result => {
                self.front.result = register_of(u16_of(field));
                self.params::<R>();
            }
            FrontStage::Params => {
                self.front.params = usize::from(u16_of(field));
                self.stage = FrontStage::RegCount;
            }
            FrontStage::RegCount => {
                self.front.regs = Items::new(self.alloc);
                self.regs::<R>(u16_of(field));
            }
            FrontStage::Reg(left) => match value_type_of(u8_of(field)) {
                None => return Err(refused(at, ObjectRule::O7)),
                Some(ctype) => {
                    self.front.regs.push(ctype)?;
                    self.regs::<R>(left);
                }
            },
            FrontStage::Masks => {
                self.front.masks = u16_of(field);
                self.stage = FrontStage::SlotCount;
            }
            FrontStage::SlotCount => {
                self.front.slots = Items::new(self.alloc);
                self.slots::<R>(u16_of(field));
            }
            FrontStage::SlotStart(left) => match self.start::<R>(at, left, field) {
                Err(fail) => return Err(fail),
                Ok(()) => {}
            },
            FrontStage::ArgCount(left) => {
                self.stage = FrontStage::Always(left, u8_of(field));
            }
            FrontStage::Always(left, args) => match flag_of(u8_of(field)) {
                None => return Err(refused(at, ObjectRule::O7)),
                Some(always) => {
                    self.slot.always = always;
                    self.stage = FrontStage::SlotResult(left, args);
                }
            },
            FrontStage::SlotResult(left, args) => {
                self.slot.result = register_of(u16_of(field));
                self.slot.args = Items::new(self.alloc);
                self.args::<R>(left, args)?;
            }
            FrontStage::ArgReg(left, args) => {
                self.stage = FrontStage::ArgKind(left, args, u16_of(field));
            }
            FrontStage::ArgKind(left, args, reg) => match shape_kind_of(u8_of(field)) {
                None => return Err(refused(at, ObjectRule::O7)),
                Some(kind) => self.stage = FrontStage::ArgValue(left, args, reg, kind),
            },
            FrontStage::ArgValue(left, args, reg, kind) => {
                let value = u32_of(field);
                if !has_value(kind, value) {
                    return Err(refused(at, ObjectRule::O7));
                }
                self.slot.args.push(ArgRow { reg, kind, value })?;
                self.args::<R>(left, args)?;
            }
            FrontStage::Done => {}
        }
        Ok(())
    }
}
