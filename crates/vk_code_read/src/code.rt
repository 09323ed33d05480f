// Code field by field.

ghost use Rattle.std.specs.Prelude.{◌≡◌, ◌<◌, ℕ, ◌+◌, ◌∷◌, [], ◌++◌, List, length};
ghost use Rattle.byteorder.specs.Endian.{little_number};
ghost use Rattle.vk_format.specs.Format.{Format};
ghost use Rattle.vk_format.specs.Codec.{number, read_after};
ghost use Rattle.vk_code_format.specs.declared.rows.CodeRow.{CodeRow};
ghost use Rattle.vk_code_format.specs.Codes.{code, guard, instr_of, instruction, loop_site};
ghost use Rattle.vk_code_read.specs.Inner.Left.{IsWanted, Stepped, place_of};
ghost use Rattle.vk_code_read.specs.declared.code.CodeStage.TheVariants as CodeStage;
ghost use Rattle.vk_code_read.specs.Inner.LeftCode.{after_body_instrs, body_next, codes_in, from_number, from_body, after_captures, after_guards, after_instrs, after_loop, after_loops, code_left, code_width};

use crate::fields::{is_good_simdlen, simdlen_of};
use crate::front::{CodePlace, FrontFeed, FrontStage, refused};
use std::alloc::Global;
use std::mem;
use vk_code::{Guard, Instr};
use vk_code_format::{BodyRow, LoopRow, RoutineRow};
use vk_format::fields::{u8_of, u16_of, u32_of, u64_of};
use vk_format::{Items, ObjectFail, ObjectRule};

/// Which field comes next. Counts of what is left are without the item that the field belongs to.
#[derive(Clone, Copy)]
pub enum CodeStage {
    Front,
    LoopCount,
    Simdlen(u16),
    Low(u16),
    High(u16),
    CaptureCount(u16),
    Capture(u16, u16),
    GuardCount(u16),
    GuardFirst(u16, u16),
    GuardSecond(u16, u16, u16),
    BodyNumber(u16),
    BodyFront(u16),
    BodyLoops(u16),
    BodyInstrCount(u16),
    BodyInstr(u16, u32),
    InstrCount,
    Instr(u32),
    Done,
}

/// Code of which some fields have come.
#[derive(Drop)]
pub struct CodeFeed {
    pub(crate) alloc: Global,
    pub place: CodePlace,
    pub stage: CodeStage,
    /// The code up to its calls.
    pub front: FrontFeed,
    /// The simd loops so far, and the one that comes.
    pub loops: Items<LoopRow>,
    pub site: LoopRow,
    /// The body that comes, up to its calls.
    pub body: FrontFeed,
    /// The instructions of the body that comes, or of the code.
    pub instrs: Items<Instr>,
}

/// An instruction of 16 bytes.
pub fn instr_of(field: &[u8]) -> Instr
    requires width { length field.now ≡ 16 }
    ensures { result ≡ instr_of field.now }
{
    Instr {
        op: u8_of(&field[..1]),
        ty: u8_of(&field[1..2]),
        m: u16_of(&field[2..4]),
        d: u16_of(&field[4..6]),
        a: u16_of(&field[6..8]),
        imm: u64_of(&field[8..16]),
    }
}

impl CodeFeed {
    /// Code of which nothing has come.
    pub fn new<R>(alloc: Global, place: CodePlace) -> CodeFeed
        ensures { (at : ℕ) (next : CodeRow → ℕ → Format R) → code_left result at next ≡ (code (place_of place)).read at next }
    {
        CodeFeed {
            alloc,
            place,
            stage: CodeStage::Front,
            front: FrontFeed::new(alloc, place),
            loops: Items::new(alloc),
            site: LoopRow {
                simdlen: None,
                low: 0,
                high: 0,
                captures: Items::new(alloc),
                guards: Items::new(alloc),
                body: BodyRow::Number(0),
            },
            body: FrontFeed::new(alloc, place),
            instrs: Items::new(alloc),
        }
    }

    /// How many bytes the next field has.
    pub fn width(&self) -> usize
        ensures { result ≡ code_width self.now }
    {
        match self.stage {
            CodeStage::Front => self.front.width(),
            CodeStage::LoopCount => 2,
            CodeStage::Simdlen(_) => 2,
            CodeStage::Low(_) => 2,
            CodeStage::High(_) => 2,
            CodeStage::CaptureCount(_) => 2,
            CodeStage::Capture(_, _) => 2,
            CodeStage::GuardCount(_) => 2,
            CodeStage::GuardFirst(_, _) => 2,
            CodeStage::GuardSecond(_, _, _) => 2,
            CodeStage::BodyNumber(_) => 4,
            CodeStage::BodyFront(_) => self.body.width(),
            CodeStage::BodyLoops(_) => 2,
            CodeStage::BodyInstrCount(_) => 4,
            CodeStage::BodyInstr(_, _) => 16,
            CodeStage::InstrCount => 4,
            CodeStage::Instr(_) => 16,
            CodeStage::Done => 0,
        }
    }

    // So many instructions of the code are left.
    fn instrs<R>(&mut self, left: u32)
        ensures { (at : ℕ) (next : CodeRow → ℕ → Format R) → code_left self.new at next
            ≡ read_after (λ before. instruction) left self.old.instrs at (after_instrs self.old.front.front self.old.loops next) }
    {
        self.stage = if left == 0 {
            CodeStage::Done
        } else {
            CodeStage::Instr(left - 1)
        };
    }

    // So many loops are left.
    fn loops<R>(&mut self, left: u16)
        ensures { (at : ℕ) (next : CodeRow → ℕ → Format R) → code_left self.new at next
            ≡ read_after (λ before. loop_site (place_of self.old.place)) left self.old.loops at (after_loops self.old.front.front next) }
    {
        self.stage = if left == 0 {
            CodeStage::InstrCount
        } else {
            CodeStage::Simdlen(left - 1)
        };
    }

    // So many captures of the loop are left, and so many loops after it.
    fn captures<R>(&mut self, left: u16, more: u16)
        ensures { (at : ℕ) (next : CodeRow → ℕ → Format R) → code_left self.new at next
            ≡ read_after (λ before. number 2) more self.old.site.captures at
            (after_captures (place_of self.old.place) self.old.site (after_loop (place_of self.old.place) self.old.front.front self.old.loops left next)) }
    {
        self.stage = if more == 0 {
            CodeStage::GuardCount(left)
        } else {
            CodeStage::Capture(left, more - 1)
        };
    }

    // So many guards of the loop are left, and so many loops after it.
    fn guards<R>(&mut self, left: u16, more: u16)
        ensures { (at : ℕ) (next : CodeRow → ℕ → Format R) → code_left self.new at next
            ≡ read_after (λ before. guard) more self.old.site.guards at
            (after_guards (place_of self.old.place) self.old.site (after_loop (place_of self.old.place) self.old.front.front self.old.loops left next)) }
    {
        if more == 0 {
            self.begin_body::<R>(left);
        } else {
            self.stage = CodeStage::GuardFirst(left, more - 1);
        }
    }

    // The body of the loop comes next, and so many loops after it.
    fn begin_body<R>(&mut self, left: u16)
        ensures { (at : ℕ) (next : CodeRow → ℕ → Format R) → code_left self.new at next
            ≡ from_body (place_of self.old.place) self.old.site at (after_loop (place_of self.old.place) self.old.front.front self.old.loops left next) }
    {
        match self.place {
            CodePlace::Object {
                functions,
                params: _,
            } => {
                let captures = self.site.captures.as_slice().len();
                let params = 1 + captures;
                self.body = FrontFeed::new(self.alloc, CodePlace::Object { functions, params });
                self.stage = CodeStage::BodyFront(left);
            }
            CodePlace::Image { codes: _ } => self.stage = CodeStage::BodyNumber(left),
        }
    }

    // The body of the loop is whole, and so many loops come after it.
    fn end_body<R>(&mut self, left: u16, body: BodyRow) -> Result<(), ObjectFail>
        ensures { (at : ℕ) (next : CodeRow → ℕ → Format R) → IsWanted result (code_left self.new at next) (body_next self.old left next body at) }
    {
        let next = LoopRow {
            simdlen: None,
            low: 0,
            high: 0,
            captures: Items::new(self.alloc),
            guards: Items::new(self.alloc),
            body: BodyRow::Number(0),
        };
        let mut site = mem::replace(&mut self.site, next);
        site.body = body;
        self.loops.push(site)?;
        self.loops::<R>(left);
        Ok(())
    }

    // So many instructions of the body are left, and so many loops after it.
    fn body_instrs<R>(&mut self, left: u16, more: u32) -> Result<(), ObjectFail>
        ensures { (at : ℕ) (next : CodeRow → ℕ → Format R) → IsWanted result (code_left self.new at next)
            (read_after (λ before. instruction) more self.old.instrs at (after_body_instrs self.old.body.front (body_next self.old left next))) }
    {
        if more != 0 {
            self.stage = CodeStage::BodyInstr(left, more - 1);
            return Ok(());
        }
        let none = FrontFeed::new(self.alloc, self.place);
        let front = mem::replace(&mut self.body, none).front;
        let instrs = mem::replace(&mut self.instrs, Items::new(self.alloc));
        self.end_body::<R>(left, BodyRow::Inline(RoutineRow { front, instrs }))
    }

    // The code up to its calls goes on with a field.
    fn front<R>(&mut self, at: u64, field: &[u8]) -> Result<(), ObjectFail>
        requires stage { self.old.stage ≡ CodeStage.Front }
        requires width { length field.now ≡ code_width self.old }
        requires wanted { 0 < code_width self.old }
        ensures { (next : CodeRow → ℕ → Format R) → Stepped (code_left self.old at next) field.now result (code_left self.new (at + code_width self.old) next) }
    {
        match self.front.step::<R>(at, field) {
            Err(fail) => return Err(fail),
            Ok(()) => {}
        }
        if let FrontStage::Done = self.front.stage {
            self.stage = CodeStage::LoopCount;
        }
        Ok(())
    }

    // The body of the loop goes on with a field, up to its calls.
    fn body_front<R>(&mut self, left: u16, at: u64, field: &[u8]) -> Result<(), ObjectFail>
        requires stage { self.old.stage ≡ CodeStage.BodyFront left }
        requires width { length field.now ≡ code_width self.old }
        requires wanted { 0 < code_width self.old }
        ensures { (next : CodeRow → ℕ → Format R) → Stepped (code_left self.old at next) field.now result (code_left self.new (at + code_width self.old) next) }
    {
        match self.body.step::<R>(at, field) {
            Err(fail) => return Err(fail),
            Ok(()) => {}
        }
        if let FrontStage::Done = self.body.stage {
            self.stage = CodeStage::BodyLoops(left);
        }
        Ok(())
    }

    // The number of the body's code, with so many loops after it.
    fn number<R>(&mut self, left: u16, at: u64, field: &[u8]) -> Result<(), ObjectFail>
        requires width { length field.now ≡ 4 }
        ensures { (next : CodeRow → ℕ → Format R) → Stepped (from_number (codes_in (place_of self.old.place)) at (body_next self.old left next)) field.now result (code_left self.new (at + 4) next) }
    {
        let number = u32_of(field);
        if self.codes() <= number {
            return Err(refused(at, ObjectRule::O8));
        }
        self.end_body::<R>(left, BodyRow::Number(number))
    }

    // How many codes a number may name.
    fn codes(&self) -> u32
        ensures { result ≡ codes_in (place_of self.now.place) }
    {
        match self.place {
            CodePlace::Object { .. } => 0,
            CodePlace::Image { codes } => codes,
        }
    }

    /// Takes the next field, which stands at this place.
    pub fn step<R>(&mut self, at: u64, field: &[u8]) -> Result<(), ObjectFail>
        requires width { length field.now ≡ code_width self.old }
        requires wanted { 0 < code_width self.old }
        ensures { (next : CodeRow → ℕ → Format R) → Stepped (code_left self.old at next) field.now result (code_left self.new (at + code_width self.old) next) }
    {
        match self.stage {
            CodeStage::Front => match self.front::<R>(at, field) {
                Err(fail) => return Err(fail),
                Ok(()) => {}
            },
            CodeStage::LoopCount => {
                self.loops = Items::new(self.alloc);
                self.loops::<R>(u16_of(field));
            }
            CodeStage::Simdlen(left) => {
                let simdlen = simdlen_of(u16_of(field));
                if !is_good_simdlen(simdlen) {
                    return Err(refused(at, ObjectRule::O7));
                }
                self.site.simdlen = simdlen;
                self.stage = CodeStage::Low(left);
            }
            CodeStage::Low(left) => {
                self.site.low = u16_of(field);
                self.stage = CodeStage::High(left);
            }
            CodeStage::High(left) => {
                self.site.high = u16_of(field);
                self.stage = CodeStage::CaptureCount(left);
            }
            CodeStage::CaptureCount(left) => {
                self.site.captures = Items::new(self.alloc);
                self.captures::<R>(left, u16_of(field));
            }
            CodeStage::Capture(left, more) => {
                self.site.captures.push(u16_of(field))?;
                self.captures::<R>(left, more);
            }
            CodeStage::GuardCount(left) => {
                self.site.guards = Items::new(self.alloc);
                self.guards::<R>(left, u16_of(field));
            }
            CodeStage::GuardFirst(left, more) => {
                self.stage = CodeStage::GuardSecond(left, more, u16_of(field));
            }
            CodeStage::GuardSecond(left, more, first) => {
                let second = u16_of(field);
                self.site.guards.push(Guard { first, second })?;
                self.guards::<R>(left, more);
            }
            CodeStage::BodyNumber(left) => match self.number::<R>(left, at, field) {
                Err(fail) => return Err(fail),
                Ok(()) => {}
            },
            CodeStage::BodyFront(left) => match self.body_front::<R>(left, at, field) {
                Err(fail) => return Err(fail),
                Ok(()) => {}
            },
            CodeStage::BodyLoops(left) => {
                if u16_of(field) != 0 {
                    return Err(refused(at, ObjectRule::O7));
                }
                self.stage = CodeStage::BodyInstrCount(left);
            }
            CodeStage::BodyInstrCount(left) => {
                self.instrs = Items::new(self.alloc);
                self.body_instrs::<R>(left, u32_of(field))?;
            }
            CodeStage::BodyInstr(left, more) => {
                self.instrs.push(instr_of(field))?;
                self.body_instrs::<R>(left, more)?;
            }
            CodeStage::InstrCount => {
                self.instrs = Items::new(self.alloc);
                self.instrs::<R>(u32_of(field));
            }
            CodeStage::Instr(more) => {
                self.instrs.push(instr_of(field))?;
                self.instrs::<R>(more);
            }
            CodeStage::Done => {}
        }
        Ok(())
    }
}
