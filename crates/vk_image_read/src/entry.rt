// An entry, field by field.

ghost use Rattle.std.specs.Prelude.{◌≡◌, ◌<◌, ◌+◌, ℕ, List, length, None, slice_get};
ghost use Rattle.vk_format.specs.Format.{Format};
ghost use Rattle.vk_format.specs.Codec.{read_after};
ghost use Rattle.vk_code_format.specs.declared.rows.CodeRow.{CodeRow};
ghost use Rattle.vk_code_format.specs.Fields.{below};
ghost use Rattle.vk_code_format.specs.Parameters.{param};
ghost use Rattle.vk_code_read.specs.Inner.Left.{Stepped};
ghost use Rattle.vk_image_format.specs.declared.rows.RawEntry.{RawEntry};
ghost use Rattle.vk_image_format.specs.Image.{entry, loop_targets, loops_of, params_of, slots_of};
ghost use Rattle.vk_image_read.specs.Inner.LeftEntry.{Among, after_loops, after_name, after_params, after_targets, after_text, among, entry_left, entry_width, from_params, param_next, with_code};
ghost use Rattle.vk_image_read.specs.Inner.Settled.{Settles};

use std::alloc::Global;
use vk_code_format::{CodeRow, ParamKind, ParamRow};
use vk_code_read::front::refused;
use vk_format::fields::{u8_of, u16_of, u32_of};
use vk_format::{Items, ObjectFail, ObjectRule};
use vk_image_fields::fields::{entry_kind_of, has_lanes, is_entry_text, is_variant};
use vk_image_fields::order::{follows_entries, keeps_order};
use vk_image_fields::parameters::are_kinds;
use vk_image_format::{EntryFront, EntryName, RawEntry};
use vk_object::{EntryKind, LoopTargets};
use vk_object_fields::parameters::{align_fits, align_of, kind_fits, param_kind_of, value_fits};

/// Which field comes next. Counts of what is left are without the item that the field belongs to.
#[derive(Clone, Copy)]
pub enum EntryStage {
    TextLength,
    Text(u16),
    Kind,
    Lanes,
    CodeOf,
    ParamKind(usize),
    Value(usize, ParamKind),
    Align(usize, ParamKind, u32),
    Target(usize),
    Chunk(usize),
    Rest(usize, u32),
    Done,
}

/// An entry of which some fields have come.
#[derive(Drop)]
pub struct EntryFeed {
    pub(crate) alloc: Global,
    pub stage: EntryStage,
    /// Where it begins.
    pub start: u64,
    /// The entry so far.
    pub entry: RawEntry,
}

// How many parameters an entry of the kind has, by its code.
fn params_of(kind: EntryKind, codes: &[CodeRow], number: u32) -> usize
    ensures { result ≡ params_of kind (slice_get codes.now number) }
{
    match codes.get(number as usize) {
        Some(code) => {
            if is_variant(kind) {
                code.routine.front.params
            } else {
                0
            }
        }
        None => 0,
    }
}

// How many slots the code has.
fn slots_of(codes: &[CodeRow], number: u32) -> usize
    ensures { result ≡ slots_of (slice_get codes.now number) }
{
    match codes.get(number as usize) {
        Some(code) => code.routine.front.slots.len(),
        None => 0,
    }
}

// How many simd loops the code has.
fn loops_of(codes: &[CodeRow], number: u32) -> usize
    ensures { result ≡ loops_of (slice_get codes.now number) }
{
    match codes.get(number as usize) {
        Some(code) => code.loops.len(),
        None => 0,
    }
}

impl EntryFeed {
    /// An entry of which nothing has come.
    pub fn new<R>(alloc: Global) -> EntryFeed
        ensures { (a : Among) (at : ℕ) (next : RawEntry → ℕ → Format R) → entry_left a result at next ≡ (entry a.codes a.entries a.before).read at next }
    {
        EntryFeed {
            alloc,
            stage: EntryStage::TextLength,
            start: 0,
            entry: RawEntry {
                front: EntryFront {
                    name: EntryName {
                        text: Items::new(alloc),
                        kind: EntryKind::Ordinary,
                        lanes: 1,
                    },
                    code: 0,
                    params: Items::new(alloc),
                },
                targets: Items::new(alloc),
                loops: Items::new(alloc),
            },
        }
    }

    /// How many bytes the next field has.
    pub fn width(&self) -> usize
        ensures { result ≡ entry_width self.now }
    {
        match self.stage {
            EntryStage::TextLength => 2,
            EntryStage::Text(len) => usize::from(len),
            EntryStage::Kind => 1,
            EntryStage::Lanes => 2,
            EntryStage::CodeOf => 4,
            EntryStage::ParamKind(_) => 1,
            EntryStage::Value(_, _) => 4,
            EntryStage::Align(_, _, _) => 4,
            EntryStage::Target(_) => 4,
            EntryStage::Chunk(_) => 4,
            EntryStage::Rest(_, _) => 4,
            EntryStage::Done => 0,
        }
    }

    // The targets of so many loops are left.
    fn loops<R>(&mut self, left: usize)
        ensures { (a : Among) (at : ℕ) (next : RawEntry → ℕ → Format R) → entry_left a self.new at next
            ≡ read_after (λ b. loop_targets a.entries) left self.old.entry.loops at (after_loops self.old.entry next) }
    {
        self.stage = if left == 0 {
            EntryStage::Done
        } else {
            EntryStage::Chunk(left - 1)
        };
    }

    // The targets of so many slots are left.
    fn targets<R>(&mut self, left: usize, codes: &[CodeRow])
        ensures { (entries : ℕ) (before : List RawEntry) (at : ℕ) (next : RawEntry → ℕ → Format R) → entry_left (among codes.now entries before) self.new at next
            ≡ read_after (λ b. below entries) left self.old.entry.targets at (after_targets (among codes.now entries before) self.old.entry next) }
    {
        if left != 0 {
            self.stage = EntryStage::Target(left - 1);
            return;
        }
        let loops = loops_of(codes, self.entry.front.code);
        self.entry.loops = Items::new(self.alloc);
        self.loops::<R>(loops);
    }

    // The parameters are whole.
    fn finish<R>(&mut self, codes: &[CodeRow]) -> Result<(), ObjectFail>
        ensures { (entries : ℕ) (before : List RawEntry) (at : ℕ) (next : RawEntry → ℕ → Format R) → Settles result
            (after_params (among codes.now entries before) self.old.start self.old.entry next self.old.entry.front.params at)
            (entry_left (among codes.now entries before) self.new at next) }
    {
        if !are_kinds(self.entry.front.params.as_slice()) {
            return Err(refused(self.start, ObjectRule::O7));
        }
        let targets = slots_of(codes, self.entry.front.code);
        self.entry.targets = Items::new(self.alloc);
        self.targets::<R>(targets, codes);
        Ok(())
    }

    // So many parameters are left.
    fn params<R>(&mut self, left: usize, codes: &[CodeRow]) -> Result<(), ObjectFail>
        ensures { (entries : ℕ) (before : List RawEntry) (at : ℕ) (next : RawEntry → ℕ → Format R) → Settles result
            (read_after (λ b. param None) left self.old.entry.front.params at (after_params (among codes.now entries before) self.old.start self.old.entry next))
            (entry_left (among codes.now entries before) self.new at next) }
    {
        if left == 0 {
            return self.finish::<R>(codes);
        }
        self.stage = EntryStage::ParamKind(left - 1);
        Ok(())
    }

    // The number of the code is known.
    fn code<R>(&mut self, number: u32, codes: &[CodeRow]) -> Result<(), ObjectFail>
        ensures { (entries : ℕ) (before : List RawEntry) (at : ℕ) (next : RawEntry → ℕ → Format R) → Settles result
            (from_params (among codes.now entries before) self.old.start (with_code self.old.entry number) at next)
            (entry_left (among codes.now entries before) self.new at next) }
    {
        self.entry.front.code = number;
        self.entry.front.params = Items::new(self.alloc);
        let params = params_of(self.entry.front.name.kind, codes, number);
        self.params::<R>(params, codes)
    }

    // The text, behind others.
    fn text<R>(&mut self, text: &[u8], before: &[RawEntry]) -> Result<(), ObjectFail>
        ensures { (codes : List CodeRow) (entries : ℕ) (end : ℕ) (next : RawEntry → ℕ → Format R) → Settles result
            (after_text (among codes entries before.now) self.old.start self.old.entry next text.now end)
            (entry_left (among codes entries before.now) self.new end next) }
    {
        if !is_entry_text(text) {
            return Err(refused(self.start, ObjectRule::O7));
        }
        if !keeps_order(before, text) {
            return Err(refused(self.start, ObjectRule::O6));
        }
        self.entry.front.name.text = Items::from_slice(self.alloc, text)?;
        self.stage = EntryStage::Kind;
        Ok(())
    }

    // The lanes, behind others.
    fn lanes<R>(&mut self, lanes: u16, before: &[RawEntry]) -> Result<(), ObjectFail>
        ensures { (codes : List CodeRow) (entries : ℕ) (end : ℕ) (next : RawEntry → ℕ → Format R) → Settles result
            (after_name (among codes entries before.now) self.old.start self.old.entry next (record self.old.entry.front.name { lanes = lanes }) end)
            (entry_left (among codes entries before.now) self.new end next) }
    {
        self.entry.front.name.lanes = lanes;
        if !follows_entries(before, &self.entry.front.name) {
            return Err(refused(self.start, ObjectRule::O6));
        }
        self.stage = EntryStage::CodeOf;
        Ok(())
    }

    // A parameter is whole, and so many are left.
    fn param<R>(&mut self, left: usize, row: ParamRow, codes: &[CodeRow]) -> Result<(), ObjectFail>
        ensures { (entries : ℕ) (before : List RawEntry) (at : ℕ) (next : RawEntry → ℕ → Format R) → Settles result
            (param_next (among codes.now entries before) self.old left next row at)
            (entry_left (among codes.now entries before) self.new at next) }
    {
        self.entry.front.params.push(row)?;
        self.params::<R>(left, codes)
    }

    /// Takes the next field, which stands at this place, of an entry of so many with these codes, behind others.
    pub fn step<R>(
        &mut self,
        at: u64,
        field: &[u8],
        codes: &[CodeRow],
        entries: u32,
        before: &[RawEntry],
    ) -> Result<(), ObjectFail>
        requires width { length field.now ≡ entry_width self.old }
        requires wanted { 0 < entry_width self.old }
        ensures { (next : RawEntry → ℕ → Format R) → Stepped (entry_left (among codes.now entries before.now) self.old at next) field.now result
            (entry_left (among codes.now entries before.now) self.new (at + entry_width self.old) next) }
    {
        match self.stage {
            EntryStage::TextLength => {
                let len = u16_of(field);
                if len == 0 {
                    // The empty text, which is whole now.
                    return Err(refused(at, ObjectRule::O7));
                }
                self.start = at;
                self.stage = EntryStage::Text(len);
            }
            EntryStage::Text(_) => match self.text::<R>(field, before) {
                Err(fail) => return Err(fail),
                Ok(()) => {}
            },
            EntryStage::Kind => match entry_kind_of(u8_of(field)) {
                None => return Err(refused(at, ObjectRule::O7)),
                Some(kind) => {
                    self.entry.front.name.kind = kind;
                    self.stage = EntryStage::Lanes;
                }
            },
            EntryStage::Lanes => {
                let lanes = u16_of(field);
                if !has_lanes(self.entry.front.name.kind, lanes) {
                    return Err(refused(at, ObjectRule::O7));
                }
                match self.lanes::<R>(lanes, before) {
                    Err(fail) => return Err(fail),
                    Ok(()) => {}
                }
            }
            EntryStage::CodeOf => {
                let number = u32_of(field);
                if codes.len() <= number as usize {
                    return Err(refused(at, ObjectRule::O8));
                }
                match self.code::<R>(number, codes) {
                    Err(fail) => return Err(fail),
                    Ok(()) => {}
                }
            }
            EntryStage::ParamKind(left) => match param_kind_of(u8_of(field)) {
                None => return Err(refused(at, ObjectRule::O7)),
                Some(kind) => {
                    if !kind_fits(None, kind) {
                        return Err(refused(at, ObjectRule::O7));
                    }
                    self.stage = EntryStage::Value(left, kind);
                }
            },
            EntryStage::Value(left, kind) => {
                let value = u32_of(field);
                if !value_fits(None, kind, value) {
                    return Err(refused(at, ObjectRule::O7));
                }
                self.stage = EntryStage::Align(left, kind, value);
            }
            EntryStage::Align(left, kind, value) => {
                let align = align_of(u32_of(field));
                if !align_fits(None, align) {
                    return Err(refused(at, ObjectRule::O7));
                }
                match self.param::<R>(left, ParamRow { kind, value, align }, codes) {
                    Err(fail) => return Err(fail),
                    Ok(()) => {}
                }
            }
            EntryStage::Target(left) => {
                let target = u32_of(field);
                if entries <= target {
                    return Err(refused(at, ObjectRule::O8));
                }
                self.entry.targets.push(target)?;
                self.targets::<R>(left, codes);
            }
            EntryStage::Chunk(left) => {
                let chunk = u32_of(field);
                if entries <= chunk {
                    return Err(refused(at, ObjectRule::O8));
                }
                self.stage = EntryStage::Rest(left, chunk);
            }
            EntryStage::Rest(left, chunk) => {
                let rest = u32_of(field);
                if entries <= rest {
                    return Err(refused(at, ObjectRule::O8));
                }
                self.entry.loops.push(LoopTargets { chunk, rest })?;
                self.loops::<R>(left);
            }
            EntryStage::Done => {}
        }
        Ok(())
    }
}
