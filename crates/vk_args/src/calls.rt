// The words of the call of a slot.

ghost use Rattle.std.specs.Prelude.{◌≡◌, ℕ, ◌^◌, ◌<◌, ◌==◌, pos, neg_ℤ, ◌≤ℤ◌, ◌-ℤ◌, ◌*ℤ◌, slice_get};
ghost use Rattle.vk_code.specs.Listing.{call_site_of, listing_of};
ghost use Rattle.vk_object.specs.Lane.{is_live, number_at};
ghost use Rattle.vk_object.specs.Machine.{arg_reg, kind_at, moved_by, passed, step_of};
ghost use Rattle.vk_kinds.specs.declared.kinds.Step.TheVariants.{Arg};
ghost use Rattle.vk_object.specs.Tables.{entry_list_of};
ghost use Rattle.vk_frames.specs.Frames.{lanes_of};
ghost use Rattle.vk_args.specs.Readable.{CanPass, CanPassOne};

use crate::numbers::{distance, in_elements, moved_by, number_in, scaled};
use vk_code::code::{Code, Slot};
use vk_frames::Frame;
use vk_kinds::{CType, Kind, Step};
use vk_object::Entry;
use vk_passing::arguments::Arguments;
use vk_steps::registers::ty_at;
use vk_types::Word;

/// The register of an argument.
fn register_of(slot: &Slot, parameter: usize) -> u16
    ensures { result ≡ arg_reg (call_site_of slot.now) parameter }
{
    match slot.args.get(parameter) {
        Some(arg) => arg.reg,
        None => 0,
    }
}

// The kind of a parameter.
fn kind_of(entry: &Entry, parameter: usize) -> Kind
    ensures { result ≡ kind_at (entry_list_of entry.now) parameter }
{
    match entry.params.get(parameter) {
        Some(param) => param.kind,
        None => Kind::Vector,
    }
}

// The type of a register, if there is one.
fn type_of(code: &Code, register: u16) -> Option<CType>
    ensures { result ≡ slice_get (listing_of code.now).routine.regs register }
{
    code.regs.get(usize::from(register)).copied()
}

/// The words of a call for all lanes: `first` is the first that is live in the mask.
#[derive(Clone, Copy)]
pub struct LaneArgs<'a, 'b> {
    pub frame: &'a Frame<'b>,
    pub code: &'a Code,
    pub slot: &'a Slot,
    pub entry: &'a Entry,
    pub params: u16,
    pub mask: u16,
    pub first: usize,
}

impl LaneArgs<'_, '_> {
    // How much an argument grows from lane to lane.
    fn step(&self, ty: Option<CType>, step: Step) -> i128
        requires good { CanPass self.now.frame.now (call_site_of self.now.slot.now) (entry_list_of self.now.entry.now) self.now.params self.now.entry.now.lanes self.now.mask self.now.first }
        requires there { (q : ℕ) → step ≡ Arg q → q < self.now.params }
        ensures step { result ≡ step_of ty (λ q. number_at (listing_of self.now.code.now).routine.regs (lanes_of self.now.frame.now self.now.first) (arg_reg (call_site_of self.now.slot.now) q)) step }
        ensures low { neg_ℤ (pos (2 ^ 63)) ≤ℤ result }
        ensures high { result ≤ℤ pos (2 ^ 64) }
    {
        match step {
            Step::One => in_elements(ty, 1),
            Step::By(bytes) => in_elements(ty, i128::from(bytes)),
            Step::Arg(q) => {
                let register = register_of(self.slot, usize::from(q));
                number_in(
                    ty_at(self.code, register),
                    self.frame.word(register, self.first),
                )
            }
        }
    }

    // The word of a linear argument in a lane.
    fn linear(&self, register: u16, step: Step, lane: usize) -> Word
        requires good { CanPass self.now.frame.now (call_site_of self.now.slot.now) (entry_list_of self.now.entry.now) self.now.params self.now.entry.now.lanes self.now.mask self.now.first }
        requires there { (q : ℕ) → step ≡ Arg q → q < self.now.params }
        requires register { register < self.now.frame.now.registers }
        requires lane { lane < 256 }
        ensures { result.0 ≡ moved_by (slice_get (listing_of self.now.code.now).routine.regs register) ((lanes_of self.now.frame.now self.now.first).reg register)
            ((pos lane -ℤ pos self.now.first) *ℤ step_of (slice_get (listing_of self.now.code.now).routine.regs register) (λ q. number_at (listing_of self.now.code.now).routine.regs (lanes_of self.now.frame.now self.now.first) (arg_reg (call_site_of self.now.slot.now) q)) step) }
    {
        let ty = type_of(self.code, register);
        let by = scaled(distance(self.first, lane), self.step(ty, step));
        moved_by(ty, self.frame.word(register, self.first), by)
    }
}

impl Arguments for LaneArgs<'_, '_> {
    ghost good = { λ a. CanPass a.frame.now (call_site_of a.slot.now) (entry_list_of a.entry.now) a.params a.entry.now.lanes a.mask a.first };

    ghost params = { λ a. a.params };

    ghost lanes = { λ a. a.entry.now.lanes };

    ghost words = { λ a p i. passed (slice_get (listing_of a.code.now).routine.regs (arg_reg (call_site_of a.slot.now) p))
        (λ q. number_at (listing_of a.code.now).routine.regs (lanes_of a.frame.now a.first) (arg_reg (call_site_of a.slot.now) q))
        (kind_at (entry_list_of a.entry.now) p) (λ j. (lanes_of a.frame.now j).reg (arg_reg (call_site_of a.slot.now) p)) a.first i };

    ghost on = { λ a i. is_live a.mask (lanes_of a.frame.now i) };

    fn word(&self, parameter: u16, lane: usize) -> Word {
        let register = register_of(self.slot, usize::from(parameter));
        match kind_of(self.entry, usize::from(parameter)) {
            Kind::Vector => self.frame.word(register, lane),
            Kind::Uniform => self.frame.word(register, self.first),
            Kind::Linear(step) => self.linear(register, step, lane),
            Kind::Ref(_) => self.frame.word(register, lane),
            Kind::Val(_) => self.frame.word(register, lane),
            Kind::Uval(_) => self.frame.word(register, lane),
        }
    }

    fn is_on(&self, lane: usize) -> bool {
        self.frame.is_live(self.mask, lane)
    }
}

/// The words of a call for one lane of the caller's, in each lane of the call, of which the first is on.
#[derive(Clone, Copy)]
pub struct OneLane<'a, 'b> {
    pub frame: &'a Frame<'b>,
    pub slot: &'a Slot,
    pub params: u16,
    pub lanes: u16,
    pub lane: usize,
}

impl Arguments for OneLane<'_, '_> {
    ghost good = { λ a. CanPassOne a.frame.now (call_site_of a.slot.now) a.params a.lane };

    ghost params = { λ a. a.params };

    ghost lanes = { λ a. a.lanes };

    ghost words = { λ a p i. (lanes_of a.frame.now a.lane).reg (arg_reg (call_site_of a.slot.now) p) };

    ghost on = { λ a i. i == 0 };

    fn word(&self, parameter: u16, _lane: usize) -> Word {
        self.frame
            .word(register_of(self.slot, usize::from(parameter)), self.lane)
    }

    fn is_on(&self, lane: usize) -> bool {
        lane == 0
    }
}
