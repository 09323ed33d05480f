// Conditions as masks, and as numbers.

ghost use Rattle.std.specs.Prelude.{◌≡◌, ◌+◌, ◌≤◌, ◌<◌, cond, length, pos, OnOk, IfOk, Ok};
ghost use Rattle.vk_types.specs.declared.types.Ty.TheVariants.{I32};
ghost use Rattle.vk_numbers.specs.Operators.{is_on};
ghost use Rattle.vk_construct.specs.Adds.{Adds, Splits};
ghost use Rattle.vk_construct.specs.Applies.{one};
ghost use Rattle.vk_flat.specs.Emitters.{BringsInto, HasBase, HasCases, IsPlace, first_case, second_case, written_of};

use crate::emitter::{Emitter, Place, Under};
use std::alloc::AllocError;
use vk_types::Ty;

impl Emitter {
    /// The free mask has the lanes of the running one where the number in `a` is not 0, and the mask behind it the others.
    pub fn split(&mut self, a: Place, under: Under) -> Result<(), AllocError>
        requires running { under.mask < self.old.masks }
        requires free { under.mask < under.free }
        requires masks { under.free + 1 < self.old.masks }
        requires operand { IsPlace (written_of self.old) a }
        ensures code { OnOk result (Adds (written_of self.old) (written_of self.new) (Splits under.mask under.free a.register) 2 0) }
        ensures base { OnOk result (HasBase self.old self.new 0) }
    {
        self.test(a, under)?;
        self.leave_out(under)
    }

    /// A new register for the result of two cases: of the lanes where the number in `a` is not 0, and of the others.
    pub fn cases(&mut self, ty: Ty, a: Place, under: Under) -> Result<Place, AllocError>
        requires running { under.mask < under.free }
        requires masks { under.free ≤ self.old.masks }
        requires operand { IsPlace (written_of self.old) a }
        requires room { length self.old.regs.items + self.old.masks + 4 < 65536 }
        ensures code { IfOk result (λ d. HasCases (written_of self.old) (written_of self.new) a d under) }
        ensures ty { IfOk result (λ d. d.ty ≡ ty) }
        ensures params { OnOk result (self.new.params ≡ self.old.params) }
        ensures slots { OnOk result ((written_of self.new).slots ≡ (written_of self.old).slots) }
        ensures free { OnOk result (under.free + 3 ≤ self.new.masks) }
        ensures masks { OnOk result (self.old.masks ≤ self.new.masks) }
        ensures registers { OnOk result (length self.new.regs.items ≡ length self.old.regs.items + 1) }
        ensures count { OnOk result (self.new.masks ≤ self.old.masks + 3) }
    {
        self.with_masks(under.free + 3);
        let d = self.fresh(ty)?;
        self.split(a, under)?;
        Ok(d)
    }

    /// 1 where the number in `a` is not 0, else 0, into `d`.
    pub fn truth_into(&mut self, a: Place, d: Place, under: Under) -> Result<(), AllocError>
        requires running { under.mask < self.old.masks }
        requires free { under.mask < under.free }
        requires masks { under.free < self.old.masks }
        requires operand { IsPlace (written_of self.old) a }
        requires place { IsPlace (written_of self.old) d }
        requires target { self.old.params ≤ d.register }
        requires int { d.ty ≡ I32 }
        ensures code { OnOk result (BringsInto (written_of self.old) (written_of self.new) (one (λ z. Ok (cond (is_on z) (pos 1) (pos 0))) a.ty a.register) d under 3) }
        ensures base { OnOk result (HasBase self.old self.new 0) }
    {
        self.test(a, under)?;
        let free = under.free + 1;
        self.constant_into(
            0,
            d,
            Under {
                mask: under.mask,
                free,
            },
        )?;
        self.constant_into(
            1,
            d,
            Under {
                mask: under.free,
                free,
            },
        )
    }
}

impl Under {
    /// Where the code of the first case comes.
    pub fn first_case(self) -> Under
        requires { self.free + 2 < 65536 }
        ensures { result ≡ first_case self }
    {
        Under {
            mask: self.free,
            free: self.free + 2,
        }
    }

    /// Where the code of the second case comes.
    pub fn second_case(self) -> Under
        requires { self.free + 2 < 65536 }
        ensures { result ≡ second_case self }
    {
        Under {
            mask: self.free + 1,
            free: self.free + 2,
        }
    }
}
