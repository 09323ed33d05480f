// One instruction each, into a register that is there or into a new one.

ghost use Rattle.std.specs.Prelude.{◌≡◌, ◌+◌, ◌≤◌, ◌<◌, length, OnOk, IfOk, Ok, pos};
ghost use Rattle.vk_types.specs.declared.types.Ty.TheVariants.{I32};
ghost use Rattle.vk_types.specs.Numbers.{wrap_number};
ghost use Rattle.vk_types.specs.Operators.{op1_number, op2_number};
ghost use Rattle.vk_code.specs.Instruction.{IsComparison};
ghost use Rattle.vk_construct.specs.Adds.{Adds, LeavesOut, TestsOn};
ghost use Rattle.vk_construct.specs.Applies.{one, two};
ghost use Rattle.vk_flat.specs.Emitters.{Brings, BringsInto, HasBase, IsOperator, IsPlace, IsPromoted, written_of};

use crate::emitter::{Emitter, Place, Under, word_of};
use std::alloc::AllocError;
use vk_code::Operation;
use vk_types::{Op1, Op2, Ty};

impl Emitter {
    /// The number `n`, as one of the type of `d`, into `d`.
    pub fn constant_into(&mut self, n: u64, d: Place, under: Under) -> Result<(), AllocError>
        requires running { under.mask < self.old.masks }
        requires place { IsPlace (written_of self.old) d }
        requires free { self.old.params ≤ d.register }
        ensures code { OnOk result (BringsInto (written_of self.old) (written_of self.new) (λ h. Ok (wrap_number d.ty (pos n))) d under 1) }
        ensures base { OnOk result (HasBase self.old self.new 0) }
    {
        let value = word_of(d.ty, n);
        self.put(
            under.mask,
            Operation::Const {
                ty: d.ty,
                d: d.register,
                value,
            },
        )
    }

    /// The number in `a`, as one of the type of `d`, into `d`.
    pub fn convert_into(&mut self, a: Place, d: Place, under: Under) -> Result<(), AllocError>
        requires running { under.mask < self.old.masks }
        requires operand { IsPlace (written_of self.old) a }
        requires place { IsPlace (written_of self.old) d }
        requires free { self.old.params ≤ d.register }
        ensures code { OnOk result (BringsInto (written_of self.old) (written_of self.new) (one (λ z. Ok (wrap_number d.ty z)) a.ty a.register) d under 1) }
        ensures base { OnOk result (HasBase self.old self.new 0) }
    {
        self.put(
            under.mask,
            Operation::Convert {
                d: d.register,
                a: a.register,
            },
        )
    }

    /// The number `n`, as one of the type.
    pub fn constant(&mut self, ty: Ty, n: u64, under: Under) -> Result<Place, AllocError>
        requires running { under.mask < self.old.masks }
        requires params { self.old.params ≤ length self.old.regs.items }
        requires room { length self.old.regs.items < 65535 }
        ensures code { IfOk result (λ d. Brings (written_of self.old) (written_of self.new) (λ h. Ok (wrap_number ty (pos n))) d under 1) }
        ensures ty { IfOk result (λ d. d.ty ≡ ty) }
        ensures base { OnOk result (HasBase self.old self.new 1) }
    {
        let d = self.fresh(ty)?;
        self.constant_into(n, d, under)?;
        Ok(d)
    }

    /// The number in `a`, as one of the type.
    pub fn convert(&mut self, a: Place, ty: Ty, under: Under) -> Result<Place, AllocError>
        requires running { under.mask < self.old.masks }
        requires params { self.old.params ≤ length self.old.regs.items }
        requires operand { IsPlace (written_of self.old) a }
        requires room { length self.old.regs.items < 65535 }
        ensures code { IfOk result (λ d. Brings (written_of self.old) (written_of self.new) (one (λ z. Ok (wrap_number ty z)) a.ty a.register) d under 1) }
        ensures ty { IfOk result (λ d. d.ty ≡ ty) }
        ensures base { OnOk result (HasBase self.old self.new 1) }
    {
        if a.ty == ty {
            return Ok(a);
        }
        let d = self.fresh(ty)?;
        self.convert_into(a, d, under)?;
        Ok(d)
    }

    /// A unary operator at the type of its operand, which is a promoted one.
    pub fn apply(&mut self, op: Op1, a: Place, under: Under) -> Result<Place, AllocError>
        requires running { under.mask < self.old.masks }
        requires params { self.old.params ≤ length self.old.regs.items }
        requires operand { IsPlace (written_of self.old) a }
        requires promoted { IsPromoted a.ty }
        requires room { length self.old.regs.items < 65535 }
        ensures code { IfOk result (λ d. Brings (written_of self.old) (written_of self.new) (one (λ z. Ok (op1_number op a.ty z)) a.ty a.register) d under 1) }
        ensures ty { IfOk result (λ d. d.ty ≡ a.ty) }
        ensures base { OnOk result (HasBase self.old self.new 1) }
    {
        let d = self.fresh(a.ty)?;
        self.put(
            under.mask,
            Operation::Unary {
                op,
                ty: a.ty,
                d: d.register,
                a: a.register,
            },
        )?;
        Ok(d)
    }

    /// An operator, but for comparisons, at the type of its left operand, which is a promoted one. The right operand has the same
    /// type, or stands behind a shift.
    pub fn operate(
        &mut self,
        op: Op2,
        a: Place,
        b: Place,
        under: Under,
    ) -> Result<Place, AllocError>
        requires running { under.mask < self.old.masks }
        requires params { self.old.params ≤ length self.old.regs.items }
        requires operator { IsOperator op a.ty b.ty }
        requires left { IsPlace (written_of self.old) a }
        requires right { IsPlace (written_of self.old) b }
        requires promoted { IsPromoted a.ty }
        requires room { length self.old.regs.items < 65535 }
        ensures code { IfOk result (λ d. Brings (written_of self.old) (written_of self.new) (two (op2_number op a.ty) a.ty a.register b.ty b.register) d under 1) }
        ensures ty { IfOk result (λ d. d.ty ≡ a.ty) }
        ensures base { OnOk result (HasBase self.old self.new 1) }
    {
        let d = self.fresh(a.ty)?;
        self.put(
            under.mask,
            Operation::Binary {
                op,
                ty: a.ty,
                d: d.register,
                a: a.register,
                b: b.register,
            },
        )?;
        Ok(d)
    }

    /// A comparison of two operands of one promoted type.
    pub fn compare(
        &mut self,
        op: Op2,
        a: Place,
        b: Place,
        under: Under,
    ) -> Result<Place, AllocError>
        requires running { under.mask < self.old.masks }
        requires params { self.old.params ≤ length self.old.regs.items }
        requires comparison { IsComparison op }
        requires left { IsPlace (written_of self.old) a }
        requires right { IsPlace (written_of self.old) b }
        requires same { b.ty ≡ a.ty }
        requires promoted { IsPromoted a.ty }
        requires room { length self.old.regs.items < 65535 }
        ensures code { IfOk result (λ d. Brings (written_of self.old) (written_of self.new) (two (op2_number op a.ty) a.ty a.register b.ty b.register) d under 1) }
        ensures ty { IfOk result (λ d. d.ty ≡ I32) }
        ensures base { OnOk result (HasBase self.old self.new 1) }
    {
        let d = self.fresh(Ty::I32)?;
        self.put(
            under.mask,
            Operation::Compare {
                op,
                ty: a.ty,
                d: d.register,
                a: a.register,
                b: b.register,
            },
        )?;
        Ok(d)
    }

    /// The free mask has the lanes of the running one where the number in `a` is not 0.
    pub fn test(&mut self, a: Place, under: Under) -> Result<(), AllocError>
        requires running { under.mask < self.old.masks }
        requires operand { IsPlace (written_of self.old) a }
        requires free { 0 < under.free }
        requires masks { under.free < self.old.masks }
        ensures code { OnOk result (Adds (written_of self.old) (written_of self.new) (TestsOn under.mask under.free a.register) 1 0) }
        ensures base { OnOk result (HasBase self.old self.new 0) }
    {
        self.put(
            under.mask,
            Operation::MaskOf {
                d: under.free,
                a: a.register,
            },
        )
    }

    /// The mask behind the free one has the lanes of the running one that are not in the free one.
    pub fn leave_out(&mut self, under: Under) -> Result<(), AllocError>
        requires running { under.mask < self.old.masks }
        requires masks { under.free + 1 < self.old.masks }
        ensures code { OnOk result (Adds (written_of self.old) (written_of self.new) (LeavesOut (under.free + 1) under.mask under.free) 1 0) }
        ensures base { OnOk result (HasBase self.old self.new 0) }
    {
        self.put(
            0,
            Operation::MaskBut {
                d: under.free + 1,
                a: under.mask,
                b: under.free,
            },
        )
    }
}
