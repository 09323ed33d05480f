// Operators on operands of any types.

ghost use Rattle.std.specs.Prelude.{◌≡◌, ◌+◌, ◌≤◌, ◌<◌, length, OnOk, IfOk, Ok, false, true};
ghost use Rattle.vk_types.specs.declared.types.Ty.TheVariants.{I32};
ghost use Rattle.vk_types.specs.Conversions.{common_type, promoted};
ghost use Rattle.vk_types.specs.Numbers.{wrap_number};
ghost use Rattle.vk_types.specs.Operators.{op1_number};
ghost use Rattle.vk_code.specs.Instruction.{IsArithmetic, IsComparison};
ghost use Rattle.vk_code.specs.Valid.{is_shift};
ghost use Rattle.vk_numbers.specs.Laws.{is_logical};
ghost use Rattle.vk_numbers.specs.Operators.{binary_number, result_in, shift_result, unary_number};
ghost use Rattle.vk_numbers.specs.Types.{binary_type, unary_type};
ghost use Rattle.vk_construct.specs.Applies.{one, two};
ghost use Rattle.vk_flat.specs.Emitters.{Brings, HasBase, IsPlace, written_of};

use crate::emitter::{Emitter, Place, Under};
use std::alloc::AllocError;
use vk_ast::{BinOp, UnOp};
use vk_types::{Op1, Op2, Ty, common, promote};

impl Emitter {
    // An operator in the common type of its operands.
    fn in_common(&mut self, op: Op2, a: Place, b: Place, under: Under) -> Result<Place, AllocError>
        requires running { under.mask < self.old.masks }
        requires free { under.mask < under.free }
        requires params { self.old.params ≤ length self.old.regs.items }
        requires arithmetic { IsArithmetic op }
        requires plain { is_shift op ≡ false }
        requires left { IsPlace (written_of self.old) a }
        requires right { IsPlace (written_of self.old) b }
        requires room { length self.old.regs.items + 3 < 65536 }
        ensures code { IfOk result (λ d. Brings (written_of self.old) (written_of self.new) (two (result_in op (common_type a.ty b.ty)) a.ty a.register b.ty b.register) d under 3) }
        ensures ty { IfOk result (λ d. d.ty ≡ common_type a.ty b.ty) }
        ensures base { OnOk result (HasBase self.old self.new 3) }
    {
        let ty = common(a.ty, b.ty);
        let left = self.convert(a, ty, under)?;
        let right = self.convert(b, ty, under)?;
        self.operate(op, left, right, under)
    }

    // A comparison in the common type of its operands.
    fn compare_in_common(
        &mut self,
        op: Op2,
        a: Place,
        b: Place,
        under: Under,
    ) -> Result<Place, AllocError>
        requires running { under.mask < self.old.masks }
        requires free { under.mask < under.free }
        requires params { self.old.params ≤ length self.old.regs.items }
        requires comparison { IsComparison op }
        requires left { IsPlace (written_of self.old) a }
        requires right { IsPlace (written_of self.old) b }
        requires room { length self.old.regs.items + 3 < 65536 }
        ensures code { IfOk result (λ d. Brings (written_of self.old) (written_of self.new) (two (result_in op (common_type a.ty b.ty)) a.ty a.register b.ty b.register) d under 3) }
        ensures ty { IfOk result (λ d. d.ty ≡ I32) }
        ensures base { OnOk result (HasBase self.old self.new 3) }
    {
        let ty = common(a.ty, b.ty);
        let left = self.convert(a, ty, under)?;
        let right = self.convert(b, ty, under)?;
        self.compare(op, left, right, under)
    }

    // A shift of the promoted left operand.
    fn shift_promoted(
        &mut self,
        op: Op2,
        a: Place,
        b: Place,
        under: Under,
    ) -> Result<Place, AllocError>
        requires running { under.mask < self.old.masks }
        requires free { under.mask < under.free }
        requires params { self.old.params ≤ length self.old.regs.items }
        requires arithmetic { IsArithmetic op }
        requires shift { is_shift op ≡ true }
        requires left { IsPlace (written_of self.old) a }
        requires right { IsPlace (written_of self.old) b }
        requires room { length self.old.regs.items + 3 < 65536 }
        ensures code { IfOk result (λ d. Brings (written_of self.old) (written_of self.new) (two (shift_result op (promoted a.ty)) a.ty a.register b.ty b.register) d under 3) }
        ensures ty { IfOk result (λ d. d.ty ≡ promoted a.ty) }
        ensures base { OnOk result (HasBase self.old self.new 3) }
    {
        let left = self.convert(a, promote(a.ty), under)?;
        self.operate(op, left, b, under)
    }

    // An operator on the promoted operand.
    fn apply_promoted(&mut self, op: Op1, a: Place, under: Under) -> Result<Place, AllocError>
        requires running { under.mask < self.old.masks }
        requires free { under.mask < under.free }
        requires params { self.old.params ≤ length self.old.regs.items }
        requires operand { IsPlace (written_of self.old) a }
        requires room { length self.old.regs.items + 3 < 65536 }
        ensures code { IfOk result (λ d. Brings (written_of self.old) (written_of self.new) (one (λ z. Ok (op1_number op (promoted a.ty) (wrap_number (promoted a.ty) z))) a.ty a.register) d under 3) }
        ensures ty { IfOk result (λ d. d.ty ≡ promoted a.ty) }
        ensures base { OnOk result (HasBase self.old self.new 3) }
    {
        let operand = self.convert(a, promote(a.ty), under)?;
        self.apply(op, operand, under)
    }

    // Whether the promoted operand is 0.
    fn is_zero(&mut self, a: Place, under: Under) -> Result<Place, AllocError>
        requires running { under.mask < self.old.masks }
        requires free { under.mask < under.free }
        requires params { self.old.params ≤ length self.old.regs.items }
        requires operand { IsPlace (written_of self.old) a }
        requires room { length self.old.regs.items + 3 < 65536 }
        ensures code { IfOk result (λ d. Brings (written_of self.old) (written_of self.new) (one (unary_number UnOp.LogNot a.ty) a.ty a.register) d under 3) }
        ensures ty { IfOk result (λ d. d.ty ≡ I32) }
        ensures base { OnOk result (HasBase self.old self.new 3) }
    {
        let ty = promote(a.ty);
        let operand = self.convert(a, ty, under)?;
        let zero = self.constant(ty, 0, under)?;
        self.compare(Op2::Eq, operand, zero, under)
    }

    /// A unary operator (C17 6.5.3.3).
    pub fn unary(&mut self, op: UnOp, a: Place, under: Under) -> Result<Place, AllocError>
        requires running { under.mask < self.old.masks }
        requires free { under.mask < under.free }
        requires params { self.old.params ≤ length self.old.regs.items }
        requires operand { IsPlace (written_of self.old) a }
        requires room { length self.old.regs.items + 3 < 65536 }
        ensures code { IfOk result (λ d. Brings (written_of self.old) (written_of self.new) (one (unary_number op a.ty) a.ty a.register) d under 3) }
        ensures ty { IfOk result (λ d. d.ty ≡ unary_type op a.ty) }
        ensures base { OnOk result (HasBase self.old self.new 3) }
    {
        match op {
            UnOp::Plus => self.convert(a, promote(a.ty), under),
            UnOp::Neg => self.apply_promoted(Op1::Neg, a, under),
            UnOp::Not => self.apply_promoted(Op1::Not, a, under),
            UnOp::LogNot => self.is_zero(a, under),
        }
    }

    /// A binary operator (C17 6.5.5 to 6.5.12), but for `&&` and `||`.
    pub fn binary(
        &mut self,
        op: BinOp,
        a: Place,
        b: Place,
        under: Under,
    ) -> Result<Place, AllocError>
        requires running { under.mask < self.old.masks }
        requires free { under.mask < under.free }
        requires params { self.old.params ≤ length self.old.regs.items }
        requires plain { is_logical op ≡ false }
        requires left { IsPlace (written_of self.old) a }
        requires right { IsPlace (written_of self.old) b }
        requires room { length self.old.regs.items + 3 < 65536 }
        ensures code { IfOk result (λ d. Brings (written_of self.old) (written_of self.new) (two (binary_number op a.ty b.ty) a.ty a.register b.ty b.register) d under 3) }
        ensures ty { IfOk result (λ d. d.ty ≡ binary_type op a.ty b.ty) }
        ensures base { OnOk result (HasBase self.old self.new 3) }
        ensures plain { is_logical op ≡ false }
    {
        match op {
            BinOp::Add => self.in_common(Op2::Add, a, b, under),
            BinOp::Sub => self.in_common(Op2::Sub, a, b, under),
            BinOp::Mul => self.in_common(Op2::Mul, a, b, under),
            BinOp::Div => self.in_common(Op2::Div, a, b, under),
            BinOp::Rem => self.in_common(Op2::Rem, a, b, under),
            BinOp::And => self.in_common(Op2::And, a, b, under),
            BinOp::Or => self.in_common(Op2::Or, a, b, under),
            BinOp::Xor => self.in_common(Op2::Xor, a, b, under),
            BinOp::Shl => self.shift_promoted(Op2::Shl, a, b, under),
            BinOp::Shr => self.shift_promoted(Op2::Shr, a, b, under),
            BinOp::Eq => self.compare_in_common(Op2::Eq, a, b, under),
            BinOp::Ne => self.compare_in_common(Op2::Ne, a, b, under),
            BinOp::Lt => self.compare_in_common(Op2::Lt, a, b, under),
            BinOp::Le => self.compare_in_common(Op2::Le, a, b, under),
            BinOp::Gt => self.compare_in_common(Op2::Lt, b, a, under),
            BinOp::Ge => self.compare_in_common(Op2::Le, b, a, under),
            BinOp::LogAnd | BinOp::LogOr => unreachable!(),
        }
    }
}
