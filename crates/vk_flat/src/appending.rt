// A register, masks or an instruction more.

ghost use Rattle.std.specs.Prelude.{◌≡◌, ◌<◌, length, OnOk, IfOk};
ghost use Rattle.vk_code.specs.Instruction.{IsEncodable};
ghost use Rattle.vk_flat.specs.Emitters.{HasPut, with_masks, with_register, written_of};

use crate::emitter::{Emitter, Place};
use std::alloc::AllocError;
use vk_code::{Instr, Operation};
use vk_kinds::CType;
use vk_types::Ty;

impl Emitter {
    /// A new register.
    pub fn fresh(&mut self, ty: Ty) -> Result<Place, AllocError>
        requires room { length self.old.regs.items < 65536 }
        ensures written { IfOk result (λ d. written_of self.new ≡ with_register (written_of self.old) d.ty) }
        ensures register { IfOk result (λ d. d.register ≡ length self.old.regs.items) }
        ensures ty { IfOk result (λ d. d.ty ≡ ty) }
    {
        let register = self.regs.len() as u16;
        self.regs.push(CType::Int(ty))?;
        Ok(Place { register, ty })
    }

    /// At least so many masks.
    pub fn with_masks(&mut self, count: u16)
        ensures { written_of self.new ≡ with_masks (written_of self.old) count }
    {
        if self.masks < count {
            self.masks = count;
        }
    }

    /// Appends an instruction.
    pub fn put(&mut self, mask: u16, operation: Operation) -> Result<(), AllocError>
        requires { IsEncodable mask operation }
        ensures { OnOk result (HasPut (written_of self.old) (written_of self.new) mask operation) }
    {
        let instr = Instr::new(mask, operation);
        self.instrs.push(instr)?;
        Ok(())
    }
}
