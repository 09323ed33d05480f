// Code that is appended, a register for each value.

ghost use Rattle.std.specs.Prelude.{◌≡◌, true, pos};
ghost use Rattle.std.specs.List.{list_all};
ghost use Rattle.vk_types.specs.Numbers.{IsCanonical, number_of, wrap_number};
ghost use Rattle.vk_flat.specs.Values.{is_value};

use vk_code::{Instr, Slot};
use vk_kinds::CType;
use vk_types::{Ty, Word, wrap};

/// What has been written of a code: how many registers are parameters, the type of each register, which is no `void`, how many masks
/// there are, the calls and the instructions.
#[derive(Drop)]
pub struct Emitter {
    pub params: u16,
    pub regs: Vec<CType>,
    pub masks: u16,
    pub slots: Vec<Slot>,
    pub instrs: Vec<Instr>,
    ghost values: { list_all is_value regs.items ≡ true },
}

/// A register and the type of the number in it.
#[derive(Clone, Copy, PartialEq, Eq, Debug)]
pub struct Place {
    pub register: u16,
    pub ty: Ty,
}

/// Where code comes: the mask that it runs under, and the first mask that it may write.
#[derive(Clone, Copy, PartialEq, Eq, Debug)]
pub struct Under {
    pub mask: u16,
    pub free: u16,
}

/// The word of the number `n`, as one of the type.
pub fn word_of(ty: Ty, n: u64) -> Word
    ensures number { number_of ty result.0 ≡ wrap_number ty (pos n) }
    ensures canonical { IsCanonical ty result.0 }
{
    wrap(ty, i128::from(n))
}
