// Pointers that are moved, loads and stores.

ghost use Rattle.std.specs.Prelude.{◌≡◌, ◌≢◌, ◌+◌, ◌≤◌, ◌<◌, length, OnOk, IfOk};
ghost use Rattle.vk_types.specs.declared.types.Ty.TheVariants.{U64};
ghost use Rattle.vk_flat.specs.Emitters.{HasBase, IsPlace, written_of};
ghost use Rattle.vk_flat_pointers.specs.Pieces.{HasLoaded, HasMoved, HasStored, HasTurned, IsPointerPlace, in_register, with_pointer};

use crate::homes::Pointer;
use std::alloc::AllocError;
use vk_code::Operation;
use vk_flat::{Emitter, Place, Under};
use vk_kinds::CType;
use vk_types::{Op1, Ty};

/// A new register for a pointer of the same kind.
pub fn fresh_pointer(emitter: &mut Emitter, kind: Pointer) -> Result<Pointer, AllocError>
    requires room { length emitter.old.regs.items < 65536 }
    ensures written { OnOk result (written_of emitter.new ≡ with_pointer (written_of emitter.old) kind) }
    ensures pointer { IfOk result (λ d. d ≡ in_register kind (length emitter.old.regs.items)) }
{
    let register = emitter.regs.len() as u16;
    emitter.regs.push(CType::Ptr {
        to: kind.to,
        written: kind.written,
    })?;
    Ok(Pointer { register, ..kind })
}

/// The pointer, moved by a number.
pub fn advance(
    emitter: &mut Emitter,
    base: Pointer,
    by: Place,
    under: Under,
) -> Result<Pointer, AllocError>
    requires running { under.mask < emitter.old.masks }
    requires params { emitter.old.params ≤ length emitter.old.regs.items }
    requires base { IsPointerPlace (written_of emitter.old) base }
    requires by { IsPlace (written_of emitter.old) by }
    requires room { length emitter.old.regs.items < 65535 }
    ensures code { IfOk result (λ d. HasMoved (written_of emitter.old) (written_of emitter.new) base by d under) }
    ensures pointer { IfOk result (λ d. d ≡ in_register base (length emitter.old.regs.items)) }
    ensures base { OnOk result (HasBase emitter.old emitter.new 1) }
{
    let d = fresh_pointer(emitter, base)?;
    emitter.put(
        under.mask,
        Operation::PtrAdd {
            d: d.register,
            a: base.register,
            b: by.register,
        },
    )?;
    Ok(d)
}

/// The element that the pointer points to.
pub fn load(emitter: &mut Emitter, p: Pointer, under: Under) -> Result<Place, AllocError>
    requires running { under.mask < emitter.old.masks }
    requires params { emitter.old.params ≤ length emitter.old.regs.items }
    requires pointer { IsPointerPlace (written_of emitter.old) p }
    requires room { length emitter.old.regs.items < 65535 }
    ensures code { IfOk result (λ d. HasLoaded (written_of emitter.old) (written_of emitter.new) p d under) }
    ensures ty { IfOk result (λ d. d.ty ≡ p.to) }
    ensures base { OnOk result (HasBase emitter.old emitter.new 1) }
{
    let d = emitter.fresh(p.to)?;
    emitter.put(
        under.mask,
        Operation::Load {
            d: d.register,
            a: p.register,
        },
    )?;
    Ok(d)
}

/// The number is stored where the pointer points.
pub fn store(emitter: &mut Emitter, p: Pointer, a: Place, under: Under) -> Result<(), AllocError>
    requires running { under.mask < emitter.old.masks }
    requires pointer { IsPointerPlace (written_of emitter.old) p }
    requires value { IsPlace (written_of emitter.old) a }
    requires same { a.ty ≡ p.to }
    ensures code { OnOk result (HasStored (written_of emitter.old) (written_of emitter.new) p a under) }
    ensures base { OnOk result (HasBase emitter.old emitter.new 0) }
{
    emitter.put(
        under.mask,
        Operation::Store {
            a: p.register,
            b: a.register,
        },
    )
}

/// The opposite of a number, as one that pointers are moved by.
pub fn turn(emitter: &mut Emitter, n: Place, under: Under) -> Result<Place, AllocError>
    requires running { under.mask < emitter.old.masks }
    requires free { under.mask < under.free }
    requires params { emitter.old.params ≤ length emitter.old.regs.items }
    requires operand { IsPlace (written_of emitter.old) n }
    requires narrow { n.ty ≢ U64 }
    requires room { length emitter.old.regs.items + 3 < 65536 }
    ensures code { IfOk result (λ d. HasTurned (written_of emitter.old) (written_of emitter.new) n d under) }
    ensures base { OnOk result (HasBase emitter.old emitter.new 3) }
{
    let long = emitter.convert(n, Ty::I64, under)?;
    emitter.apply(Op1::Neg, long, under)
}
