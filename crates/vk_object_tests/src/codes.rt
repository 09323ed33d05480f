// Whether codes are those of the object with every kind of record.

use vk_code::{Body, Code, Guard, Instr, LoopSite, Operation, Shape, Slot, SlotArg};
use vk_kinds::CType;
use vk_types::{Ty, Word};

pub static INT: CType = CType::Int(Ty::I32);

pub static LONG: CType = CType::Int(Ty::I64);

pub static POINTER: CType = CType::Ptr {
    to: Ty::I32,
    written: true,
};

/// Lane code of three parameters that gives 5.
pub fn is_five(code: &Code) -> bool {
    let five = Instr::new(
        0,
        Operation::Const {
            ty: Ty::I32,
            d: 0,
            value: Word(5),
        },
    );
    let head = code.lane_code && code.params == 3 && code.result == Some(0) && code.masks == 1;
    let parts = code.slots.is_empty() && code.loops.is_empty();
    head && parts
        && code.regs.as_slice() == [INT, LONG, POINTER].as_slice()
        && code.instrs.as_slice() == [five].as_slice()
}

// The code of a loop that does nothing.
fn is_idle(code: &Code) -> bool {
    let head = code.lane_code && code.params == 2 && code.result == None && code.masks == 1;
    let parts = code.slots.is_empty() && code.loops.is_empty() && code.instrs.is_empty();
    head && parts && code.regs.as_slice() == [INT, POINTER].as_slice()
}

// A call of the first function.
fn is_call(slot: &Slot) -> bool {
    let shapes = [Shape::Vector, Shape::Uniform, Shape::By(4)];
    let args = [
        SlotArg {
            reg: 0,
            shape: shapes[0],
        },
        SlotArg {
            reg: 1,
            shape: shapes[1],
        },
        SlotArg {
            reg: 2,
            shape: shapes[2],
        },
    ];
    slot.function == 0
        && slot.always
        && slot.result == Some(3)
        && slot.args.as_slice() == args.as_slice()
}

// A loop from the number in register 0 up to that in register 3.
fn is_site(site: &LoopSite) -> bool {
    let guard = Guard {
        first: 2,
        second: 2,
    };
    let idle = match &site.body {
        Body::Own(code) => is_idle(code),
        Body::Number(_) => false,
    };
    let ends = site.simdlen == Some(4) && site.low == 0 && site.high == 3;
    ends && idle
        && site.captures.as_slice() == [2].as_slice()
        && site.guards.as_slice() == [guard].as_slice()
}

/// Code with a call and a loop.
pub fn is_calling(code: &Code) -> bool {
    let call = Instr::new(0, Operation::Call { slot: 0 });
    let run = Instr::new(0, Operation::SimdLoop { number: 0 });
    let head = !code.lane_code && code.params == 3 && code.result == None && code.masks == 2;
    let slots = match code.slots.as_slice() {
        [slot] => is_call(slot),
        _ => false,
    };
    let loops = match code.loops.as_slice() {
        [site] => is_site(site),
        _ => false,
    };
    let rows = code.regs.as_slice() == [INT, LONG, POINTER, INT].as_slice()
        && code.instrs.as_slice() == [call, run].as_slice();
    head && slots && loops && rows
}
