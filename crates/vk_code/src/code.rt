// The code of one function.

use crate::instruction::Instr;
use vk_kinds::CType;

/// The code of one function.
///
/// The first registers are the parameters. Register and mask numbers are from 0; mask 0 has the lanes that the call gave.
#[cycle(code)]
#[derive(Drop)]
pub struct Code {
    /// Whether it may run at several lanes.
    pub lane_code: bool,
    /// How many registers are parameters.
    pub params: u16,
    /// The register of the result, where there is one.
    pub result: Option<u16>,
    /// The type of each register.
    pub regs: Vec<CType>,
    /// How many masks there are, at least 1.
    pub masks: u16,
    /// The calls.
    pub slots: Vec<Slot>,
    /// The simd loops.
    pub loops: Vec<LoopSite>,
    pub instrs: Vec<Instr>,
}

/// A call.
#[derive(Drop)]
pub struct Slot {
    /// The function's number; in the code of an image the number of arguments.
    pub function: u32,
    /// Whether the call is made wherever the code is run.
    pub always: bool,
    /// The register that gets the result.
    pub result: Option<u16>,
    pub args: Vec<SlotArg>,
}

/// An argument of a call: its register, and how the lanes' words of it hang together.
#[derive(Clone, Copy, PartialEq, Eq, Debug)]
pub struct SlotArg {
    pub reg: u16,
    pub shape: Shape,
}

/// How the words of an argument hang together.
#[derive(Clone, Copy, PartialEq, Eq, Debug)]
pub enum Shape {
    /// Each lane has its own.
    Vector,
    /// All lanes have one.
    Uniform,
    /// It grows by this constant from lane to lane.
    By(i32),
    /// It grows by the parameter with this number.
    Along(u8),
    /// It is this number in each lane.
    Literal(i32),
    /// It is the parameter with this number.
    Same(u8),
}

/// A simd loop: from the number in the register `low` up to that in `high`, exclusively.
#[cycle(code)]
#[derive(Drop)]
pub struct LoopSite {
    /// The number of lanes that the loop asks for: a power of two from 2 to 256.
    pub simdlen: Option<u16>,
    pub low: u16,
    pub high: u16,
    /// The registers that the body gets beside its number.
    pub captures: Vec<u16>,
    /// The pointers that must name different arrays.
    pub guards: Vec<Guard>,
    pub body: Body,
}

/// Two registers whose pointers must name different arrays.
#[derive(Clone, Copy, PartialEq, Eq, Debug)]
pub struct Guard {
    pub first: u16,
    pub second: u16,
}

/// The body of a simd loop.
#[cycle(code)]
#[derive(Drop)]
pub enum Body {
    /// Its code; in an object.
    Own(Box<Code>),
    /// The number of its code; in an image.
    Number(u32),
}
