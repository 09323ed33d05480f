// The rows of code and of directives, as their fields say them.

use vk_code::{Guard, Instr};
use vk_format::Items;
use vk_kinds::CType;

/// How the words of an argument hang together; its number says more.
#[derive(Clone, Copy, PartialEq, Eq, Debug)]
pub enum ShapeKind {
    /// Each lane has its own.
    Vector,
    /// All lanes have one.
    Uniform,
    /// It grows by the number from lane to lane.
    By,
    /// It grows by the parameter with the number.
    Along,
    /// It is the number in each lane.
    Literal,
    /// It is the parameter with the number.
    Same,
}

/// An argument of a call.
#[derive(Clone, Copy, PartialEq, Eq, Debug)]
pub struct ArgRow {
    pub reg: u16,
    pub kind: ShapeKind,
    /// A number in two's complement, 0 where the kind says all.
    pub value: u32,
}

/// A call.
#[derive(Drop)]
pub struct SlotRow {
    /// The function's number; in the code of an image the number of arguments.
    pub function: u32,
    /// Whether the call is made wherever the code is run.
    pub always: bool,
    /// The register that gets the result.
    pub result: Option<u16>,
    pub args: Items<ArgRow>,
}

/// Code up to its calls.
#[derive(Drop)]
pub struct FrontRow {
    /// Whether it may run at several lanes.
    pub lane_code: bool,
    /// The register of the result.
    pub result: Option<u16>,
    /// How many registers are parameters.
    pub params: usize,
    /// The type of each register.
    pub regs: Items<CType>,
    pub masks: u16,
    pub slots: Items<SlotRow>,
}

/// Code but for its simd loops.
#[derive(Drop)]
pub struct RoutineRow {
    pub front: FrontRow,
    pub instrs: Items<Instr>,
}

/// The body of a simd loop.
#[derive(Drop)]
pub enum BodyRow {
    /// Its code; in an object.
    Inline(RoutineRow),
    /// The number of its code; in an image.
    Number(u32),
}

/// A simd loop.
#[derive(Drop)]
pub struct LoopRow {
    pub simdlen: Option<u16>,
    pub low: u16,
    pub high: u16,
    pub captures: Items<u16>,
    pub guards: Items<Guard>,
    pub body: BodyRow,
}

/// Code.
#[derive(Drop)]
pub struct CodeRow {
    pub routine: RoutineRow,
    pub loops: Items<LoopRow>,
}

/// What a directive says of a parameter; its number says more.
#[derive(Clone, Copy, PartialEq, Eq, Debug)]
pub enum ParamKind {
    Vector,
    Uniform,
    /// It is linear by the number, in bytes for a pointer.
    By,
    /// It is linear by the parameter with the number.
    Along,
}

/// A parameter of a directive.
#[derive(Clone, Copy, PartialEq, Eq, Debug)]
pub struct ParamRow {
    pub kind: ParamKind,
    /// A number in two's complement, 0 where the kind says all.
    pub value: u32,
    /// The alignment in bytes.
    pub align: Option<u32>,
}
