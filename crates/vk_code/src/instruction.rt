// One instruction, as its 16 bytes have it, and the operation that it stands for.

ghost use Rattle.std.specs.Prelude.{◌≡◌, Some};
ghost use Rattle.vk_code.specs.Instruction.{IsArithmetic, IsComparison, IsEncodable, block_of, comparison_numbered, field_b, field_c, field_x, has_zeros, operation_by, operation_of, operator_numbered, type_numbered, unary_numbered};

use crate::opcode::{Fields, Opcode};
use vk_types::{Op1, Op2, Ty, Word};

/// One instruction, as its bytes have it.
///
/// `op` is the number of an [`Opcode`], `ty` that of the operands' type (0 to 7 for `I8` to `U64`), `m` the mask, `d` the
/// register or mask written, `a` the first operand. `imm` is one number, or from its lowest bit on `b` (16 bits), `c`
/// (16 bits) and `x` (32 bits). Unused fields are 0.
#[derive(Clone, Copy, PartialEq, Eq, Debug)]
pub struct Instr {
    pub op: u8,
    pub ty: u8,
    pub m: u16,
    pub d: u16,
    pub a: u16,
    pub imm: u64,
}

/// What an instruction does in each lane that is live in its mask.
#[derive(Clone, Copy, PartialEq, Eq, Debug)]
pub enum Operation {
    /// `d := value`, canonical for `ty`.
    Const {
        ty: Ty,
        d: u16,
        value: Word,
    },
    /// `d := a`, of one type, or a read pointer from a written one.
    Copy {
        d: u16,
        a: u16,
    },
    /// `d := a`, converted to the type of `d`.
    Convert {
        d: u16,
        a: u16,
    },
    /// `d := a op b`, an arithmetic, bitwise or shift operator at `ty`.
    Binary {
        op: Op2,
        ty: Ty,
        d: u16,
        a: u16,
        b: u16,
    },
    /// `d := a op b`, a comparison at `ty`: 1 where it holds, else 0.
    Compare {
        op: Op2,
        ty: Ty,
        d: u16,
        a: u16,
        b: u16,
    },
    /// `d := op a` at `ty`.
    Unary {
        op: Op1,
        ty: Ty,
        d: u16,
        a: u16,
    },
    /// `d :=` the lane's number.
    Lane {
        d: u16,
    },
    /// `d :=` the element at `a`, converted to the type of `d`.
    Load {
        d: u16,
        a: u16,
    },
    /// The element at `a := b`, converted to its type.
    Store {
        a: u16,
        b: u16,
    },
    /// `d := a` moved by the number in `b`.
    PtrAdd {
        d: u16,
        a: u16,
        b: u16,
    },
    /// `d :=` the first element of an object or array.
    Addr {
        d: u16,
        object: u32,
    },
    /// Mask `d :=` the live lanes where `a` is not 0.
    MaskOf {
        d: u16,
        a: u16,
    },
    /// Mask `d := a` and `b`.
    MaskAnd {
        d: u16,
        a: u16,
        b: u16,
    },
    /// Mask `d := a` or `b`.
    MaskOr {
        d: u16,
        a: u16,
        b: u16,
    },
    /// Mask `d := a` and not `b`.
    MaskBut {
        d: u16,
        a: u16,
        b: u16,
    },
    /// Runs the next `count` instructions again and again, while a lane is live.
    Loop {
        count: u32,
    },
    /// Makes the call of a slot.
    Call {
        slot: u32,
    },
    /// Writes `a` as a decimal line.
    Print {
        a: u16,
    },
    /// Runs a simd loop.
    SimdLoop {
        number: u32,
    },
}

impl Instr {
    /// The instruction with this operation in the mask.
    pub fn new(mask: u16, operation: Operation) -> Instr
        requires encodable { IsEncodable mask operation }
        ensures operation { operation_of result ≡ Some operation }
        ensures mask { result.m ≡ mask }
    {
        match operation {
            Operation::Const { ty, d, value } => of_fields(
                Opcode::Const as u8,
                u8::from(ty),
                mask,
                d,
                0,
                value.0,
            ),
            Operation::Copy { d, a } => of_fields(Opcode::Copy as u8, 0, mask, d, a, 0),
            Operation::Convert { d, a } => of_fields(Opcode::Convert as u8, 0, mask, d, a, 0),
            Operation::Binary { op, ty, d, a, b } => of_fields(
                Opcode::Binary as u8,
                u8::from(ty),
                mask,
                d,
                a,
                immediate(b, operator_number(op)),
            ),
            Operation::Compare { op, ty, d, a, b } => of_fields(
                Opcode::Compare as u8,
                u8::from(ty),
                mask,
                d,
                a,
                immediate(b, comparison_number(op)),
            ),
            Operation::Unary { op, ty, d, a } => of_fields(
                Opcode::Unary as u8,
                u8::from(ty),
                mask,
                d,
                a,
                immediate(0, unary_number(op)),
            ),
            Operation::Lane { d } => of_fields(Opcode::Lane as u8, 0, mask, d, 0, 0),
            Operation::Load { d, a } => of_fields(Opcode::Load as u8, 0, mask, d, a, 0),
            Operation::Store { a, b } => of_fields(
                Opcode::Store as u8,
                0,
                mask,
                0,
                a,
                immediate(b, 0),
            ),
            Operation::PtrAdd { d, a, b } => of_fields(
                Opcode::PtrAdd as u8,
                0,
                mask,
                d,
                a,
                immediate(b, 0),
            ),
            Operation::Addr { d, object } => of_fields(
                Opcode::Addr as u8,
                0,
                mask,
                d,
                0,
                immediate(0, object),
            ),
            Operation::MaskOf { d, a } => of_fields(Opcode::MaskOf as u8, 0, mask, d, a, 0),
            Operation::MaskAnd { d, a, b } => of_fields(
                Opcode::MaskAnd as u8,
                0,
                mask,
                d,
                a,
                immediate(b, 0),
            ),
            Operation::MaskOr { d, a, b } => of_fields(
                Opcode::MaskOr as u8,
                0,
                mask,
                d,
                a,
                immediate(b, 0),
            ),
            Operation::MaskBut { d, a, b } => of_fields(
                Opcode::MaskBut as u8,
                0,
                mask,
                d,
                a,
                immediate(b, 0),
            ),
            Operation::Loop { count } => of_fields(
                Opcode::Loop as u8,
                0,
                mask,
                0,
                0,
                immediate(0, count),
            ),
            Operation::Call { slot } => of_fields(
                Opcode::Call as u8,
                0,
                mask,
                0,
                0,
                immediate(0, slot),
            ),
            Operation::Print { a } => of_fields(Opcode::Print as u8, 0, mask, 0, a, 0),
            Operation::SimdLoop { number } => of_fields(
                Opcode::SimdLoop as u8,
                0,
                mask,
                0,
                0,
                immediate(0, number),
            ),
        }
    }

    /// The operation that the instruction stands for, if it is one.
    pub fn operation(&self) -> Option<Operation>
        ensures { result ≡ operation_of self.now }
    {
        match Opcode::try_from(self.op) {
            Ok(opcode) => {
                if self.has_zeros(opcode.fields()) {
                    self.operation_by(opcode)
                } else {
                    None
                }
            }
            Err(_) => None,
        }
    }

    /// How many instructions its block has, where it has one.
    pub fn block(&self) -> Option<u32>
        ensures { result ≡ block_of self.now }
    {
        match self.operation() {
            Some(Operation::Loop { count }) => Some(count),
            _ => None,
        }
    }

    // Whether the fields that are not used are 0.
    fn has_zeros(&self, used: Fields) -> bool
        ensures { result ≡ has_zeros used self.now }
    {
        (used.ty || self.ty == 0)
            && (used.m || self.m == 0)
            && (used.d || self.d == 0)
            && (used.a || self.a == 0)
            && (used.b || self.b() == 0)
            && (used.c || self.c() == 0)
            && (used.x || self.x() == 0)
    }

    fn b(&self) -> u16
        ensures { result ≡ field_b self.now.imm }
    {
        (self.imm & 0xffff) as u16
    }

    fn c(&self) -> u16
        ensures { result ≡ field_c self.now.imm }
    {
        ((self.imm >> 16) & 0xffff) as u16
    }

    fn x(&self) -> u32
        ensures { result ≡ field_x self.now.imm }
    {
        (self.imm >> 32) as u32
    }

    // What the fields stand for, by the instruction.
    fn operation_by(&self, opcode: Opcode) -> Option<Operation>
        ensures { result ≡ operation_by opcode self.now }
    {
        let (d, a, b, x) = (self.d, self.a, self.b(), self.x());
        match opcode {
            Opcode::Const => {
                let ty = read_type(self.ty)?;
                Some(Operation::Const {
                    ty,
                    d,
                    value: Word(self.imm),
                })
            }
            Opcode::Copy => Some(Operation::Copy { d, a }),
            Opcode::Convert => Some(Operation::Convert { d, a }),
            Opcode::Binary => {
                let ty = read_type(self.ty)?;
                let op = read_operator(x)?;
                Some(Operation::Binary { op, ty, d, a, b })
            }
            Opcode::Compare => {
                let ty = read_type(self.ty)?;
                let op = read_comparison(x)?;
                Some(Operation::Compare { op, ty, d, a, b })
            }
            Opcode::Unary => {
                let ty = read_type(self.ty)?;
                let op = read_unary(x)?;
                Some(Operation::Unary { op, ty, d, a })
            }
            Opcode::Lane => Some(Operation::Lane { d }),
            Opcode::Load => Some(Operation::Load { d, a }),
            Opcode::Store => Some(Operation::Store { a, b }),
            Opcode::PtrAdd => Some(Operation::PtrAdd { d, a, b }),
            Opcode::Addr => Some(Operation::Addr { d, object: x }),
            Opcode::MaskOf => Some(Operation::MaskOf { d, a }),
            Opcode::MaskAnd => Some(Operation::MaskAnd { d, a, b }),
            Opcode::MaskOr => Some(Operation::MaskOr { d, a, b }),
            Opcode::MaskBut => Some(Operation::MaskBut { d, a, b }),
            Opcode::Loop => Some(Operation::Loop { count: x }),
            Opcode::Call => Some(Operation::Call { slot: x }),
            Opcode::Print => Some(Operation::Print { a }),
            Opcode::SimdLoop => Some(Operation::SimdLoop { number: x }),
        }
    }
}

// The instruction with these fields.
fn of_fields(op: u8, ty: u8, m: u16, d: u16, a: u16, imm: u64) -> Instr
    ensures { result ≡ record { op = op; ty = ty; m = m; d = d; a = a; imm = imm } }
{
    Instr {
        op,
        ty,
        m,
        d,
        a,
        imm,
    }
}

// The immediate with these fields b and x, whose field c is 0.
fn immediate(b: u16, x: u32) -> u64
    ensures b { field_b result ≡ b }
    ensures c { field_c result ≡ 0 }
    ensures x { field_x result ≡ x }
{
    u64::from(b) + (u64::from(x) << 32)
}

// The number of an operator of `Binary`.
fn operator_number(op: Op2) -> u32
    requires { IsArithmetic op }
    ensures { operator_numbered result ≡ Some op }
{
    op as u32
}

// The number of an operator of `Compare`.
fn comparison_number(op: Op2) -> u32
    requires { IsComparison op }
    ensures { comparison_numbered result ≡ Some op }
{
    op as u32 - Op2::Eq as u32
}

// The number of an operator of `Unary`.
fn unary_number(op: Op1) -> u32
    ensures { unary_numbered result ≡ Some op }
{
    op as u32
}

// The type with this number.
fn read_type(number: u8) -> Option<Ty>
    ensures { result ≡ type_numbered number }
{
    match Ty::try_from(number) {
        Ok(ty) => Some(ty),
        Err(_) => None,
    }
}

// The operator of a `Binary` with this number.
fn read_operator(number: u32) -> Option<Op2>
    ensures { result ≡ operator_numbered number }
{
    match number {
        0 => Some(Op2::Add),
        1 => Some(Op2::Sub),
        2 => Some(Op2::Mul),
        3 => Some(Op2::Div),
        4 => Some(Op2::Rem),
        5 => Some(Op2::And),
        6 => Some(Op2::Or),
        7 => Some(Op2::Xor),
        8 => Some(Op2::Shl),
        9 => Some(Op2::Shr),
        _ => None,
    }
}

// The operator of a `Compare` with this number.
fn read_comparison(number: u32) -> Option<Op2>
    ensures { result ≡ comparison_numbered number }
{
    match number {
        0 => Some(Op2::Eq),
        1 => Some(Op2::Ne),
        2 => Some(Op2::Lt),
        3 => Some(Op2::Le),
        _ => None,
    }
}

// The operator of a `Unary` with this number.
fn read_unary(number: u32) -> Option<Op1>
    ensures { result ≡ unary_numbered number }
{
    match number {
        0 => Some(Op1::Neg),
        1 => Some(Op1::Not),
        _ => None,
    }
}
