// The numbers of the instructions, and the fields that each uses.

ghost use Rattle.std.specs.Prelude.{◌≡◌};
ghost use Rattle.vk_code.specs.Instruction.{IsOpcodeOf, fields_of};

/// The number of an instruction.
#[derive(Clone, Copy, PartialEq, Eq, Debug)]
pub enum Opcode {
    Const,
    Copy,
    Convert,
    Binary,
    Compare,
    Unary,
    Lane,
    Load,
    Store,
    PtrAdd,
    Addr,
    MaskOf,
    MaskAnd,
    MaskOr,
    MaskBut,
    Loop,
    Call,
    Print,
    SimdLoop,
}

/// A number of no instruction.
#[derive(Clone, Copy, PartialEq, Eq, Debug)]
pub struct UnknownOpcode(pub u8);

/// Which fields of an instruction are used. `b`, `c` and `x` are the parts of the immediate.
#[derive(Clone, Copy, PartialEq, Eq, Debug)]
pub struct Fields {
    pub ty: bool,
    pub m: bool,
    pub d: bool,
    pub a: bool,
    pub b: bool,
    pub c: bool,
    pub x: bool,
}

impl TryFrom<u8> for Opcode {
    type Error = UnknownOpcode;

    ghost try_from_gives = { IsOpcodeOf };

    fn try_from(number: u8) -> Result<Opcode, UnknownOpcode> {
        match number {
            0 => Ok(Opcode::Const),
            1 => Ok(Opcode::Copy),
            2 => Ok(Opcode::Convert),
            3 => Ok(Opcode::Binary),
            4 => Ok(Opcode::Compare),
            5 => Ok(Opcode::Unary),
            6 => Ok(Opcode::Lane),
            7 => Ok(Opcode::Load),
            8 => Ok(Opcode::Store),
            9 => Ok(Opcode::PtrAdd),
            10 => Ok(Opcode::Addr),
            11 => Ok(Opcode::MaskOf),
            12 => Ok(Opcode::MaskAnd),
            13 => Ok(Opcode::MaskOr),
            14 => Ok(Opcode::MaskBut),
            15 => Ok(Opcode::Loop),
            16 => Ok(Opcode::Call),
            17 => Ok(Opcode::Print),
            18 => Ok(Opcode::SimdLoop),
            _ => Err(UnknownOpcode(number)),
        }
    }
}

impl Opcode {
    /// The fields that the instruction uses; the others are 0.
    pub fn fields(self) -> Fields
        ensures { result ≡ fields_of self }
    {
        let none = Fields {
            ty: false,
            m: true,
            d: false,
            a: false,
            b: false,
            c: false,
            x: false,
        };
        match self {
            Opcode::Const => Fields {
                ty: true,
                d: true,
                b: true,
                c: true,
                x: true,
                ..none
            },
            Opcode::Copy | Opcode::Convert | Opcode::Load | Opcode::MaskOf => Fields {
                d: true,
                a: true,
                ..none
            },
            Opcode::Binary | Opcode::Compare => Fields {
                ty: true,
                d: true,
                a: true,
                b: true,
                x: true,
                ..none
            },
            Opcode::Unary => Fields {
                ty: true,
                d: true,
                a: true,
                x: true,
                ..none
            },
            Opcode::Lane => Fields { d: true, ..none },
            Opcode::Store => Fields {
                a: true,
                b: true,
                ..none
            },
            Opcode::PtrAdd => Fields {
                d: true,
                a: true,
                b: true,
                ..none
            },
            Opcode::Addr => Fields {
                d: true,
                x: true,
                ..none
            },
            Opcode::MaskAnd | Opcode::MaskOr | Opcode::MaskBut => Fields {
                m: false,
                d: true,
                a: true,
                b: true,
                ..none
            },
            Opcode::Loop | Opcode::Call | Opcode::SimdLoop => Fields { x: true, ..none },
            Opcode::Print => Fields { a: true, ..none },
        }
    }
}
