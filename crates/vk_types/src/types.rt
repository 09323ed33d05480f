// The types, words, operators and stops.

/// An integer type: `I` signed, `U` unsigned, with its width in bits.
///
/// On LP64 these are `signed char` to `unsigned long` (C17 6.2.5); `long long` is `long`.
#[derive(Clone, Copy, PartialEq, Eq, Debug)]
pub enum Ty {
    I8,
    I16,
    I32,
    I64,
    U8,
    U16,
    U32,
    U64,
}

/// A number that no type has.
#[derive(Clone, Copy, PartialEq, Eq, Debug)]
pub struct UnknownType(pub u8);

impl From<Ty> for u8 {
    ghost use Rattle.std.specs.Prelude.{◌≡◌};
    ghost use Rattle.vk_types.specs.Formats.{type_number};

    ghost from_gives = { λ t n. n ≡ type_number t };

    fn from(t: Ty) -> u8 {
        match t {
            Ty::I8 => 0,
            Ty::I16 => 1,
            Ty::I32 => 2,
            Ty::I64 => 3,
            Ty::U8 => 4,
            Ty::U16 => 5,
            Ty::U32 => 6,
            Ty::U64 => 7,
        }
    }
}

impl TryFrom<u8> for Ty {
    ghost use Rattle.vk_types.specs.Formats.{IsTypeNumbered};

    type Error = UnknownType;

    ghost try_from_gives = { IsTypeNumbered };

    fn try_from(number: u8) -> Result<Ty, UnknownType> {
        match number {
            0 => Ok(Ty::I8),
            1 => Ok(Ty::I16),
            2 => Ok(Ty::I32),
            3 => Ok(Ty::I64),
            4 => Ok(Ty::U8),
            5 => Ok(Ty::U16),
            6 => Ok(Ty::U32),
            7 => Ok(Ty::U64),
            _ => Err(UnknownType(number)),
        }
    }
}

/// The 64-bit pattern of a number, sign or zero extended by its type.
#[derive(Clone, Copy, PartialEq, Eq, Debug)]
pub struct Word(pub u64);

/// Why a computation ended without a value.
#[derive(Clone, Copy, PartialEq, Eq, Debug)]
pub enum Stop {
    /// A division or remainder by 0.
    Divide,
    /// A pointer out of range, or an access outside its array.
    Bounds,
    /// A loop that went on after the last turn that it may make.
    Turns,
}

/// A binary operator on two integers.
#[derive(Clone, Copy, PartialEq, Eq, Debug)]
pub enum Op2 {
    Add,
    Sub,
    Mul,
    Div,
    Rem,
    And,
    Or,
    Xor,
    Shl,
    Shr,
    Eq,
    Ne,
    Lt,
    Le,
}

/// A unary operator on an integer: `-` and `~`.
#[derive(Clone, Copy, PartialEq, Eq, Debug)]
pub enum Op1 {
    Neg,
    Not,
}
