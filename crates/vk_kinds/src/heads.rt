// The types of functions.

ghost use Rattle.std.specs.Prelude.{◌≡◌};
ghost use Rattle.vk_kinds.specs.Types.{integer_of};

use crate::limits::MAX_PARAMETERS;
use arrayvec::ArrayVec;
use vk_types::{Ty, UnknownType};

/// The type of a parameter or a result.
#[derive(Clone, Copy, PartialEq, Eq, Default, Debug)]
pub enum CType {
    /// No value; of results alone.
    #[default]
    Void,
    Int(Ty),
    /// A pointer, `const` unless `written`.
    Ptr { to: Ty, written: bool },
}

impl CType {
    /// The type of an integer.
    pub fn integer(self) -> Option<Ty>
        ensures { result ≡ integer_of self }
    {
        match self {
            CType::Int(ty) => Some(ty),
            CType::Void | CType::Ptr { .. } => None,
        }
    }
}

impl From<CType> for u8 {
    ghost use Rattle.std.specs.Prelude.{◌≡◌};
    ghost use Rattle.vk_kinds.specs.Types.{ctype_number};

    ghost from_gives = { λ c n. n ≡ ctype_number c };

    fn from(ctype: CType) -> u8 {
        match ctype {
            CType::Void => 255,
            CType::Int(ty) => u8::from(ty),
            CType::Ptr { to, written: true } => 8 + u8::from(to),
            CType::Ptr { to, written: false } => 16 + u8::from(to),
        }
    }
}

impl TryFrom<u8> for CType {
    ghost use Rattle.vk_kinds.specs.Types.{IsCTypeNumbered};

    type Error = UnknownType;

    ghost try_from_gives = { IsCTypeNumbered };

    fn try_from(number: u8) -> Result<CType, UnknownType> {
        match number {
            0..8 => Ok(CType::Int(Ty::try_from(number)?)),
            8..16 => Ok(CType::Ptr {
                to: Ty::try_from(number - 8)?,
                written: true,
            }),
            16..24 => Ok(CType::Ptr {
                to: Ty::try_from(number - 16)?,
                written: false,
            }),
            255 => Ok(CType::Void),
            _ => Err(UnknownType(number)),
        }
    }
}

/// The types of at most 64 parameters.
pub type Types = ArrayVec<CType, MAX_PARAMETERS>;

/// The types of a function.
#[derive(Drop, PartialEq, Eq, Debug)]
pub struct Head {
    pub result: CType,
    pub params: Types,
}
