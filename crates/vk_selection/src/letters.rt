// What letters are compiled for, and which variants an image for one uses.

ghost use Rattle.std.specs.Prelude.{◌≡◌};
ghost use Rattle.vk_selection.specs.Letters.{target_of, uses};

use vk_kinds::{Isa, Target};

/// The target that a letter belongs to.
pub fn target_of(isa: Isa) -> Target
    ensures { result ≡ target_of isa }
{
    match isa {
        Isa::B | Isa::C | Isa::D | Isa::E => Target::X86,
        Isa::N | Isa::S => Target::Arm,
    }
}

/// Whether an image for a letter uses variants of another one: its own, and those of the letters before it of the same target.
pub fn uses(image: Isa, letter: Isa) -> bool
    ensures { result ≡ uses image letter }
{
    match image {
        Isa::B => letter == Isa::B,
        Isa::C => letter == Isa::B || letter == Isa::C,
        Isa::D => letter == Isa::B || letter == Isa::C || letter == Isa::D,
        Isa::E => letter != Isa::N && letter != Isa::S,
        Isa::N => letter == Isa::N,
        Isa::S => letter == Isa::N || letter == Isa::S,
    }
}
