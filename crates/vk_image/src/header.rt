// Target, letter and vector length.

ghost use Rattle.std.specs.Prelude.{◌≡◌};
ghost use Rattle.vk_object.specs.Images.{is_letter, is_vl};

use vk_kinds::{Isa, Target};

/// Whether the letter is one of the target.
pub(crate) fn is_letter(target: Target, isa: Isa) -> bool
    ensures { result ≡ is_letter target isa }
{
    match target {
        Target::X86 => match isa {
            Isa::B | Isa::C | Isa::D | Isa::E => true,
            Isa::N | Isa::S => false,
        },
        Target::Arm => match isa {
            Isa::B | Isa::C | Isa::D | Isa::E => false,
            Isa::N | Isa::S => true,
        },
    }
}

/// Whether the vector length stands with its letter: one of SVE with `s`, and 0 with all others.
pub(crate) fn is_vl(isa: Isa, vl: u16) -> bool
    ensures { result ≡ is_vl isa vl }
{
    match isa {
        Isa::B | Isa::C | Isa::D | Isa::E | Isa::N => vl == 0,
        Isa::S => vl == 128 || vl == 256 || vl == 512 || vl == 1024 || vl == 2048,
    }
}
