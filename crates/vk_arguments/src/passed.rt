// What is called, and the words that are passed to it.

ghost use Rattle.std.specs.Prelude.{◌≡◌, ◌*◌, ◌<◌, ◌≤◌, ◌^◌, length};
ghost use Rattle.vk_lanes.specs.Words.{word_in};
ghost use Rattle.vk_arguments.specs.Arguments.{passed};

use vk_kinds::{CType, Param};
use vk_types::Word;

/// Code that is called on lanes.
#[derive(Clone, Copy)]
pub struct Callee<'a> {
    /// The types of its parameters.
    pub types: &'a [CType],
    /// Its parameters as a directive describes them; none for scalar code, whose lanes each have their own arguments.
    pub params: &'a [Param],
    /// How many lanes it has, 1 to 256.
    pub lanes: usize,
    /// Whether lanes may be off.
    pub takes_mask: bool,
}

/// The word of a parameter in a lane, of words that stand one parameter after another; 0 where there is none.
pub fn word_of(words: &[Word], lanes: usize, parameter: usize, lane: usize) -> Word
    requires parameter { parameter < 2 ^ 32 }
    requires lane { lane < lanes }
    requires lanes { lanes ≤ 256 }
    ensures { result.0 ≡ passed lanes words.now parameter lane }
{
    words
        .get(parameter * lanes + lane)
        .copied()
        .unwrap_or(Word(0))
}
