// Why no expression was read.

ghost use Rattle.std.specs.Prelude.{◌≡◌};
ghost use Rattle.vk_parse_expr.specs.declared.fail.ReadFail.TheVariants.{Memory as MemoryFail};

use std::alloc::{AllocError, AllocFailed};
use vk_grammar_expr::Sym;
use vk_memory::Memory;

/// Why no expression was read. A place is told as the number of tokens that are left from it on: 0 is the end.
#[derive(Clone, Copy, PartialEq, Eq, Debug)]
pub enum ReadFail {
    /// The first token that no text of the grammar has there: the place of C5.
    Syntax(usize),
    /// A token up to which the tokens begin some text of the grammar, each such text being too high: a place of C6.
    Deep(usize),
    /// An allocation failed.
    Memory,
}

/// What was read at the front of tokens, and the tokens behind it.
pub type Read<'a, T> = Result<(T, &'a [Sym]), ReadFail>;

impl From<Memory> for ReadFail {
    ghost from_gives = { λ _ fail. fail ≡ MemoryFail };

    fn from(_: Memory) -> ReadFail {
        ReadFail::Memory
    }
}

impl From<AllocError> for ReadFail {
    ghost from_gives = { λ _ fail. fail ≡ MemoryFail };

    fn from(_: AllocError) -> ReadFail {
        ReadFail::Memory
    }
}

impl<T: Drop> From<AllocFailed<T>> for ReadFail {
    ghost from_gives = { λ _ fail. fail ≡ MemoryFail };

    fn from(_: AllocFailed<T>) -> ReadFail {
        ReadFail::Memory
    }
}
