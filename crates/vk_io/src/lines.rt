//! Texts one behind another, and putting them.
ghost use Rattle.std.specs.Prelude.{◌≡◌, ℕ, List, [], ◌∷◌, ◌++◌, length, map, string_bytes, IsTrue, IsErrOf, IfOk, OnOk, OnErr};
ghost use Rattle.std.specs.List.{concat};
ghost use Rattle.vk_io.specs.Counts.{Rose, count_after};
ghost use Rattle.vk_io.specs.Inner.Lines.{Fill, pieces};
ghost use Rattle.vk_io.specs.Lines.{StopsAt};
ghost use Rattle.vk_io.specs.Sink.{Puts, Stays};

use crate::outside::Outside;
use crate::sink::Sink;
use std::alloc::Global;
use std::marker::Model;
use vk_memory::Memory;

/// Texts in one buffer, as the lines that a command prints. Its value is their list.
#[derive(Drop)]
pub struct Lines {
    bytes: Vec<u8>,
    lengths: Vec<usize>,
}

impl Model for Lines {
    ghost Value = { List (List ℕ) };

    ghost view = { λ lines. pieces lines.lengths.items lines.bytes.items };

    ghost invariant = { λ lines. Fill lines.lengths.items lines.bytes.items };
}

impl Lines {
    /// No text.
    pub fn new(alloc: Global) -> Lines
        ensures { result ≡ [] }
    {
        Lines {
            bytes: Vec::new(alloc),
            lengths: Vec::new(alloc),
        }
    }

    /// Adds a text behind the others.
    pub fn push(&mut self, line: &[u8]) -> Result<(), Memory>
        ensures ok { OnOk result (self.new ≡ self.old ++ line.now ∷ []) }
        ensures err { OnErr result (self.new ≡ self.old) }
    {
        self.lengths.reserve(1)?;
        self.bytes.extend_from_slice(line)?;
        if self.lengths.push(line.len()).is_err() {
            self.bytes.truncate(self.bytes.len() - line.len());
            return Err(Memory);
        }
        Ok(())
    }

    /// Copies of these texts.
    pub fn of_texts(alloc: Global, texts: &[String]) -> Result<Lines, Memory>
        ensures { IfOk result (λ lines. lines ≡ map string_bytes texts.now) }
    {
        let mut lines = Lines::new(alloc);
        for text in texts {
            lines.push(text.as_bytes())?;
        }
        Ok(lines)
    }
}

/// Puts each text with a call of its own, first to last, up to the first that fails.
pub fn put_lines<O: Sink>(out: &mut O, lines: &Lines) -> Result<(), Outside>
    ensures put { IsTrue (O.state out.old).tells →
        Puts (O.state out.old).bytes (O.state out.new).bytes result (concat lines.now) }
    ensures calls { OnOk result ((O.state out.new).calls ≡ count_after (O.state out.old).calls (length lines.now)) }
    ensures stopped { OnErr result (StopsAt lines.now (O.state out.old) (O.state out.new)) }
    ensures failed { IsErrOf result Outside.Failed → Rose (O.state out.old).faults (O.state out.new).faults }
    ensures memory { IsTrue (O.state out.old).is_lean → IsErrOf result Outside.Memory → ⊥ }
    ensures stays { Stays (O.state out.old) (O.state out.new) }
{
    let mut rest = lines.bytes.as_slice();
    for length in &lines.lengths {
        let (line, after) = rest.split_at(*length);
        out.put(line)?;
        rest = after;
    }
    Ok(())
}
