//! A writer, as standard output, as a sink.
ghost use Rattle.std.specs.Prelude.{◌≡◌, [], true, false};

use crate::outside::Outside;
use crate::sink::Sink;
use std::io::Write;

/// A sink over a writer, as standard output or standard error.
///
/// It tells no bytes, and is lean: its `put` never answers `Memory`.
#[derive(Drop)]
pub struct StreamSink<W: Write + Drop> {
    writer: W,
    calls: u64,
    faults: u64,
}

impl<W: Write + Drop> StreamSink<W> {
    /// A sink over `writer` with no faults yet.
    pub fn new(writer: W) -> StreamSink<W>
        ensures calls { (⟦<StreamSink<W> as Sink>⟧.state result).calls ≡ 0 }
        ensures faults { (⟦<StreamSink<W> as Sink>⟧.state result).faults ≡ 0 }
        ensures lean { (⟦<StreamSink<W> as Sink>⟧.state result).is_lean ≡ true }
    {
        StreamSink {
            writer,
            calls: 0,
            faults: 0,
        }
    }
}

impl<W: Write + Drop> Sink for StreamSink<W> {
    ghost state = { λ sink. record { tells = false; bytes = []; calls = sink.calls; faults = sink.faults; is_lean = true } };

    fn put(&mut self, piece: &[u8]) -> Result<(), Outside> {
        self.calls = self.calls.saturating_add(1);
        let written = self
            .writer
            .write_all(piece)
            .and_then(|_| self.writer.flush());
        if written.is_err() {
            self.faults = self.faults.saturating_add(1);
            return Err(Outside::Failed);
        }
        Ok(())
    }
}
