// A stream of the system as a sink, which tells no bytes.
ghost use Rattle.std.specs.Bool.{OnTrue};
ghost use Rattle.std.specs.Io.KnownBytes.{Appends};
ghost use Rattle.std.specs.Prelude.{None};

use crate::{Failed, Sink};
use std::io::Write;

/// A stream of the system. It tells no bytes, and counts a fault at each `Failed`, that of a stream
/// which takes nothing too. Give it a stream that holds nothing back, as standard output: it does
/// not flush.
#[derive(Drop)]
pub struct StdSink<W: Write + Drop> {
    stream: W,
    faults: u64,
}

impl<W: Write + Drop> StdSink<W> {
    /// A sink that writes to the stream, with no fault so far.
    pub fn new(stream: W) -> StdSink<W> {
        StdSink { stream, faults: 0 }
    }
}

impl<W: Write + Drop> Sink for StdSink<W> {
    ghost written = { λ _. None };

    ghost faults = { λ sink. sink.faults };

    fn put(&mut self, piece: &[u8]) -> Result<(), Failed> {
        if write_whole(&mut self.stream, piece) {
            return Ok(());
        }
        self.faults = self.faults.saturating_add(1);
        Err(Failed)
    }
}

// Whether the stream took all of the piece. Each turn takes a byte at least. `whole` speaks of a
// stream that tells what it holds; those of the system tell nothing.
fn write_whole<W: Write>(stream: &mut W, piece: &[u8]) -> bool
    ensures whole { OnTrue result (Appends (W.contents stream.old) (W.contents stream.new) piece.now) }
{
    let mut rest = piece;
    while !rest.is_empty() {
        match stream.write(rest) {
            Err(_) | Ok(0) => return false,
            Ok(taken) => rest = &rest[taken..],
        }
    }
    true
}
