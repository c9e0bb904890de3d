// A sink in memory, whose failing calls are listed beforehand.
ghost use Rattle.std.specs.Prelude.{◌≡◌, ◌≤◌, ◌<◌, ◌+◌, ◌-◌, ◌⊎◌, ◌↔◌, ◌++◌, ◌∷◌, [], Some, IfOk, OnOk, OnErr, IsErr};
ghost use Rattle.std.specs.Prelude.{IsTrue, Contains, length, take, vec_len, vec_capacity};
ghost use Rattle.qc_io.specs.Calls.{FailsNext, with_failing, with_call, with_fault};
ghost use Rattle.qc_io.specs.Device.{Rose, AppendsFront};
ghost use Rattle.qc_io.specs.MemSink.{no_bytes, IsOverfull, what_fits};

use crate::calls::Calls;
use crate::{Failed, Sink};
use qc_containers::Memory;
use std::alloc::Global;
use std::marker::Model;

/// A sink in memory, with room that was reserved when it was made. Some of its calls of `put` may
/// be listed as failing. A clause sees a `SinkState`.
#[derive(Drop)]
pub struct MemSink {
    bytes: Vec<u8>,
    room: usize,
    calls: Calls,
}

impl Model for MemSink {
    ghost use Rattle.std.specs.Prelude.{◌≤◌, vec_len, vec_capacity};
    ghost use Rattle.qc_io.specs.MemSink.{SinkState};

    ghost Value = { SinkState };

    ghost view = { λ sink. record { bytes = sink.bytes.items; room = sink.room; calls = sink.calls } };

    // The bytes are within the room, and the room is reserved.
    ghost invariant = { λ sink. (vec_len sink.bytes ≤ sink.room) × (sink.room ≤ vec_capacity sink.bytes) };
}

impl MemSink {
    /// An empty sink with room for that many bytes, and no failing call.
    ///
    /// # Errors
    ///
    /// Where memory is wanting.
    pub fn new(alloc: Global, room: usize) -> Result<MemSink, Memory>
        ensures { IfOk result (λ sink. sink ≡ no_bytes room) }
    {
        let bytes = Vec::with_capacity(alloc, room)?;
        Ok(MemSink {
            bytes,
            room,
            calls: Calls::new(alloc),
        })
    }

    /// Lists a call of `put` that is to fail. The first call has the number 1.
    ///
    /// # Errors
    ///
    /// Where memory is wanting; the sink then is as it was.
    pub fn fail_at(&mut self, call: u64) -> Result<(), Memory>
        ensures ok { OnOk result (self.new
            ≡ record self.old { calls = with_failing self.old.calls call }) }
        ensures err { OnErr result (self.new ≡ self.old) }
    {
        self.calls.fail_at(call)
    }

    /// The bytes written so far.
    pub fn written(&self) -> &[u8]
        ensures { result.now ≡ self.now.bytes }
    {
        &self.bytes
    }
}

impl Sink for MemSink {
    ghost written = { λ sink. Some sink.bytes };

    ghost faults = { λ sink. sink.calls.faults };

    /// Writes a piece, as every sink. It fails exactly where the call is listed, and then takes
    /// nothing, or where the room is too small, and then takes what fits.
    fn put(&mut self, piece: &[u8]) -> Result<(), Failed>
        // What every sink ensures; `taken` has its `ok`.
        ensures err { OnErr result
            (AppendsFront (Some self.old.bytes) (Some self.new.bytes) piece.now) }
        ensures failed { OnErr result (Rose self.old.calls.faults self.new.calls.faults) }
        ensures count { self.old.calls.faults ≤ self.new.calls.faults }

        // When it fails, and the whole sink after the call.
        ensures refused { IsErr result
            ↔ (FailsNext self.old.calls ⊎ IsOverfull self.old piece.now) }
        ensures taken { OnOk result (self.new ≡ record self.old
            { bytes = self.old.bytes ++ piece.now; calls = with_call self.old.calls }) }
        ensures listed { FailsNext self.old.calls
            → self.new ≡ record self.old { calls = with_fault (with_call self.old.calls) } }
        ensures full { ¬ FailsNext self.old.calls → IsOverfull self.old piece.now
            → self.new ≡ record self.old
            { bytes = self.old.bytes ++ what_fits self.old piece.now; calls = with_fault (with_call self.old.calls) } }
    {
        if self.calls.count_call() {
            self.calls.count_fault();
            return Err(Failed);
        }
        if add_fitting(&mut self.bytes, self.room, piece) {
            return Ok(());
        }
        self.calls.count_fault();
        Err(Failed)
    }
}

// Adds what fits, and answers whether all of it did.
fn add_fitting(bytes: &mut Vec<u8>, room: usize, piece: &[u8]) -> bool
    requires within { vec_len bytes.old ≤ room }
    requires reserved { room ≤ vec_capacity bytes.old }
    ensures within { vec_len bytes.new ≤ room }
    ensures reserved { room ≤ vec_capacity bytes.new }
    ensures added { bytes.new.items ≡ bytes.old.items ++ take (room - vec_len bytes.old) piece.now }
    ensures all { IsTrue result ↔ (vec_len bytes.old + length piece.now ≤ room) }
{
    let fits = piece.len().min(room - bytes.len());
    // The room is reserved, so memory suffices.
    let _ = bytes.extend_from_slice(&piece[..fits]);
    fits == piece.len()
}
