ghost use Rattle.std.specs.Prelude.{◌≡◌, ◌≤◌, ◌⊎◌, Some, true, false, [], is_err, IfOk, OnOk, OnErr};
ghost use Rattle.satp_base.specs.Streams.{Rose, Gains};
ghost use Rattle.satp_memory.specs.Calling.{fresh, is_due, naming, stepped, succeeded, wanting};

use crate::calls::Calls;
use satp_base::{Memory, Sink, SinkFault};
use std::alloc::Global;
use std::marker::Model;

/// Takes bytes into memory, until a write has failed. A write fails where [`MemSink::fail`] named it, and beside that only where it found no memory.
#[derive(Drop)]
pub struct MemSink {
    bytes: Vec<u8>,
    failed: bool,
    calls: Calls,
}

impl Model for MemSink {
    ghost use Rattle.satp_memory.specs.Streaming.{Taking};

    ghost Value = { Taking };

    ghost view = { λ s. record { bytes = s.bytes.items; failed = s.failed; calls = s.calls } };
}

impl MemSink {
    /// A sink that has taken nothing.
    pub fn new(alloc: Global) -> Result<MemSink, Memory>
        ensures { IfOk result (λ sink. sink ≡ record { bytes = []; failed = false; calls = fresh }) }
    {
        Ok(MemSink {
            bytes: Vec::new(alloc),
            failed: false,
            calls: Calls::new(alloc),
        })
    }

    /// The bytes that were taken.
    pub fn bytes(&self) -> &[u8]
        ensures { result.now ≡ self.now.bytes }
    {
        self.bytes.as_slice()
    }

    /// Makes the write of this number, from 1, fail. `Memory` where none was found to note it.
    pub fn fail(&mut self, call: u64) -> Result<(), Memory>
        ensures ok { OnOk result (self.new ≡ record self.old { calls = naming call self.old.calls }) }
        ensures err { OnErr result (self.new ≡ self.old) }
    {
        self.calls.fail(call)
    }

    /// How many writes there were.
    pub fn count(&self) -> u64
        ensures { result ≡ self.now.calls.count }
    {
        self.calls.count()
    }

    /// How many writes failed because no memory was found.
    pub fn wants(&self) -> u64
        ensures { result ≡ self.now.calls.wants }
    {
        self.calls.wants()
    }
}

impl Sink for MemSink {
    ghost faults = { λ s. s.calls.faults };

    ghost taken = { λ s. Some s.bytes };

    ghost has_failed = { λ s. s.failed };

    fn write(&mut self, piece: &[u8]) -> Result<usize, SinkFault>
        requires { self.old.failed ≡ false }
        ensures failed { self.new.failed ≡ is_err result }
        ensures faults { self.old.calls.faults ≤ self.new.calls.faults }
        ensures kept { OnOk result (self.new.calls.faults ≡ self.old.calls.faults) }
        ensures rose { OnErr result (Rose self.old.calls.faults self.new.calls.faults) }
        ensures ok { IfOk result (λ n. Gains (Some self.old.bytes) piece.now n (Some self.new.bytes)) }
        ensures err { OnErr result (self.new.bytes ≡ self.old.bytes) }
        ensures done { OnOk result ((is_due self.old.calls ≡ false) × (self.new.calls ≡ succeeded self.old.calls)) }
        ensures due { OnErr result (((is_due self.old.calls ≡ true) × (self.new.calls ≡ stepped self.old.calls)) ⊎ (self.new.calls ≡ wanting (succeeded self.old.calls))) }
    {
        if self.calls.begin(false) {
            self.failed = true;
            return Err(SinkFault);
        }
        match self.bytes.extend_from_slice(piece) {
            Ok(()) => Ok(piece.len()),
            Err(_) => {
                self.failed = true;
                self.calls.want();
                Err(SinkFault)
            }
        }
    }
}
