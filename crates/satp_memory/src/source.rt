ghost use Rattle.std.specs.Prelude.{◌≡◌, ◌≤◌, ◌↔◌, false, length, Some, IsTrue, IsErr, IfOk, OnOk, OnErr};
ghost use Rattle.satp_base.specs.Streams.{Rose, TakesFront, is_last};
ghost use Rattle.satp_memory.specs.Calling.{fresh, is_due, naming, stepped};

use crate::calls::Calls;
use satp_base::{Memory, Source, SourceFault};
use std::alloc::Global;
use std::marker::Model;

/// Bytes in memory that are read once, until a read has found their end or failed. A read fails exactly where [`MemSource::fail`] named it, and takes no memory.
#[derive(Drop)]
pub struct MemSource {
    bytes: Vec<u8>,
    place: usize,
    over: bool,
    calls: Calls,
}

impl Model for MemSource {
    ghost use Rattle.std.specs.Prelude.{◌≤◌, length, drop};
    ghost use Rattle.satp_memory.specs.Streaming.{Supply};

    ghost Value = { Supply };

    ghost view = { λ s. record { left = drop s.place s.bytes.items; over = s.over; calls = s.calls } };

    ghost invariant = { λ s. s.place ≤ length s.bytes.items };
}

impl MemSource {
    /// A source of these bytes. `Memory` where none was found for a copy of them.
    pub fn new(alloc: Global, bytes: &[u8]) -> Result<MemSource, Memory>
        ensures { IfOk result (λ source. source ≡ record { left = bytes.now; over = false; calls = fresh }) }
    {
        Ok(MemSource {
            bytes: Vec::from_slice(alloc, bytes)?,
            place: 0,
            over: false,
            calls: Calls::new(alloc),
        })
    }

    /// Makes the read of this number, from 1, fail. `Memory` where none was found to note it.
    pub fn fail(&mut self, call: u64) -> Result<(), Memory>
        ensures ok { OnOk result (self.new ≡ record self.old { calls = naming call self.old.calls }) }
        ensures err { OnErr result (self.new ≡ self.old) }
    {
        self.calls.fail(call)
    }

    /// How many reads there were.
    pub fn count(&self) -> u64
        ensures { result ≡ self.now.calls.count }
    {
        self.calls.count()
    }

    /// How many reads found no memory: none does.
    pub fn wants(&self) -> u64
        ensures { result ≡ self.now.calls.wants }
    {
        self.calls.wants()
    }
}

impl Source for MemSource {
    ghost faults = { λ s. s.calls.faults };

    ghost left = { λ s. Some s.left };

    ghost is_over = { λ s. s.over };

    fn read(&mut self, into: &mut [u8]) -> Result<usize, SourceFault>
        requires { self.old.over ≡ false }
        ensures over { self.new.over ≡ is_last (length into.new) result }
        ensures faults { self.old.calls.faults ≤ self.new.calls.faults }
        ensures kept { OnOk result (self.new.calls.faults ≡ self.old.calls.faults) }
        ensures rose { OnErr result (Rose self.old.calls.faults self.new.calls.faults) }
        ensures ok { IfOk result (λ n. TakesFront (Some self.old.left) into.new n (Some self.new.left)) }
        ensures err { OnErr result (self.new.left ≡ self.old.left) }
        ensures due { IsErr result ↔ IsTrue (is_due self.old.calls) }
        ensures calls { self.new.calls ≡ stepped self.old.calls }
    {
        if self.calls.begin(false) {
            self.over = true;
            return Err(SourceFault);
        }
        let rest = &self.bytes[self.place..];
        let count = rest.len().min(into.len());
        into[..count].copy_from_slice(&rest[..count]);
        self.place += count;
        self.over = count == 0 && !into.is_empty();
        Ok(count)
    }
}
