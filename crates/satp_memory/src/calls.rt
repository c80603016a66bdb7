ghost use Rattle.std.specs.Prelude.{◌≡◌, ◌≤◌, true, false, Some, OnOk, OnErr};
ghost use Rattle.satp_base.specs.Calls.{risen};
ghost use Rattle.satp_base.specs.Streams.{Rose};
ghost use Rattle.satp_memory.specs.Calling.{begun, cleared, faulting, fresh, is_due, is_refused, naming, wanting};

use crate::operate::Halt;
use satp_base::{ActFault, Memory};
use std::alloc::Global;
use std::marker::Model;

/// Counts the calls on a device, and knows which of them are to fail.
#[derive(Drop)]
pub struct Calls {
    count: u64,
    faults: u64,
    wants: u64,
    last_failed: Option<u64>,
    named: Vec<u64>,
}

impl Model for Calls {
    ghost use Rattle.satp_memory.specs.Calling.{Calling};

    ghost Value = { Calling };

    ghost view = { λ c. record { count = c.count; faults = c.faults; wants = c.wants; last_failed = c.last_failed; named = c.named.items } };
}

impl Calls {
    ghost use Rattle.satp_memory.specs.Halting.{fault_of, halted};

    pub fn new(alloc: Global) -> Calls
        ensures { result ≡ fresh }
    {
        Calls {
            count: 0,
            faults: 0,
            wants: 0,
            last_failed: None,
            named: Vec::new(alloc),
        }
    }

    /// Makes the call of this number, from 1, fail.
    pub fn fail(&mut self, call: u64) -> Result<(), Memory>
        ensures ok { OnOk result (self.new ≡ naming call self.old) }
        ensures err { OnErr result (self.new ≡ self.old) }
    {
        self.named.push(call)?;
        Ok(())
    }

    /// Drops the calls that are to fail and haven't come.
    pub fn clear(&mut self)
        ensures { self.new ≡ cleared self.old }
    {
        self.named.clear();
    }

    /// Counts a call, and answers whether it is to fail: after a stop, or where it was named.
    pub fn begin(&mut self, stopped: bool) -> bool
        ensures refused { result ≡ is_refused stopped self.old }
        ensures counted { self.new ≡ begun stopped self.old }
        ensures told { self.new.count ≡ risen self.old.count 1 }
        ensures failed { result ≡ true → self.new.last_failed ≡ Some (risen self.old.count 1) }
        ensures rose { result ≡ true → Rose self.old.faults self.new.faults }
        ensures kept { result ≡ false → self.new.faults ≡ self.old.faults }
        ensures later { self.old.faults ≤ self.new.faults }
    {
        let refused = stopped || self.is_due();
        self.count = self.count.saturating_add(1);
        if refused {
            self.fault();
        }
        refused
    }

    fn is_due(&self) -> bool
        ensures { result ≡ is_due self.now }
    {
        self.count < u64::MAX && self.named.contains(&(self.count + 1))
    }

    /// Counts a fault of a call that found no memory.
    pub fn want(&mut self)
        ensures counted { self.new ≡ wanting self.old }
        ensures rose { Rose self.old.faults self.new.faults }
        ensures later { self.old.faults ≤ self.new.faults }
    {
        self.fault();
        self.wants = self.wants.saturating_add(1);
    }

    /// Counts a fault of a call that is counted already.
    pub fn fault(&mut self)
        ensures counted { self.new ≡ faulting self.old }
        ensures rose { Rose self.old.faults self.new.faults }
        ensures later { self.old.faults ≤ self.new.faults }
    {
        self.faults = self.faults.saturating_add(1);
        self.last_failed = Some(self.count);
    }

    /// Counts why an operation isn't answered, and says it as a ledger does.
    pub fn halt(&mut self, halt: Halt) -> ActFault
        ensures fault { result ≡ fault_of halt }
        ensures counted { self.new ≡ halted halt self.old }
        ensures rose { Rose self.old.faults self.new.faults }
        ensures later { self.old.faults ≤ self.new.faults }
    {
        match halt {
            Halt::OutOfOrder { entry } => {
                self.fault();
                ActFault::OutOfOrder { entry }
            }
            Halt::Unfounded => {
                self.fault();
                ActFault::Failed
            }
            Halt::Memory => {
                self.want();
                ActFault::Failed
            }
        }
    }

    pub fn count(&self) -> u64
        ensures { result ≡ self.now.count }
    {
        self.count
    }

    pub fn wants(&self) -> u64
        ensures { result ≡ self.now.wants }
    {
        self.wants
    }
}
