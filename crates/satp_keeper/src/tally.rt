ghost use Rattle.std.specs.Prelude.{◌≡◌};
ghost use Rattle.satp_keeper.specs.Operating.{faults_after, wants_after};

use crate::fault::KeeperFault;

/// How many faults were the keeper's own, and how many of them were want of memory.
#[derive(Clone, Copy)]
pub struct Tally {
    pub faults: u64,
    pub wants: u64,
}

impl Tally {
    /// No fault yet.
    pub fn new() -> Tally
        ensures faults { result.faults ≡ 0 }
        ensures wants { result.wants ≡ 0 }
    {
        Tally {
            faults: 0,
            wants: 0,
        }
    }

    /// Counts a fault, if it is the keeper's own. A count stands still at its end.
    pub fn note(&mut self, fault: KeeperFault)
        ensures faults { self.new.faults ≡ faults_after self.old.faults fault }
        ensures wants { self.new.wants ≡ wants_after self.old.wants fault }
    {
        match fault {
            KeeperFault::OutOfOrder { .. } | KeeperFault::Broken => {
                self.faults = self.faults.saturating_add(1);
            }
            KeeperFault::Memory => {
                self.faults = self.faults.saturating_add(1);
                self.wants = self.wants.saturating_add(1);
            }
            _ => {}
        }
    }
}
