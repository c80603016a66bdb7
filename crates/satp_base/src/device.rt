ghost use Rattle.std.specs.Prelude.{◌≡◌, ◌≤◌, ◌+◌, ◌-◌, ◌^◌, Option, Some, ℕ, [], ◌∷◌, length, option_map, IfOk, OnOk, OnErr, IfSome};
ghost use Rattle.std.specs.Option.{ForSome};
ghost use Rattle.satp_base.specs.Streams.{HasCause};
ghost use Rattle.satp_base.specs.Trail.{seen, KeepsModel};
ghost use Rattle.satp_base.specs.Calls.{Told, made, call_failed, entered, enter_failed, MayMiss, Fails, Reads};
ghost use Rattle.satp_base.specs.Money.{Book};
ghost use Rattle.satp_base.specs.declared.area.Event.TheVariants.{Wrote, Cut, Synced};

use crate::area::Area;

/// A call on a disk failed.
#[derive(Clone, Copy, Debug, PartialEq, Eq)]
pub struct DiskFault;

/// What disks, ledgers and sites have in common: what they tell, and one count of faults.
pub trait Device {
    /// What it tells of all calls so far, if it tells.
    ghost told: { Self → Option Told };

    /// What it tells of its ledger: what that was founded with, and its entries.
    ghost book: { Self → Option Book };

    /// How often it has failed. The number never falls.
    ghost faults: { Self → ℕ };

    /// How all else that a device knows goes on from one moment to a later one: as with a device that has several trails, or one that is to stop.
    ghost beside: { Self → Self → Type 0 } = { λ _ _. Unit {0} };

    /// What it tells keeps the disk model.
    ghost keeps_model: { (device : Self) (t : Told) → told device ≡ Some t → KeepsModel t.trail };

    /// It goes on so where nothing is called.
    ghost beside_same: { (device : Self) → beside device device };

    /// It goes on so over two calls where it does over each.
    ghost beside_then: { (a b c : Self) → beside a b → beside b c → beside a c };
}

/// Areas of bytes in a directory.
///
/// Each call answers `DiskFault` only where the count of faults rose in it, or stands at the end of its type.
/// From a write until the next sync of the area that succeeds, a stop may leave any bytes in the written range and past the old end, and any length from the old to the new.
/// From a cut until such a sync, the part behind the new length may be there in part, with any bytes.
pub trait Disk: Device {
    /// Goes to a directory.
    fn enter(&mut self, dir: &[u8]) -> Result<(), DiskFault>
        ensures ok { OnOk result (Self.told self.new ≡ option_map (entered dir.now) (Self.told self.old)) }
        ensures err { OnErr result (MayMiss (enter_failed dir.now) [] (Self.told self.old) (Self.told self.new)) }
        ensures ledger { Self.book self.new ≡ Self.book self.old }
        ensures beside { Self.beside self.old self.new }
        ensures cause { HasCause (Self.faults self.old) (Self.faults self.new) result };

    /// How many bytes an area has.
    fn length(&mut self, area: Area) -> Result<u64, DiskFault>
        ensures length { IfOk result (λ n. IfSome (Self.told self.old) (λ t. n ≡ length (seen t.trail area))) }
        ensures ok { OnOk result (Self.told self.new ≡ option_map (made 1 []) (Self.told self.old)) }
        ensures err { OnErr result (Self.told self.new ≡ option_map (call_failed []) (Self.told self.old)) }
        ensures ledger { Self.book self.new ≡ Self.book self.old }
        ensures beside { Self.beside self.old self.new }
        ensures cause { HasCause (Self.faults self.old) (Self.faults self.new) result };

    /// Fills the front of `into` with the bytes from a place on, and answers how many; fewer come only where the area ends.
    fn read(&mut self, area: Area, at: u64, into: &mut [u8]) -> Result<usize, DiskFault>
        ensures bound { IfOk result (λ n. n ≤ length into.new) }
        ensures bytes { IfOk result (λ n. IfSome (Self.told self.old) (λ t. Reads (seen t.trail area) at into.new n)) }
        ensures ok { OnOk result (Self.told self.new ≡ option_map (made 1 []) (Self.told self.old)) }
        ensures err { OnErr result (Self.told self.new ≡ option_map (call_failed []) (Self.told self.old)) }
        ensures ledger { Self.book self.new ≡ Self.book self.old }
        ensures beside { Self.beside self.old self.new }
        ensures cause { HasCause (Self.faults self.old) (Self.faults self.new) result };

    /// Lays bytes over those from a place on. A failed write counts as one that isn't synced.
    fn write(&mut self, area: Area, at: u64, bytes: &[u8]) -> Result<(), DiskFault>
        requires { ForSome (Self.told self.old) (λ t. at ≤ length (seen t.trail area)) }
        ensures ok { OnOk result (Self.told self.new ≡ option_map (made 1 (Wrote area at bytes.now ∷ [])) (Self.told self.old)) }
        ensures fits { OnOk result (at + length bytes.now ≤ 2 ^ 64 - 1) }
        ensures err { OnErr result (Fails (Wrote area at bytes.now) (Self.told self.old) (Self.told self.new)) }
        ensures ledger { Self.book self.new ≡ Self.book self.old }
        ensures beside { Self.beside self.old self.new }
        ensures cause { HasCause (Self.faults self.old) (Self.faults self.new) result };

    /// Cuts an area to its first bytes. A failed cut counts as one that isn't synced.
    fn cut(&mut self, area: Area, size: u64) -> Result<(), DiskFault>
        requires { ForSome (Self.told self.old) (λ t. size ≤ length (seen t.trail area)) }
        ensures ok { OnOk result (Self.told self.new ≡ option_map (made 1 (Cut area size ∷ [])) (Self.told self.old)) }
        ensures err { OnErr result (Fails (Cut area size) (Self.told self.old) (Self.told self.new)) }
        ensures ledger { Self.book self.new ≡ Self.book self.old }
        ensures beside { Self.beside self.old self.new }
        ensures cause { HasCause (Self.faults self.old) (Self.faults self.new) result };

    /// Makes what the area holds survive a stop. A failed sync promises nothing.
    fn sync(&mut self, area: Area) -> Result<(), DiskFault>
        ensures ok { OnOk result (Self.told self.new ≡ option_map (made 1 (Synced area ∷ [])) (Self.told self.old)) }
        ensures err { OnErr result (Fails (Synced area) (Self.told self.old) (Self.told self.new)) }
        ensures ledger { Self.book self.new ≡ Self.book self.old }
        ensures beside { Self.beside self.old self.new }
        ensures cause { HasCause (Self.faults self.old) (Self.faults self.new) result };
}
