ghost use Rattle.std.specs.Prelude.{◌≡◌, ◌≤◌, ◌+◌, ◌-◌, ◌^◌, [], ◌∷◌, length, option_map, IfOk, OnOk, OnErr};
ghost use Rattle.satp_base.specs.Calls.{call_failed, made, Fails};
ghost use Rattle.satp_base.specs.Streams.{HasCause};
ghost use Rattle.satp_base.specs.declared.area.Event.TheVariants.{Wrote, Cut};
ghost use Rattle.satp_site.specs.Directories.{DiskState, disk_state};

use satp_base::{Area, Disk, DiskFault};
use satp_devices::FileDisk;
use std::fs::{File, Files};

/// A disk in a directory that a second disk can stand in too.
///
/// A site that tells nothing can't promise its disk that a place stands within the area, so that writes and cuts take any place here.
pub trait Directory: Disk + Drop {
    /// What its second disk shows, as it was given back last, or as it is when it is had first.
    ghost second_state: { Self → DiskState };

    /// The second disk in the same directory, under the lock of this one, which has to outlive it. It goes on from where it was given back.
    ///
    /// It is a call like the others, which looks at the directory.
    fn second(&mut self) -> Result<Self, DiskFault>
        ensures second { IfOk result (λ disk. disk_state Self.told Self.faults disk ≡ Self.second_state self.old) }
        ensures ok { OnOk result (Self.told self.new ≡ option_map (made 1 []) (Self.told self.old)) }
        ensures err { OnErr result (Self.told self.new ≡ option_map (call_failed []) (Self.told self.old)) }
        ensures beside { Self.beside self.old self.new }
        ensures cause { HasCause (Self.faults self.old) (Self.faults self.new) result };

    /// Takes the second disk back, as it is, and lets it go. It is a call that can't fail.
    fn give_back(&mut self, second: Self)
        ensures second { Self.second_state self.new ≡ disk_state Self.told Self.faults second }
        ensures told { Self.told self.new ≡ option_map (made 1 []) (Self.told self.old) }
        ensures faults { Self.faults self.new ≡ Self.faults self.old };

    /// [`Disk::write`] from any place on.
    fn write_from(&mut self, area: Area, at: u64, bytes: &[u8]) -> Result<(), DiskFault>
        ensures ok { OnOk result (Self.told self.new ≡ option_map (made 1 (Wrote area at bytes.now ∷ [])) (Self.told self.old)) }
        ensures fits { OnOk result (at + length bytes.now ≤ 2 ^ 64 - 1) }
        ensures err { OnErr result (Fails (Wrote area at bytes.now) (Self.told self.old) (Self.told self.new)) }
        ensures beside { Self.beside self.old self.new }
        ensures cause { HasCause (Self.faults self.old) (Self.faults self.new) result };

    /// [`Disk::cut`] to any size.
    fn cut_to(&mut self, area: Area, size: u64) -> Result<(), DiskFault>
        ensures ok { OnOk result (Self.told self.new ≡ option_map (made 1 (Cut area size ∷ [])) (Self.told self.old)) }
        ensures err { OnErr result (Fails (Cut area size) (Self.told self.old) (Self.told self.new)) }
        ensures beside { Self.beside self.old self.new }
        ensures cause { HasCause (Self.faults self.old) (Self.faults self.new) result };

    /// A call on this disk leaves the second one alone.
    ghost keeps_second: { (a b : Self) → Self.beside a b → Self.second_state b ≡ Self.second_state a };
}

impl<R: Files<File = File> + Copy> Directory for FileDisk<R> {
    ghost use Rattle.std.specs.Prelude.{ℕ, None};
    ghost use Rattle.std.proofs.Common.{ap};
    ghost use Rattle.satp_devices.specs.Places.{IsSecond, OnArea};

    ghost second_state = { λ d. record { told = None; faults = d.second_faults } };

    ghost keeps_second = { λ a b same. ap (λ (n : ℕ). record { told = None; faults = n }) same };

    fn second(&mut self) -> Result<FileDisk<R>, DiskFault>
        ensures faults { IfOk result (λ disk. disk.faults ≡ self.old.second_faults) }
        ensures second { self.new.second_faults ≡ self.old.second_faults }
        ensures cause { HasCause self.old.faults self.new.faults result }
        ensures place { IfOk result (λ disk. IsSecond self.old.folder disk.folder) }
    {
        FileDisk::second(self)
    }

    fn give_back(&mut self, second: FileDisk<R>)
        ensures second { self.new ≡ record self.old { second_faults = second.faults } }
    {
        FileDisk::give_back(self, second);
    }

    fn write_from(&mut self, area: Area, at: u64, bytes: &[u8]) -> Result<(), DiskFault>
        ensures fits { OnOk result (at + length bytes.now ≤ 2 ^ 64 - 1) }
        ensures cause { HasCause self.old.faults self.new.faults result }
        ensures second { self.new.second_faults ≡ self.old.second_faults }
        ensures place { OnArea area self.old.folder self.new.folder result }
    {
        self.write(area, at, bytes)
    }

    fn cut_to(&mut self, area: Area, size: u64) -> Result<(), DiskFault>
        ensures cause { HasCause self.old.faults self.new.faults result }
        ensures second { self.new.second_faults ≡ self.old.second_faults }
        ensures place { OnArea area self.old.folder self.new.folder result }
    {
        self.cut(area, size)
    }
}
