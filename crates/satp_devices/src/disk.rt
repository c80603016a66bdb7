ghost use Rattle.std.proofs.Common.{refl, ◌∙◌};
ghost use Rattle.std.specs.Prelude.{◌≡◌, ◌≤◌, ◌+◌, ◌-◌, ◌^◌, None, length, drop, IfOk, OnOk};
ghost use Rattle.satp_base.specs.Streams.{HasCause};
ghost use Rattle.satp_devices.specs.Counting.{Counts};
ghost use Rattle.satp_devices.specs.Places.{Entered, Enters, IsSecond, OnArea};
ghost use Rattle.satp_devices.specs.Untold.{untold_keeps};

use crate::faults::counted;
use crate::folder::Folder;
use satp_base::{Area, Device, Disk, DiskFault};
use std::alloc::Global;
use std::fs::{File, Files};
use std::io::ErrorKind;

/// A disk whose areas are the files `journal-a`, `journal-b` and `ledger` of a directory, which the lock of its file `lock` keeps for one program.
///
/// Before [`Disk::enter`] has succeeded, and after it has failed, every other call fails. A file that is missing reads as empty, a cut or sync of it does nothing, and the first write makes it.
/// It tells nothing of what the files hold, and counts each fault once. Where it is and which file an area has is its own, and stands in the contracts of its calls.
#[derive(Drop)]
pub struct FileDisk<R: Files<File = File> + Copy> {
    files: R,
    alloc: Global,
    folder: Option<Folder>,
    faults: u64,
    /// How often the second disk had failed when it was given back.
    second_faults: u64,
}

impl<R: Files<File = File> + Copy> FileDisk<R> {
    /// A disk that is in no directory yet.
    pub fn new(files: R, alloc: Global) -> FileDisk<R>
        ensures place { result.folder ≡ None }
        ensures faults { result.faults ≡ 0 }
        ensures second { result.second_faults ≡ 0 }
    {
        FileDisk {
            files,
            alloc,
            folder: None,
            faults: 0,
            second_faults: 0,
        }
    }

    /// A second disk in the same directory, under the lock of this one, which has to outlive it. It counts its faults from where the last one was given back.
    ///
    /// `DiskFault` where this disk is in no directory, and where the directory fails.
    pub fn second(&mut self) -> Result<FileDisk<R>, DiskFault>
        ensures cause { HasCause self.old.faults self.new.faults result }
        ensures counts { Counts self.old.faults self.new.faults result }
        ensures here { self.new.folder ≡ self.old.folder }
        ensures second { self.new.second_faults ≡ self.old.second_faults }
        ensures place { IfOk result (λ disk. IsSecond self.old.folder disk.folder) }
        ensures faults { IfOk result (λ disk. disk.faults ≡ self.old.second_faults) }
    {
        let answer = match &self.folder {
            Some(folder) => folder.again(&self.files, self.alloc),
            None => Err(ErrorKind::NotFound.into()),
        };
        let folder = counted(&mut self.faults, answer.map_err(|_| DiskFault))?;
        Ok(FileDisk {
            files: self.files,
            alloc: self.alloc,
            folder: Some(folder),
            faults: self.second_faults,
            second_faults: 0,
        })
    }

    /// Takes a second disk back, which is let go.
    pub fn give_back(&mut self, second: FileDisk<R>)
        ensures { self.new ≡ record self.old { second_faults = second.faults } }
    {
        self.second_faults = second.faults;
    }

    /// Opens a directory, and counts where that fails.
    fn open(&mut self, dir: &[u8]) -> Result<Folder, DiskFault>
        ensures cause { HasCause self.old.faults self.new.faults result }
        ensures counts { Counts self.old.faults self.new.faults result }
        ensures here { self.new.folder ≡ self.old.folder }
        ensures second { self.new.second_faults ≡ self.old.second_faults }
        ensures folder { IfOk result (λ folder. Entered dir.now folder) }
    {
        let answer = Folder::enter(&self.files, self.alloc, dir);
        counted(&mut self.faults, answer.map_err(|_| DiskFault))
    }
}

impl<R: Files<File = File> + Copy> Device for FileDisk<R> {
    ghost told = { λ _. None };

    ghost book = { λ _. None };

    ghost faults = { λ d. d.faults };

    ghost keeps_model = { λ d t is. untold_keeps t is };

    ghost beside = { λ a b. b.second_faults ≡ a.second_faults };

    ghost beside_same = { λ d. refl };

    ghost beside_then = { λ a b c first then. then ∙ first };
}

impl<R: Files<File = File> + Copy> Disk for FileDisk<R> {
    fn enter(&mut self, dir: &[u8]) -> Result<(), DiskFault>
        ensures cause { HasCause self.old.faults self.new.faults result }
        ensures counts { Counts self.old.faults self.new.faults result }
        ensures second { self.new.second_faults ≡ self.old.second_faults }
        ensures place { Enters dir.now self.new.folder result }
    {
        // An earlier lock is given back first, so that the same directory can be entered again.
        self.folder = None;
        self.folder = Some(self.open(dir)?);
        Ok(())
    }

    fn length(&mut self, area: Area) -> Result<u64, DiskFault>
        ensures cause { HasCause self.old.faults self.new.faults result }
        ensures counts { Counts self.old.faults self.new.faults result }
        ensures second { self.new.second_faults ≡ self.old.second_faults }
        ensures place { OnArea area self.old.folder self.new.folder result }
    {
        let answer = match &mut self.folder {
            Some(folder) => folder.area(area).length(&self.files),
            None => Err(ErrorKind::NotFound.into()),
        };
        counted(&mut self.faults, answer.map_err(|_| DiskFault))
    }

    fn read(&mut self, area: Area, at: u64, into: &mut [u8]) -> Result<usize, DiskFault>
        ensures bound { IfOk result (λ n. n ≤ length into.new) }
        ensures rest { IfOk result (λ n. drop n into.new ≡ drop n into.old) }
        ensures cause { HasCause self.old.faults self.new.faults result }
        ensures counts { Counts self.old.faults self.new.faults result }
        ensures second { self.new.second_faults ≡ self.old.second_faults }
        ensures place { OnArea area self.old.folder self.new.folder result }
    {
        let answer = match &mut self.folder {
            Some(folder) => folder.area(area).read(&self.files, at, into),
            None => Err(ErrorKind::NotFound.into()),
        };
        counted(&mut self.faults, answer.map_err(|_| DiskFault))
    }

    fn write(&mut self, area: Area, at: u64, bytes: &[u8]) -> Result<(), DiskFault>
        ensures fits { OnOk result (at + length bytes.now ≤ 2 ^ 64 - 1) }
        ensures cause { HasCause self.old.faults self.new.faults result }
        ensures counts { Counts self.old.faults self.new.faults result }
        ensures second { self.new.second_faults ≡ self.old.second_faults }
        ensures place { OnArea area self.old.folder self.new.folder result }
    {
        let answer = match &mut self.folder {
            Some(folder) => folder.area(area).write(&self.files, at, bytes),
            None => Err(ErrorKind::NotFound.into()),
        };
        counted(&mut self.faults, answer.map_err(|_| DiskFault))
    }

    fn cut(&mut self, area: Area, size: u64) -> Result<(), DiskFault>
        ensures cause { HasCause self.old.faults self.new.faults result }
        ensures counts { Counts self.old.faults self.new.faults result }
        ensures second { self.new.second_faults ≡ self.old.second_faults }
        ensures place { OnArea area self.old.folder self.new.folder result }
    {
        let answer = match &mut self.folder {
            Some(folder) => folder.area(area).cut(&self.files, size),
            None => Err(ErrorKind::NotFound.into()),
        };
        counted(&mut self.faults, answer.map_err(|_| DiskFault))
    }

    fn sync(&mut self, area: Area) -> Result<(), DiskFault>
        ensures cause { HasCause self.old.faults self.new.faults result }
        ensures counts { Counts self.old.faults self.new.faults result }
        ensures second { self.new.second_faults ≡ self.old.second_faults }
        ensures place { OnArea area self.old.folder self.new.folder result }
    {
        let answer = match &mut self.folder {
            Some(folder) => folder.area(area).sync(&self.files),
            None => Err(ErrorKind::NotFound.into()),
        };
        counted(&mut self.faults, answer.map_err(|_| DiskFault))
    }
}
