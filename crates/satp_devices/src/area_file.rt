ghost use Rattle.std.specs.Prelude.{◌≡◌, ◌≤◌, ◌<ℤ◌, ◌+◌, ◌-◌, ◌^◌, true, false, None, length, drop, IsSome, IfOk, OnOk};
ghost use Rattle.std.specs.Fd.{file_raw_fd};

use crate::folder::sync_folder;
use std::fs::{File, Files, OpenOptions};
use std::io::{self, ErrorKind};
use std::os::fd::AsRawFd;
use std::os::unix::fs::{FileExt, OpenOptionsExt};
use std::path::{Path, PathBuf};

/// The last descriptor of a standard stream.
const LAST_STANDARD: i32 = 2;

/// The permissions of a file that is made: it may hold a key.
pub const OWNER_ALONE: u32 = 0o600;

/// The file of one area. A file that is missing reads as empty.
#[derive(Drop)]
pub struct AreaFile {
    path: PathBuf,
    file: Option<File>,
    /// This disk made the file, and the directory's entry of it isn't synced yet.
    is_new: bool,
}

impl AreaFile {
    /// The file that stands at a path, or that a write will make there.
    pub fn new(path: PathBuf) -> AreaFile
        ensures { result ≡ record { path = path; file = None; is_new = false } }
    {
        AreaFile {
            path,
            file: None,
            is_new: false,
        }
    }

    /// How many bytes the file has.
    pub fn length<R: Files<File = File>>(&mut self, files: &R) -> io::Result<u64>
        ensures path { self.new.path ≡ self.old.path }
        ensures is_new { self.new.is_new ≡ self.old.is_new }
        ensures missing { IfOk result (λ n. self.new.file ≡ None → n ≡ 0) }
    {
        self.find(files)?;
        match &self.file {
            Some(file) => Ok(file.metadata()?.len()),
            None => Ok(0),
        }
    }

    /// Fills the front of `into` with the bytes from a place on; fewer come only where the file ends. The rest of `into` stays as it was.
    pub fn read<R: Files<File = File>>(
        &mut self,
        files: &R,
        at: u64,
        into: &mut [u8],
    ) -> io::Result<usize>
        ensures path { self.new.path ≡ self.old.path }
        ensures is_new { self.new.is_new ≡ self.old.is_new }
        ensures missing { IfOk result (λ n. self.new.file ≡ None → n ≡ 0) }
        ensures bound { IfOk result (λ n. n ≤ length into.new) }
        ensures rest { IfOk result (λ n. drop n into.new ≡ drop n into.old) }
    {
        self.find(files)?;
        let Some(file) = &self.file else {
            return Ok(0);
        };
        let left = file.metadata()?.len().saturating_sub(at);
        let count = into.len().min(left as usize);
        file.read_exact_at(&mut into[..count], at)?;
        Ok(count)
    }

    /// Lays bytes over those from a place on. A file that is missing is made.
    pub fn write<R: Files<File = File>>(
        &mut self,
        files: &R,
        at: u64,
        bytes: &[u8],
    ) -> io::Result<()>
        ensures path { self.new.path ≡ self.old.path }
        ensures is_new { self.old.is_new ≡ true → self.new.is_new ≡ true }
        ensures there { OnOk result (IsSome self.new.file) }
        ensures fits { OnOk result (at + length bytes.now ≤ 2 ^ 64 - 1) }
    {
        if at.checked_add(bytes.len() as u64).is_none() {
            return Err(ErrorKind::InvalidInput.into());
        }
        self.find(files)?;
        if self.file.is_none() {
            self.make(files)?;
        }
        match &self.file {
            Some(file) => file.write_all_at(bytes, at),
            None => Err(ErrorKind::NotFound.into()),
        }
    }

    /// Cuts the file to its first bytes, where it has more.
    pub fn cut<R: Files<File = File>>(&mut self, files: &R, size: u64) -> io::Result<()>
        ensures path { self.new.path ≡ self.old.path }
        ensures is_new { self.new.is_new ≡ self.old.is_new }
    {
        self.find(files)?;
        match &self.file {
            Some(file) if size < file.metadata()?.len() => file.set_len(size),
            _ => Ok(()),
        }
    }

    /// Makes what the file holds survive a stop, and the directory's entry of a file that was made.
    pub fn sync<R: Files<File = File>>(&mut self, files: &R) -> io::Result<()>
        ensures path { self.new.path ≡ self.old.path }
        ensures entry { OnOk result (self.new.is_new ≡ false) }
    {
        if self.is_new {
            if let Some(folder) = self.path.parent() {
                sync_folder(files, folder)?;
            }
            self.is_new = false;
        }
        self.find(files)?;
        match &self.file {
            Some(file) => file.sync_all(),
            None => Ok(()),
        }
    }

    /// Opens the file, where it is there.
    fn find<R: Files<File = File>>(&mut self, files: &R) -> io::Result<()>
        ensures path { self.new.path ≡ self.old.path }
        ensures is_new { self.new.is_new ≡ self.old.is_new }
    {
        if self.file.is_none() {
            let mut options = OpenOptions::new();
            options.read(true).write(true);
            match open_apart(files, &options, self.path.as_path()) {
                Ok(file) => self.file = Some(file),
                Err(error) if error.kind() == ErrorKind::NotFound => {}
                Err(error) => return Err(error),
            }
        }
        Ok(())
    }

    /// Makes the file.
    fn make<R: Files<File = File>>(&mut self, files: &R) -> io::Result<()>
        ensures path { self.new.path ≡ self.old.path }
        ensures there { OnOk result (IsSome self.new.file) }
        ensures is_new { self.new.is_new ≡ true }
    {
        let mut options = OpenOptions::new();
        options
            .read(true)
            .write(true)
            .create(true)
            .mode(OWNER_ALONE);
        self.is_new = true;
        self.file = Some(open_apart(files, &options, self.path.as_path())?);
        Ok(())
    }
}

/// Opens a file, and gives it no descriptor of a standard stream: a line that is printed to a stream which was closed must not land in the file. It fails where there is no other descriptor.
pub fn open_apart<R: Files<File = File>>(
    files: &R,
    options: &OpenOptions,
    path: Path<'_>,
) -> io::Result<File>
    ensures { IfOk result (λ file. LAST_STANDARD <ℤ file_raw_fd file) }
{
    let file = options.open(files, path)?;
    if file.as_raw_fd() > LAST_STANDARD {
        return Ok(file);
    }
    let apart = file.try_clone()?;
    if apart.as_raw_fd() <= LAST_STANDARD {
        return Err(ErrorKind::Other.into());
    }
    Ok(apart)
}
