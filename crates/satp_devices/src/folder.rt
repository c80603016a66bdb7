ghost use Rattle.std.specs.Prelude.{◌≡◌, IfOk};
ghost use Rattle.std.specs.Path.{path_bytes, path_buf_bytes};
ghost use Rattle.std.specs.Borrow.{sem};
ghost use Rattle.satp_devices.specs.Places.{file_of, LendsFile, Entered, StandsIn};

use crate::area_file::{AreaFile, OWNER_ALONE, open_apart};
use satp_base::Area;
use std::alloc::Global;
use std::fs::{self, File, Files, OpenOptions};
use std::io::{self, ErrorKind};
use std::os::unix::fs::OpenOptionsExt;
use std::path::{Path, PathBuf};

const LOCK: &str = "lock";

const JOURNAL_A: &str = "journal-a";

const JOURNAL_B: &str = "journal-b";

const LEDGER: &str = "ledger";

/// A directory with a file for each area.
#[derive(Drop)]
pub struct Folder {
    path: PathBuf,
    journal_a: AreaFile,
    journal_b: AreaFile,
    ledger: AreaFile,
    /// Keeps other programs out for as long as it is open.
    lock: Option<File>,
}

impl Folder {
    /// Goes to a directory, which is made where it is missing, and locks it.
    ///
    /// It fails at once where another program holds the lock.
    pub fn enter<R: Files<File = File>>(files: &R, alloc: Global, dir: &[u8]) -> io::Result<Folder>
        ensures { IfOk result (λ folder. Entered dir.now folder) }
    {
        let path = read_path(dir)?;
        make_folder(files, path)?;
        let lock = take_lock(files, path.join(alloc, LOCK)?.as_path())?;
        Folder::open(files, alloc, path, Some(lock))
    }

    /// The same directory once more, under the lock of this one.
    pub fn again<R: Files<File = File>>(&self, files: &R, alloc: Global) -> io::Result<Folder>
        ensures { IfOk result (λ folder. StandsIn (path_buf_bytes self.now.path) folder) }
    {
        Folder::open(files, alloc, self.path.as_path(), None)
    }

    fn open<R: Files<File = File>>(
        files: &R,
        alloc: Global,
        path: Path<'_>,
        lock: Option<File>,
    ) -> io::Result<Folder>
        ensures place { IfOk result (λ folder. StandsIn (path_bytes path.entry) folder) }
        ensures lock { IfOk result (λ folder. folder.lock ≡ lock) }
    {
        // A file may stand here that was made just before a program was stopped: its entry isn't safe yet.
        sync_folder(files, path)?;
        Ok(Folder {
            path: path.to_path_buf(alloc)?,
            journal_a: AreaFile::new(path.join(alloc, JOURNAL_A)?),
            journal_b: AreaFile::new(path.join(alloc, JOURNAL_B)?),
            ledger: AreaFile::new(path.join(alloc, LEDGER)?),
            lock,
        })
    }

    /// The file of an area.
    pub fn area(&mut self, area: Area) -> &mut AreaFile
        ensures value { result.now ≡ file_of self.old area }
        ensures* writes_back { sem 𝓛 (LendsFile self.entry area result) }
    {
        match area {
            Area::JournalA => &mut self.journal_a,
            Area::JournalB => &mut self.journal_b,
            Area::Ledger => &mut self.ledger,
        }
    }
}

/// The path that the bytes spell. The empty text names no directory.
fn read_path(dir: &[u8]) -> io::Result<Path<'_>>
    ensures { IfOk result (λ path. path_bytes path ≡ dir.now) }
{
    match str::from_utf8(dir) {
        Ok(text) if !text.is_empty() => Ok(Path::new(text)),
        _ => Err(ErrorKind::InvalidInput.into()),
    }
}

/// Makes a directory, and the folders above it, where they are missing. Their entries survive a stop.
fn make_folder<R: Files<File = File>>(files: &R, path: Path<'_>) -> io::Result<()> {
    let missing = count_missing(files, path);
    if let Some(there) = path.ancestors().nth(missing) {
        settle(files, there)?;
    }
    // From the top: none is made before the entry of that above it is safe.
    for depth in (0..missing).rev() {
        if let Some(folder) = path.ancestors().nth(depth) {
            make(files, folder)?;
        }
    }
    Ok(())
}

/// How many folders are missing: the directory, that above it, and so on up to the first that is there.
fn count_missing<R: Files>(files: &R, path: Path<'_>) -> usize {
    let mut missing = 0usize;
    for folder in path.ancestors() {
        if folder.as_str().is_empty() || folder.exists(files) {
            break;
        }
        missing = missing.saturating_add(1);
    }
    missing
}

/// Makes the entry of a folder that is there safe, since it may have been made just before a program was stopped.
fn settle<R: Files<File = File>>(files: &R, folder: Path<'_>) -> io::Result<()> {
    match sync_above(files, folder) {
        // A folder in one that this program may not open wasn't made by it.
        Err(e) if e.kind() == ErrorKind::PermissionDenied => Ok(()),
        answer => answer,
    }
}

/// Makes a folder, with its entry. Another program may have made it meanwhile.
fn make<R: Files<File = File>>(files: &R, folder: Path<'_>) -> io::Result<()> {
    match fs::create_dir(files, folder) {
        Err(e) if e.kind() == ErrorKind::AlreadyExists => {}
        answer => answer?,
    }
    sync_above(files, folder)
}

/// Makes the entry of a folder in that above it survive a stop.
fn sync_above<R: Files<File = File>>(files: &R, folder: Path<'_>) -> io::Result<()> {
    match folder.parent() {
        Some(above) => sync_folder(files, above),
        None => Ok(()),
    }
}

/// Makes the entries of a folder survive a stop. The empty path is where the program runs.
pub fn sync_folder<R: Files<File = File>>(files: &R, path: Path<'_>) -> io::Result<()> {
    let text = path.as_str();
    let path = if text.is_empty() { "." } else { text };
    File::open(files, path)?.sync_all()
}

/// Opens the lock file, which is made where it is missing, and takes its lock without waiting for it.
fn take_lock<R: Files<File = File>>(files: &R, path: Path<'_>) -> io::Result<File> {
    let mut options = OpenOptions::new();
    options
        .read(true)
        .write(true)
        .create(true)
        .mode(OWNER_ALONE);
    let lock = open_apart(files, &options, path)?;
    lock.try_lock()?;
    Ok(lock)
}
