//! Files of the system that fail where a line wants it.

use std::alloc::Allocator;
use std::cell::Cell;
use std::fs::{File, Files, Metadata, OpenOptions};
use std::io::{self, ErrorKind};

/// What is opened at a path.
#[derive(Clone, Copy)]
pub enum Opened {
    /// What stands there.
    AsAsked,
    /// Nothing: it may not be opened.
    Refused,
    /// A file that can't be synced.
    Unsynced,
    /// What stands there, but it can't be written to.
    ReadOnly,
    /// What stands there, but it can't be read.
    WriteOnly,
}

/// The path that is opened otherwise than asked.
#[derive(Clone, Copy)]
pub struct Hindrance<'p> {
    pub path: &'p str,
    pub opened: Opened,
}

/// The files of the system, where one path is opened otherwise than asked.
#[derive(Clone, Copy)]
pub struct Hindered<'a, 'p, R> {
    files: R,
    hindrance: &'a Cell<Hindrance<'p>>,
}

impl<'a, 'p, R: Files<File = File>> Hindered<'a, 'p, R> {
    pub fn new(files: R, hindrance: &'a Cell<Hindrance<'p>>) -> Hindered<'a, 'p, R> {
        Hindered { files, hindrance }
    }
}

impl<'a, 'p, R: Files<File = File>> Files for Hindered<'a, 'p, R> {
    type File = File;

    type Dir = R::Dir;

    fn open_file(&self, how: &OpenOptions, path: &str) -> io::Result<File> {
        let hindrance = self.hindrance.get();
        if path != hindrance.path {
            return self.files.open_file(how, path);
        }
        let mut options = OpenOptions::new();
        match hindrance.opened {
            Opened::AsAsked => self.files.open_file(how, path),
            Opened::Refused => Err(ErrorKind::PermissionDenied.into()),
            Opened::Unsynced => {
                options.read(true).write(true);
                self.files.open_file(&options, "/dev/null")
            }
            Opened::ReadOnly => {
                options.read(true);
                self.files.open_file(&options, path)
            }
            Opened::WriteOnly => {
                options.write(true);
                self.files.open_file(&options, path)
            }
        }
    }

    fn open_dir(&self, path: &str) -> io::Result<R::Dir> {
        self.files.open_dir(path)
    }

    fn metadata(&self, path: &str) -> io::Result<Metadata> {
        self.files.metadata(path)
    }

    fn symlink_metadata(&self, path: &str) -> io::Result<Metadata> {
        self.files.symlink_metadata(path)
    }

    fn copy(&self, from: &str, to: &str) -> io::Result<u64> {
        self.files.copy(from, to)
    }

    fn rename(&self, from: &str, to: &str) -> io::Result<()> {
        self.files.rename(from, to)
    }

    fn remove_file(&self, path: &str) -> io::Result<()> {
        self.files.remove_file(path)
    }

    fn create_dir(&self, path: &str) -> io::Result<()> {
        self.files.create_dir(path)
    }

    fn remove_dir(&self, path: &str) -> io::Result<()> {
        self.files.remove_dir(path)
    }

    fn remove_dir_all<B: Allocator>(&self, alloc: B, path: &str) -> io::Result<()> {
        self.files.remove_dir_all(alloc, path)
    }
}
