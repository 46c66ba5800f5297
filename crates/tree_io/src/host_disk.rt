//! The current folder of the system, by the calls of std alone. No clause says what they do.
ghost use Rattle.std.specs.Prelude.{◌≡◌, None};
ghost use Rattle.std.specs.Bool.{⊤};

use crate::disk::{Disk, Found, Node};
use std::fs::{File, Metadata, OpenFile, TryLockError};
use std::io;
use std::io::ErrorKind;
use std::os::unix::fs::{FileExt, MetadataExt};
use std::rt::Files;

/// The path of the folder itself.
const FOLDER: &str = "./";

/// The current folder of the system, with the lock that this run has.
#[derive(Drop)]
pub struct HostDisk<'a, R> {
    rt: &'a R,
    folder: Option<File>,
    is_owned: bool,
}

impl<'a, R: Files<File = File>> HostDisk<'a, R> {
    /// The current folder, with no lock.
    pub fn new(rt: &'a R) -> Self {
        HostDisk {
            rt,
            folder: None,
            is_owned: false,
        }
    }
}

impl<'a, R: Files<File = File>> Disk for HostDisk<'a, R> {
    type Source = File;

    type Target = File;

    type Names = R::Dir;

    ghost may_read = { λ _ _. ⊤ };

    ghost may_write = { λ _ _. ⊤ };

    ghost may_make = { λ _ _. ⊤ };

    ghost held = { λ _. None };

    ghost is_synced = { λ _. ⊤ };

    fn share(&mut self) -> io::Result<bool> {
        if self.folder.is_some() {
            return Ok(true);
        }
        let folder = File::open(self.rt, FOLDER)?;
        let is_shared = has_lock(&folder.try_lock_shared());
        if is_shared {
            self.folder = Some(folder);
        }
        Ok(is_shared)
    }

    fn lock_alone(&mut self) -> io::Result<bool> {
        if self.is_owned {
            return Ok(true);
        }
        if self.folder.is_none() {
            self.folder = Some(File::open(self.rt, FOLDER)?);
        }
        if let Some(folder) = &self.folder {
            self.is_owned = has_lock(&folder.try_lock());
        }
        Ok(self.is_owned)
    }

    fn names(&mut self) -> io::Result<R::Dir> {
        self.rt.open_dir(FOLDER)
    }

    fn is_removed(&mut self) -> io::Result<bool> {
        Ok(self.rt.metadata(FOLDER)?.nlink() == 0)
    }

    fn look(&mut self, name: &str) -> io::Result<Found> {
        read_metadata(self.rt.symlink_metadata(name))
    }

    fn follow(&mut self, name: &str) -> io::Result<Found> {
        read_metadata(self.rt.metadata(name))
    }

    fn open(&mut self, name: &str) -> io::Result<File> {
        File::open(self.rt, name)
    }

    fn reopen(&mut self, name: &str) -> io::Result<File> {
        File::options().write(true).open(self.rt, name)
    }

    fn make(&mut self, name: &str) -> io::Result<File> {
        File::create_new(self.rt, name)
    }

    fn look_at(&mut self, file: &File) -> io::Result<Found> {
        read_metadata(file.metadata())
    }

    fn put(&mut self, file: &mut File, bytes: &[u8], at: u64) -> io::Result<usize> {
        file.write_at(bytes, at)
    }

    fn cut(&mut self, file: &mut File, len: u64) -> io::Result<()> {
        file.set_len(len)
    }

    fn sync(&mut self, file: &mut File) -> io::Result<()> {
        file.sync_all()
    }

    fn sync_names(&mut self) -> io::Result<()> {
        match File::open(self.rt, FOLDER)?.sync_all() {
            Err(error) if error.kind() == ErrorKind::InvalidInput => Ok(()),
            answer => answer,
        }
    }
}

/// What the system's answer says of a name.
fn read_metadata(answer: io::Result<Metadata>) -> io::Result<Found> {
    match answer {
        Ok(metadata) => Ok(kind_of(&metadata)),
        Err(error) if error.kind() == ErrorKind::NotFound => Ok(Found::Missing),
        Err(error) => Err(error),
    }
}

/// The kind of what is there, with the numbers of a regular file.
fn kind_of(metadata: &Metadata) -> Found {
    if metadata.is_symlink() {
        Found::Link
    } else if metadata.is_file() {
        Found::File(Node {
            len: metadata.len(),
            names: metadata.nlink(),
            device: metadata.dev(),
            number: metadata.ino(),
            changed: (metadata.ctime(), metadata.ctime_nsec()),
        })
    } else {
        Found::Other
    }
}

/// Whether the lock was given. A file system that has no locks gives each.
fn has_lock(answer: &Result<(), TryLockError>) -> bool {
    !matches!(answer, Err(TryLockError::WouldBlock))
}
