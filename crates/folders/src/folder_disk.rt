//! A folder of the system at a path, by the calls of std alone. No clause says what they do.
ghost use Rattle.std.specs.Prelude.{◌≡◌, None};
ghost use Rattle.std.specs.Bool.{⊤};

use rotor_base::Memory;
use std::alloc::Global;
use std::fs::{File, Metadata, TryLockError};
use std::io;
use std::io::ErrorKind;
use std::os::unix::fs::MetadataExt;
use std::rt::Files;
use tree_io::{Disk, Found, Node};

/// The most bytes of a name in a folder of the system.
const MAX_NAME: usize = 255;

/// A file that is open for writing. No call of a `FolderDisk` returns one, and each call on one is refused.
#[derive(Drop)]
pub struct NoFile {}

/// A folder of the system at a path, with the lock for readers that this run has. It is listed and read. No call of it
/// opens a file for writing, makes one, or takes the lock for a writer.
#[derive(Drop)]
pub struct FolderDisk<'a, R> {
    rt: &'a R,
    /// The path of the folder, with a slash behind it.
    folder: String,
    /// Room for the path of a file.
    place: String,
    lock: Option<File>,
}

impl<'a, R: Files<File = File>> FolderDisk<'a, R> {
    /// The folder at a path, with no lock. Then no look takes memory.
    ///
    /// # Errors
    ///
    /// `Memory` alone.
    pub fn new(alloc: Global, rt: &'a R, path: &str) -> Result<Self, Memory> {
        let mut folder = String::from_str(alloc, path)?;
        folder.push_str("/")?;
        let mut place = String::from_str(alloc, folder.as_str())?;
        place.reserve(MAX_NAME)?;
        Ok(FolderDisk {
            rt,
            folder,
            place,
            lock: None,
        })
    }

    /// Puts the path of the file with this name into its place.
    fn find(&mut self, name: &str) -> io::Result<()> {
        self.place.clear();
        self.place.push_str(self.folder.as_str())?;
        self.place.push_str(name)?;
        Ok(())
    }
}

impl<'a, R: Files<File = File>> Disk for FolderDisk<'a, R> {
    type Source = File;

    type Target = NoFile;

    type Names = R::Dir;

    ghost may_read = { λ _ _. ⊤ };

    ghost may_write = { λ _ _. ⊤ };

    ghost may_make = { λ _ _. ⊤ };

    ghost held = { λ _. None };

    ghost is_synced = { λ _. ⊤ };

    fn share(&mut self) -> io::Result<bool> {
        if self.lock.is_some() {
            return Ok(true);
        }
        let folder = File::open(self.rt, self.folder.as_str())?;
        let is_shared = has_lock(&folder.try_lock_shared());
        if is_shared {
            self.lock = Some(folder);
        }
        Ok(is_shared)
    }

    /// The lock for a writer is never taken.
    fn lock_alone(&mut self) -> io::Result<bool> {
        Ok(false)
    }

    fn names(&mut self) -> io::Result<R::Dir> {
        self.rt.open_dir(self.folder.as_str())
    }

    fn is_removed(&mut self) -> io::Result<bool> {
        Ok(self.rt.metadata(self.folder.as_str())?.nlink() == 0)
    }

    fn look(&mut self, name: &str) -> io::Result<Found> {
        self.find(name)?;
        read_metadata(self.rt.symlink_metadata(self.place.as_str()))
    }

    fn follow(&mut self, name: &str) -> io::Result<Found> {
        self.find(name)?;
        read_metadata(self.rt.metadata(self.place.as_str()))
    }

    fn open(&mut self, name: &str) -> io::Result<File> {
        self.find(name)?;
        File::open(self.rt, self.place.as_str())
    }

    /// Opens nothing.
    fn reopen(&mut self, _name: &str) -> io::Result<NoFile> {
        Err(ErrorKind::ReadOnlyFilesystem.into())
    }

    /// Makes nothing.
    fn make(&mut self, _name: &str) -> io::Result<NoFile> {
        Err(ErrorKind::ReadOnlyFilesystem.into())
    }

    /// Looks at nothing.
    fn look_at(&mut self, _file: &NoFile) -> io::Result<Found> {
        Err(ErrorKind::ReadOnlyFilesystem.into())
    }

    /// Writes nothing.
    fn put(&mut self, _file: &mut NoFile, _bytes: &[u8], _at: u64) -> io::Result<usize> {
        Err(ErrorKind::ReadOnlyFilesystem.into())
    }

    /// Cuts nothing.
    fn cut(&mut self, _file: &mut NoFile, _len: u64) -> io::Result<()> {
        Err(ErrorKind::ReadOnlyFilesystem.into())
    }

    /// Writes nothing out.
    fn sync(&mut self, _file: &mut NoFile) -> io::Result<()> {
        Err(ErrorKind::ReadOnlyFilesystem.into())
    }

    /// There is nothing to wait for.
    fn sync_names(&mut self) -> io::Result<()> {
        Ok(())
    }
}

/// What the system's answer says of a name.
fn read_metadata(answer: io::Result<Metadata>) -> io::Result<Found> {
    match answer {
        Ok(metadata) => Ok(kind_of(&metadata)),
        Err(error) if error.kind() == ErrorKind::NotFound => Ok(Found::Missing),
        Err(error) => Err(error),
    }
}

/// The kind of what is there, with the numbers of a regular file.
fn kind_of(metadata: &Metadata) -> Found {
    if metadata.is_symlink() {
        Found::Link
    } else if metadata.is_file() {
        Found::File(Node {
            len: metadata.len(),
            names: metadata.nlink(),
            device: metadata.dev(),
            number: metadata.ino(),
            changed: (metadata.ctime(), metadata.ctime_nsec()),
        })
    } else {
        Found::Other
    }
}

/// Whether the lock was given. A file system that has no locks gives each.
fn has_lock(answer: &Result<(), TryLockError>) -> bool {
    !matches!(answer, Err(TryLockError::WouldBlock))
}
