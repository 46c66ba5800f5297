//! The calls on a folder of a disk that the system's folder is built on.
ghost use Rattle.std.specs.Prelude.{◌≡◌, ◌≤◌, List, ℕ, Option, length, take, IfOk, OnOk};
ghost use Rattle.tree_io.specs.declared.disk.Found.TheVariants as variant;
ghost use Rattle.tree_io.specs.Disk.{IsAlone, IsRegular, PutsAt, Cuts, KeepsFront};

use std::io;
use std::io::Read;

/// What a look finds at a name.
#[derive(Clone, Copy, Debug, PartialEq, Eq)]
pub enum Found {
    Missing,
    /// A regular file.
    File(Node),
    /// A symbolic link. What it leads to was not looked at.
    Link,
    /// A folder, say, or a FIFO.
    Other,
}

/// A regular file of a disk.
#[derive(Clone, Copy, Debug, PartialEq, Eq)]
pub struct Node {
    /// The count of its bytes.
    pub len: u64,
    /// The count of its names, in all folders.
    pub names: u64,
    /// The disk, by the system's number.
    pub device: u64,
    /// The file on its disk, by the system's number.
    pub number: u64,
    /// The time of its last change: seconds from the system's zero, and nanoseconds.
    pub changed: (i64, i64),
}

/// A folder of a disk. A name is opened only behind a look that allows it: so much is required of each caller.
pub trait Disk {
    /// A file that is open for reading.
    type Source: Read + Drop;

    /// A file that is open for writing.
    type Target: Drop;

    /// The names of the folder, each ended by a NUL.
    type Names: Read + Drop;

    /// A look found a regular file under this name.
    ghost may_read: { Self → List ℕ → Type 0 };

    /// A look found a regular file under this name, which is no link, and no other name of the file.
    ghost may_write: { Self → List ℕ → Type 0 };

    /// A look found nothing under this name.
    ghost may_make: { Self → List ℕ → Type 0 };

    /// The bytes of an open file, if they are modelled.
    ghost held: { Self.Target → Option (List ℕ) };

    /// All that was written to an open file is on the disk.
    ghost is_synced: { Self.Target → Type 0 };

    /// Takes the lock of the folder for readers, which it keeps. `false`: another run has the lock for writers.
    fn share(&mut self) -> io::Result<bool>;

    /// Takes the lock of the folder for a writer, which it keeps. `false`: another run has a lock.
    fn lock_alone(&mut self) -> io::Result<bool>;

    /// Opens the listing of the folder.
    fn names(&mut self) -> io::Result<Self::Names>;

    /// Whether the folder was removed.
    fn is_removed(&mut self) -> io::Result<bool>;

    /// What is at a name. No link is followed.
    fn look(&mut self, name: &str) -> io::Result<Found>
        ensures read { IfOk result (λ found. IsRegular found → may_read self.new name.now) }
        ensures write { IfOk result (λ found. IsAlone found → may_write self.new name.now) }
        ensures make { IfOk result (λ found. found ≡ variant.Missing → may_make self.new name.now) };

    /// What a name leads to.
    fn follow(&mut self, name: &str) -> io::Result<Found>
        ensures read { IfOk result (λ found. IsRegular found → may_read self.new name.now) };

    /// Opens a file for reading.
    fn open(&mut self, name: &str) -> io::Result<Self::Source>
        requires { may_read self.old name.now };

    /// Opens a file for writing, and leaves its bytes.
    fn reopen(&mut self, name: &str) -> io::Result<Self::Target>
        requires { may_write self.old name.now };

    /// Makes a file, and fails if one is there.
    fn make(&mut self, name: &str) -> io::Result<Self::Target>
        requires { may_make self.old name.now };

    /// What an open file is.
    fn look_at(&mut self, file: &Self::Target) -> io::Result<Found>;

    /// Writes some of the bytes at an offset, and answers how many.
    fn put(&mut self, file: &mut Self::Target, bytes: &[u8], at: u64) -> io::Result<usize>
        ensures count { IfOk result (λ count. count ≤ length bytes.now) }
        ensures bytes { IfOk result (λ count. PutsAt at (take count bytes.now) (held file.old) (held file.new)) }
        ensures front { KeepsFront at (held file.old) (held file.new) };

    /// Makes an open file so long.
    fn cut(&mut self, file: &mut Self::Target, len: u64) -> io::Result<()>
        ensures bytes { OnOk result (Cuts len (held file.old) (held file.new)) }
        ensures front { KeepsFront len (held file.old) (held file.new) };

    /// Waits until all that was written to the file is on the disk.
    fn sync(&mut self, file: &mut Self::Target) -> io::Result<()>
        ensures synced { OnOk result (is_synced file.new) }
        ensures bytes { held file.new ≡ held file.old };

    /// Waits until the names of the folder are on the disk.
    fn sync_names(&mut self) -> io::Result<()>;
}
