//! A disk in memory, with one file, that records its calls and fails at one of them.
ghost use Rattle.std.specs.Prelude.{None};
ghost use Rattle.std.specs.Bool.{⊤};

use std::alloc::Global;
use std::io;
use std::io::ErrorKind;
use tree_io::{Disk, Found, Node};

/// A call of a disk. The looks at names count as those at open files.
#[derive(Clone, Copy, Debug, PartialEq, Eq)]
pub enum Call {
    Share,
    Own,
    Names,
    IsRemoved,
    Look,
    Follow,
    Open,
    Reopen,
    Make,
    LookAt,
    /// A write at an offset.
    Put(u64),
    /// A new length.
    Cut(u64),
    Sync,
    SyncNames,
}

/// What the disk is.
#[derive(Clone, Copy)]
pub struct Setting {
    /// What a look at each name finds.
    pub found: Found,
    /// What each look but the first finds, if that is something else.
    pub again: Option<Found>,
    /// What a look finds behind a link.
    pub behind: Found,
    /// What a look at an open file finds; the length is that of the file.
    pub opened: Found,
    /// Whether another run has a lock.
    pub is_locked: bool,
    /// Whether the folder was removed.
    pub is_removed: bool,
    /// The names of the listing, each ended by a NUL.
    pub names: &'static [u8],
    /// The most bytes that one write takes.
    pub most: usize,
    /// The number of the call that fails, from 1 on; 0 for none.
    pub failing: usize,
}

/// A regular file with so many names, on a disk.
pub fn file_of(names: u64) -> Found {
    Found::File(Node {
        len: 0,
        names,
        device: 1,
        number: 7,
        changed: (5, 0),
    })
}

/// A disk on which nothing is odd.
pub const PLAIN: Setting = Setting {
    found: Found::Missing,
    again: None,
    behind: Found::Missing,
    opened: Found::Missing,
    is_locked: false,
    is_removed: false,
    names: b".\0..\0a.ml\0",
    most: 1_000,
    failing: 0,
};

/// A disk with one file.
#[derive(Drop)]
pub struct TestDisk {
    setting: Setting,
    pub bytes: Vec<u8>,
    pub calls: Vec<Call>,
    text: &'static [u8],
}

/// A new vector of these bytes.
fn copy_of(alloc: Global, bytes: &[u8]) -> io::Result<Vec<u8>> {
    let mut copy = Vec::new(alloc);
    copy.extend_from_slice(bytes)?;
    Ok(copy)
}

impl TestDisk {
    /// A disk whose file has this text, which each reader gets.
    pub fn new(alloc: Global, setting: Setting, text: &'static [u8]) -> io::Result<Self> {
        Ok(TestDisk {
            setting,
            bytes: copy_of(alloc, text)?,
            calls: Vec::new(alloc),
            text,
        })
    }

    /// Records a call, which may be the one that fails.
    fn call(&mut self, call: Call) -> io::Result<()> {
        self.calls.push(call)?;
        if self.calls.len() == self.setting.failing {
            return Err(io::Error::from(ErrorKind::StorageFull));
        }
        Ok(())
    }

    /// A regular file gets the length that it has now.
    fn with_len(&self, found: Found) -> Found {
        match found {
            Found::File(node) => Found::File(Node {
                len: self.bytes.len() as u64,
                ..node
            }),
            other => other,
        }
    }
}

impl Disk for TestDisk {
    type Source = &'static [u8];

    type Target = ();

    type Names = &'static [u8];

    ghost may_read = { λ _ _. ⊤ };

    ghost may_write = { λ _ _. ⊤ };

    ghost may_make = { λ _ _. ⊤ };

    ghost held = { λ _. None };

    ghost is_synced = { λ _. ⊤ };

    fn share(&mut self) -> io::Result<bool> {
        self.call(Call::Share)?;
        Ok(!self.setting.is_locked)
    }

    fn lock_alone(&mut self) -> io::Result<bool> {
        self.call(Call::Own)?;
        Ok(!self.setting.is_locked)
    }

    fn names(&mut self) -> io::Result<&'static [u8]> {
        self.call(Call::Names)?;
        Ok(self.setting.names)
    }

    fn is_removed(&mut self) -> io::Result<bool> {
        self.call(Call::IsRemoved)?;
        Ok(self.setting.is_removed)
    }

    fn look(&mut self, _name: &str) -> io::Result<Found> {
        self.call(Call::Look)?;
        let is_first = self
            .calls
            .iter()
            .filter(|call| **call == Call::Look)
            .count()
            == 1;
        let first = self.setting.found;
        Ok(if is_first {
            first
        } else {
            self.setting.again.unwrap_or(first)
        })
    }

    fn follow(&mut self, _name: &str) -> io::Result<Found> {
        self.call(Call::Follow)?;
        Ok(self.setting.behind)
    }

    fn open(&mut self, _name: &str) -> io::Result<&'static [u8]> {
        self.call(Call::Open)?;
        Ok(self.text)
    }

    fn reopen(&mut self, _name: &str) -> io::Result<()> {
        self.call(Call::Reopen)
    }

    fn make(&mut self, _name: &str) -> io::Result<()> {
        self.call(Call::Make)
    }

    fn look_at(&mut self, _file: &()) -> io::Result<Found> {
        self.call(Call::LookAt)?;
        Ok(self.with_len(self.setting.opened))
    }

    /// A write that fails has put half of its bytes.
    fn put(&mut self, _file: &mut (), bytes: &[u8], at: u64) -> io::Result<usize> {
        let answer = self.call(Call::Put(at));
        let count = bytes.len().min(self.setting.most);
        let put = if answer.is_err() { count / 2 } else { count };
        for (index, byte) in bytes.iter().enumerate() {
            if index >= put {
                break;
            }
            let place = (at as usize).saturating_add(index);
            match self.bytes.get_mut(place) {
                Some(old) => *old = *byte,
                None => self.bytes.push(*byte)?,
            }
        }
        answer?;
        Ok(count)
    }

    fn cut(&mut self, _file: &mut (), len: u64) -> io::Result<()> {
        self.call(Call::Cut(len))?;
        self.bytes.truncate(len as usize);
        Ok(())
    }

    fn sync(&mut self, _file: &mut ()) -> io::Result<()> {
        self.call(Call::Sync)
    }

    fn sync_names(&mut self) -> io::Result<()> {
        self.call(Call::SyncNames)
    }
}
