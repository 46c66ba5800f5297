//! A disk in memory whose files have known bytes: the clauses of the calls can be met together, and they say what a
//! write leaves.
ghost use Rattle.std.specs.Prelude.{◌≡◌, ◌≤◌, Some, length, take, IfOk, OnOk};
ghost use Rattle.std.specs.Bool.{⊤};
ghost use Rattle.tree_io.specs.Disk.{PutsAt, Cuts, KeepsFront};

use std::alloc::Global;
use std::io;
use std::io::ErrorKind;
use std::test::Fail;
use tree_io::{Disk, Found, HostTree, Node, Tree};

/// A folder of one file with these bytes, which each opening gets a copy of.
#[derive(Drop)]
struct KnownDisk {
    alloc: Global,
    text: &'static [u8],
}

/// An open file with its bytes.
#[derive(Drop)]
struct KnownFile {
    alloc: Global,
    bytes: Vec<u8>,
}

impl KnownDisk {
    /// What is at the one name.
    fn node(&self, len: usize) -> Found {
        Found::File(Node {
            len: len as u64,
            names: 1,
            device: 1,
            number: 7,
            changed: (5, 0),
        })
    }
}

impl Disk for KnownDisk {
    type Source = &'static [u8];

    type Target = KnownFile;

    type Names = &'static [u8];

    ghost may_read = { λ _ _. ⊤ };

    ghost may_write = { λ _ _. ⊤ };

    ghost may_make = { λ _ _. ⊤ };

    ghost held = { λ file. Some file.bytes.items };

    ghost is_synced = { λ _. ⊤ };

    fn share(&mut self) -> io::Result<bool> {
        Ok(true)
    }

    fn lock_alone(&mut self) -> io::Result<bool> {
        Ok(true)
    }

    fn names(&mut self) -> io::Result<&'static [u8]> {
        Ok(b".\0..\0a.ml\0")
    }

    fn is_removed(&mut self) -> io::Result<bool> {
        Ok(false)
    }

    fn look(&mut self, _name: &str) -> io::Result<Found> {
        Ok(self.node(self.text.len()))
    }

    fn follow(&mut self, _name: &str) -> io::Result<Found> {
        Ok(self.node(self.text.len()))
    }

    fn open(&mut self, _name: &str) -> io::Result<&'static [u8]> {
        Ok(self.text)
    }

    fn reopen(&mut self, _name: &str) -> io::Result<KnownFile> {
        let mut bytes = Vec::new(self.alloc);
        bytes.extend_from_slice(self.text)?;
        Ok(KnownFile {
            alloc: self.alloc,
            bytes,
        })
    }

    fn make(&mut self, _name: &str) -> io::Result<KnownFile> {
        Err(io::Error::from(ErrorKind::AlreadyExists))
    }

    fn look_at(&mut self, file: &KnownFile) -> io::Result<Found> {
        Ok(self.node(file.bytes.len()))
    }

    fn put(&mut self, file: &mut KnownFile, bytes: &[u8], at: u64) -> io::Result<usize> {
        let at = at as usize;
        if at > file.bytes.len() {
            return Err(io::Error::from(ErrorKind::InvalidInput));
        }
        let mut new = Vec::new(file.alloc);
        new.extend_from_slice(&file.bytes[..at])?;
        new.extend_from_slice(bytes)?;
        if let Some(rest) = file.bytes.get(new.len()..) {
            new.extend_from_slice(rest)?;
        }
        file.bytes = new;
        Ok(bytes.len())
    }

    fn cut(&mut self, file: &mut KnownFile, len: u64) -> io::Result<()> {
        file.bytes.truncate(len as usize);
        Ok(())
    }

    fn sync(&mut self, _file: &mut KnownFile) -> io::Result<()> {
        Ok(())
    }

    fn sync_names(&mut self) -> io::Result<()> {
        Ok(())
    }
}

#[test]
fn known_bytes(rt: HostRuntime) -> Result<(), Fail> {
    let alloc = rt.alloc();
    let mut disk = KnownDisk {
        alloc,
        text: b"abcd",
    };
    let mut file = disk.reopen("a.ml")?;
    assert_eq!(rt; disk.put(&mut file, b"EFG", 4)?, 3);
    assert_eq!(rt; disk.put(&mut file, b"AB", 0)?, 2);
    assert_eq!(rt; file.bytes.as_slice(), b"ABcdEFG".as_slice());
    disk.cut(&mut file, 3)?;
    assert_eq!(rt; file.bytes.as_slice(), b"ABc".as_slice());
    assert!(rt; disk.put(&mut file, b"x", 4).is_err());
    let mut tree = HostTree::from_disk(alloc, disk);
    assert!(rt; tree.write("a.ml", b"ABCDEFG").is_ok());
    assert!(rt; tree.write("a.ml", b"A").is_ok());
    Ok(())
}
