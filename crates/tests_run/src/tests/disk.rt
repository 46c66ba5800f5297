//! A disk in memory with some files, which records its calls.
ghost use Rattle.std.specs.Prelude.{None};
ghost use Rattle.std.specs.Bool.{⊤};

use std::alloc::Global;
use std::cell::{Cell, RefCell};
use std::io;
use std::io::ErrorKind;
use tree_io::{Disk, Found, Node};

/// The calls of a disk.
#[derive(Drop)]
pub struct Calls {
    /// All of them.
    pub count: Cell<u32>,
    /// The listings.
    pub listings: Cell<u32>,
    /// The names that were opened for reading, in order.
    pub opened: RefCell<Vec<String>>,
    /// The names that were made or opened for writing, in order.
    pub written: RefCell<Vec<String>>,
}

impl Calls {
    /// No call.
    pub fn new(alloc: Global) -> Self {
        Calls {
            count: Cell::new(0),
            listings: Cell::new(0),
            opened: RefCell::new(Vec::new(alloc)),
            written: RefCell::new(Vec::new(alloc)),
        }
    }

    /// One more call.
    fn add(&self) {
        self.count.set(self.count.get().saturating_add(1));
    }
}

/// Adds a name to a record.
fn record(alloc: Global, names: &RefCell<Vec<String>>, name: &str) -> io::Result<()> {
    if let Ok(mut names) = names.try_borrow_mut() {
        names.push(String::from_str(alloc, name)?)?;
    }
    Ok(())
}

/// Whether a record has just these names.
pub fn are_names(names: &RefCell<Vec<String>>, wanted: &[&str]) -> bool {
    match names.try_borrow() {
        Ok(names) => {
            names.len() == wanted.len()
                && names
                    .iter()
                    .zip(wanted.iter())
                    .all(|(name, word)| name.as_str() == *word)
        }
        Err(_) => false,
    }
}

/// What is at a name.
#[derive(Clone, Copy)]
pub enum Thing {
    File(&'static str),
    Pipe,
}

/// A disk with these things.
#[derive(Drop)]
pub struct NamedDisk<'a> {
    pub alloc: Global,
    pub things: &'static [(&'static str, Thing)],
    /// The names of the listing, each ended by a NUL.
    pub names: &'a [u8],
    pub calls: &'a Calls,
}

impl<'a> NamedDisk<'a> {
    /// What is at a name.
    fn at(&self, name: &str) -> Found {
        for (index, (other, thing)) in self.things.iter().enumerate() {
            if *other == name {
                return match thing {
                    Thing::Pipe => Found::Other,
                    Thing::File(text) => Found::File(Node {
                        len: text.len() as u64,
                        names: 1,
                        device: 1,
                        number: index as u64,
                        changed: (5, 0),
                    }),
                };
            }
        }
        Found::Missing
    }
}

impl<'a> Disk for NamedDisk<'a> {
    type Source = &'static [u8];

    type Target = String;

    type Names = &'a [u8];

    ghost may_read = { λ _ _. ⊤ };

    ghost may_write = { λ _ _. ⊤ };

    ghost may_make = { λ _ _. ⊤ };

    ghost held = { λ _. None };

    ghost is_synced = { λ _. ⊤ };

    fn share(&mut self) -> io::Result<bool> {
        self.calls.add();
        Ok(true)
    }

    fn lock_alone(&mut self) -> io::Result<bool> {
        self.calls.add();
        Ok(true)
    }

    fn names(&mut self) -> io::Result<&'a [u8]> {
        self.calls.add();
        self.calls
            .listings
            .set(self.calls.listings.get().saturating_add(1));
        Ok(self.names)
    }

    fn is_removed(&mut self) -> io::Result<bool> {
        self.calls.add();
        Ok(false)
    }

    fn look(&mut self, name: &str) -> io::Result<Found> {
        self.calls.add();
        Ok(self.at(name))
    }

    fn follow(&mut self, name: &str) -> io::Result<Found> {
        self.calls.add();
        Ok(self.at(name))
    }

    fn open(&mut self, name: &str) -> io::Result<&'static [u8]> {
        self.calls.add();
        record(self.alloc, &self.calls.opened, name)?;
        for (other, thing) in self.things {
            if *other == name {
                if let Thing::File(text) = thing {
                    return Ok(text.as_bytes());
                }
            }
        }
        Err(io::Error::from(ErrorKind::NotFound))
    }

    fn reopen(&mut self, name: &str) -> io::Result<String> {
        self.calls.add();
        Ok(String::from_str(self.alloc, name)?)
    }

    fn make(&mut self, name: &str) -> io::Result<String> {
        self.calls.add();
        Ok(String::from_str(self.alloc, name)?)
    }

    fn look_at(&mut self, file: &String) -> io::Result<Found> {
        self.calls.add();
        Ok(self.at(file.as_str()))
    }

    fn put(&mut self, file: &mut String, bytes: &[u8], _at: u64) -> io::Result<usize> {
        self.calls.add();
        record(self.alloc, &self.calls.written, file.as_str())?;
        Ok(bytes.len())
    }

    fn cut(&mut self, _file: &mut String, _len: u64) -> io::Result<()> {
        self.calls.add();
        Ok(())
    }

    fn sync(&mut self, _file: &mut String) -> io::Result<()> {
        self.calls.add();
        Ok(())
    }

    fn sync_names(&mut self) -> io::Result<()> {
        self.calls.add();
        Ok(())
    }
}
