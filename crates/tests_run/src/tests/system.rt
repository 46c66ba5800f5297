//! The system's folder: files, a folder of a source's name, a source that leads nowhere, and a name that is no text.
use project_load::load;
use rotor_base::{LoadError, SourceFile};
use std::alloc::{Allocator, Global};
use std::fs::{File, Files, Metadata, OpenOptions};
use std::process::Abort;
use std::test::Fail;
use std::{fs, io};
use tree_io::{HostDisk, HostTree};

/// The answer of a load.
#[derive(Clone, Copy)]
enum Wanted {
    /// The sources in order, with their texts.
    Loaded(&'static [(&'static str, &'static str)]),
    Read,
}

/// Whether a load answered so.
fn is_wanted(answer: &Result<rotor_base::Files, LoadError>, wanted: &Wanted) -> bool {
    match answer {
        Ok(files) => match wanted {
            Wanted::Loaded(sources) => are_sources(files.entries(), sources),
            Wanted::Read => false,
        },
        Err(LoadError::Read) => matches!(wanted, Wanted::Read),
        Err(_) => false,
    }
}

/// Whether these are the sources with their texts.
fn are_sources(files: &[SourceFile], sources: &[(&str, &str)]) -> bool {
    if files.len() != sources.len() {
        return false;
    }
    for (file, (name, text)) in files.iter().zip(sources.iter()) {
        let is_same = file.name.as_str() == *name && file.bytes.as_slice() == text.as_bytes();
        if !is_same {
            return false;
        }
    }
    true
}

/// Whether the folder of a system loads so.
fn loads_as<R: Files<File = File>>(alloc: Global, system: &R, wanted: &Wanted) -> bool {
    let mut tree = HostTree::from_disk(alloc, HostDisk::new(system));
    is_wanted(&load(alloc, &mut tree), wanted)
}

/// The system's files, with a listing of its own.
#[derive(Clone, Copy)]
struct Listed<'a, R> {
    rt: &'a R,
    names: &'a [u8],
}

impl<'a, R: Files> Files for Listed<'a, R> {
    type File = R::File;

    type Dir = &'a [u8];

    fn open_file(&self, how: &OpenOptions, path: &str) -> io::Result<R::File> {
        self.rt.open_file(how, path)
    }

    fn open_dir(&self, _path: &str) -> io::Result<&'a [u8]> {
        Ok(self.names)
    }

    fn metadata(&self, path: &str) -> io::Result<Metadata> {
        self.rt.metadata(path)
    }

    fn symlink_metadata(&self, path: &str) -> io::Result<Metadata> {
        self.rt.symlink_metadata(path)
    }

    fn copy(&self, from: &str, to: &str) -> io::Result<u64> {
        self.rt.copy(from, to)
    }

    fn rename(&self, from: &str, to: &str) -> io::Result<()> {
        self.rt.rename(from, to)
    }

    fn remove_file(&self, path: &str) -> io::Result<()> {
        self.rt.remove_file(path)
    }

    fn create_dir(&self, path: &str) -> io::Result<()> {
        self.rt.create_dir(path)
    }

    fn remove_dir(&self, path: &str) -> io::Result<()> {
        self.rt.remove_dir(path)
    }

    fn remove_dir_all<B: Allocator>(&self, alloc: B, path: &str) -> io::Result<()> {
        self.rt.remove_dir_all(alloc, path)
    }
}

#[test]
fn loaded_folder(rt: HostRuntime) -> Result<(), Fail> {
    let alloc = rt.alloc();
    fs::write(&rt, "b.ml", "let y = 1")?;
    fs::write(&rt, "a.mli", "val x : int")?;
    fs::write(&rt, "rotor.units", "B\r\nA")?;
    fs::write(&rt, "notes", "c")?;
    fs::create_dir(&rt, "sub.ml.d")?;
    let mut tree = HostTree::new(&rt);
    let wanted = Wanted::Loaded(&[("a.mli", "val x : int"), ("b.ml", "let y = 1")]);
    assert!(rt; is_wanted(&load(alloc, &mut tree), &wanted), "files");
    // A folder of a source's name cannot be read.
    fs::create_dir(&rt, "c.ml")?;
    assert!(rt;
        is_wanted(&load(alloc, &mut tree), &Wanted::Read),
        "a folder"
    );
    fs::remove_dir(&rt, "c.ml")?;
    // Nor can a link that leads nowhere.
    rt.symlink("nowhere", "c.ml")?;
    assert!(rt; is_wanted(&load(alloc, &mut tree), &Wanted::Read), "a link");
    fs::remove_file(&rt, "c.ml")?;
    assert!(rt; is_wanted(&load(alloc, &mut tree), &wanted), "files again");
    for name in ["a.mli", "b.ml", "notes", "rotor.units"] {
        fs::remove_file(&rt, name)?;
    }
    fs::remove_dir(&rt, "sub.ml.d")?;
    odd_names(&rt, alloc)
}

/// Loads with listings that a folder in memory cannot have.
fn odd_names<R: Abort + Files<File = File>>(rt: &R, alloc: Global) -> Result<(), Fail> {
    fs::write(rt, "a.ml", "let x = 1")?;
    // A name that is listed twice is loaded once; one that is no UTF-8 is a fault, a source or not.
    let cases: [(&[u8], Wanted); 4] = [
        (
            b".\0..\0a.ml\0\xc3\xa9\0a.ml\0",
            Wanted::Loaded(&[("a.ml", "let x = 1")]),
        ),
        (b"a.ml\0\xff.ml\0", Wanted::Read),
        (b"\xc3\0a.ml\0", Wanted::Read),
        (b"a.ml\0b.ml\0", Wanted::Read),
    ];
    for (names, wanted) in cases {
        assert!(rt;
            loads_as(alloc, &Listed { rt, names }, &wanted),
            "{names:?}"
        );
    }
    fs::remove_file(rt, "a.ml")?;
    Ok(())
}
