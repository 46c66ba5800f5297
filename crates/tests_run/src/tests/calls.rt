//! The names that a command lists, opens and writes.
use super::disk::{Calls, NamedDisk, Thing, are_names};
use known::{Known, see_names};
use rotor_app::Status;
use rotor_base::{SourceFile, Text};
use rotor_run::{run_command, run_over};
use std::alloc::Global;
use std::test::Fail;
use tree_io::{HostTree, MemSink, SoundTree, have_distinct_names};

/// The names of a listing that has only those of the things.
fn list_names(alloc: Global, things: &[(&str, Thing)]) -> Result<Vec<u8>, Fail> {
    let mut names = Vec::new(alloc);
    for (name, _) in things {
        names.extend_from_slice(name.as_bytes())?;
        names.push(0)?;
    }
    Ok(names)
}

/// The words of a command line, which a space parts.
fn words_of(alloc: Global, line: &str) -> Result<Vec<String>, Fail> {
    let mut words = Vec::new(alloc);
    for word in line.split(' ') {
        words.push(String::from_str(alloc, word)?)?;
    }
    Ok(words)
}

/// Runs the words over a disk, and returns the status.
fn run_on(
    alloc: Global,
    line: &str,
    things: &'static [(&'static str, Thing)],
    names: &[u8],
    calls: &Calls,
) -> Result<Status, Fail> {
    let words = words_of(alloc, line)?;
    let disk = NamedDisk {
        alloc,
        things,
        names,
        calls,
    };
    let mut out = MemSink::new(alloc, 1_000_000, Vec::new(alloc))?;
    Ok(run_command(alloc, &words, HostTree::from_disk(alloc, disk), &mut out).status)
}

/// A row: the words, the status, and the names that are opened and written.
#[derive(Clone, Copy)]
struct Row {
    line: &'static str,
    status: Status,
    opened: &'static [&'static str],
    written: &'static [&'static str],
}

/// A project with files that no command reads.
const PROJECT: &[(&str, Thing)] = &[
    ("notes.txt", Thing::File("not read\n")),
    ("b.ml", Thing::File("let y = A.x\n")),
    ("pipe", Thing::Pipe),
    ("a.ml", Thing::File("let x = 1\n")),
    ("steps", Thing::File("A.x z\n")),
    ("old", Thing::File("a.ml a.ml\n")),
    ("new", Thing::File("a.ml after\n")),
    ("after", Thing::File("let z = 1\n")),
];

/// The rows over the project.
const ROWS: &[Row] = &[
    Row {
        line: "check",
        status: Status::Done,
        opened: &["a.ml", "b.ml"],
        written: &[],
    },
    Row {
        line: "footprint A.x",
        status: Status::Done,
        opened: &["a.ml", "b.ml"],
        written: &[],
    },
    Row {
        line: "rename A.x z",
        status: Status::Done,
        opened: &["a.ml", "b.ml"],
        written: &[],
    },
    Row {
        line: "rename A.x z --write",
        status: Status::Done,
        opened: &["a.ml", "b.ml"],
        written: &["a.ml", "b.ml"],
    },
    Row {
        line: "rename A.x z --safe",
        status: Status::Done,
        opened: &["a.ml", "b.ml"],
        written: &["rotor.plan", "rotor.gate", "a.ml", "b.ml"],
    },
    Row {
        line: "batch steps --write",
        status: Status::Done,
        opened: &["a.ml", "b.ml", "steps"],
        written: &["a.ml", "b.ml"],
    },
    Row {
        line: "batch steps",
        status: Status::Done,
        opened: &["a.ml", "b.ml", "steps"],
        written: &[],
    },
    Row {
        line: "batch none",
        status: Status::Project,
        opened: &["a.ml", "b.ml"],
        written: &[],
    },
    Row {
        line: "verify old new",
        status: Status::Done,
        opened: &["old", "a.ml", "new", "after"],
        written: &[],
    },
    Row {
        line: "recover",
        status: Status::Done,
        opened: &[],
        written: &[],
    },
];

/// Whether a row is met: the folder is listed once, each file is opened once.
fn is_met(alloc: Global, row: &Row) -> Result<bool, Fail> {
    let calls = Calls::new(alloc);
    let names = list_names(alloc, PROJECT)?;
    let status = run_on(alloc, row.line, PROJECT, &names, &calls)?;
    Ok(
        status == row.status
            && calls.listings.get() == 1
            && are_names(&calls.opened, row.opened)
            && are_names(&calls.written, row.written),
    )
}

#[test]
fn each_file_is_opened_once(rt: HostRuntime) -> Result<(), Fail> {
    for row in ROWS {
        assert!(rt; is_met(rt.alloc(), row)?, "{}", row.line);
    }
    Ok(())
}

/// Words that ask nothing of the folder.
const ALONE: &[&str] = &["sample 2", "check me", "rename", "recover --write"];

#[test]
fn words_that_ask_nothing_call_nothing(rt: HostRuntime) -> Result<(), Fail> {
    for line in ALONE {
        let calls = Calls::new(rt.alloc());
        let names = list_names(rt.alloc(), PROJECT)?;
        run_on(rt.alloc(), line, PROJECT, &names, &calls)?;
        assert_eq!(rt; calls.count.get(), 0);
    }
    Ok(())
}

/// A project whose gate is open.
const STOPPED: &[(&str, Thing)] = &[
    ("a.ml", Thing::File("let x = 1\n")),
    ("rotor.gate", Thing::File("open\n")),
    ("steps", Thing::File("A.x z\n")),
];

#[test]
fn an_open_gate_stops_before_the_batch(rt: HostRuntime) -> Result<(), Fail> {
    let calls = Calls::new(rt.alloc());
    let names = list_names(rt.alloc(), STOPPED)?;
    let status = run_on(rt.alloc(), "batch steps --write", STOPPED, &names, &calls)?;
    assert_eq!(rt; status, Status::Project);
    assert_eq!(rt; calls.listings.get(), 1);
    assert!(rt; are_names(&calls.opened, &["a.ml", "rotor.gate"]));
    assert!(rt; are_names(&calls.written, &[]));
    Ok(())
}

/// The count of the names that no command reads.
const OTHERS: u32 = 20_000;

#[test]
fn other_names_are_not_opened(rt: HostRuntime) -> Result<(), Fail> {
    let calls = Calls::new(rt.alloc());
    let mut names = list_names(rt.alloc(), PROJECT)?;
    for number in 0..OTHERS {
        let name = format!(in rt.alloc(); "other.{number}\0")?;
        names.extend_from_slice(name.as_bytes())?;
    }
    let status = run_on(rt.alloc(), "check", PROJECT, &names, &calls)?;
    assert_eq!(rt; status, Status::Done);
    assert_eq!(rt; calls.listings.get(), 1);
    assert!(rt; are_names(&calls.opened, &["a.ml", "b.ml"]));
    Ok(())
}

#[test]
fn unread_files_are_read_in_further_turns(rt: HostRuntime) -> Result<(), Fail> {
    let alloc = rt.alloc();
    let calls = Calls::new(alloc);
    let names = list_names(alloc, PROJECT)?;
    let disk = NamedDisk {
        alloc,
        things: PROJECT,
        names: &names,
        calls: &calls,
    };
    let mut tree = HostTree::from_disk(alloc, disk);
    let seen = see_names(alloc, &mut tree).map_err(|_| "no names")?;
    let mut known = Known::new(alloc, tree, seen).map_err(|_| "no memory")?;
    let mut out = MemSink::new(alloc, 1_000, Vec::new(alloc))?;
    let words = words_of(alloc, "rename A.x z --write")?;
    assert_eq!(rt; run_over(alloc, &words, &mut known, &mut out), Status::Done);
    assert_eq!(rt; calls.listings.get(), 1);
    assert!(rt; are_names(&calls.opened, &["a.ml", "b.ml"]));
    assert!(rt; are_names(&calls.written, &["a.ml", "b.ml"]));
    Ok(())
}

/// A file of a folder in memory.
fn file_of(alloc: Global, name: &str, bytes: &[u8]) -> Result<SourceFile, Fail> {
    Ok(SourceFile {
        name: Text::from_string(String::from_str(alloc, name)?),
        bytes: rotor_base::Row::from_vec(bytes.to_vec(alloc)?),
    })
}

#[test]
fn a_folder_in_memory_is_left_with_the_writes(rt: HostRuntime) -> Result<(), Fail> {
    let alloc = rt.alloc();
    let mut files = Vec::new(alloc);
    files.push(file_of(alloc, "a.ml", b"let x = 1\n")?)?;
    files.push(file_of(alloc, "b.ml", b"let y = A.x\n")?)?;
    files.push(file_of(alloc, "notes.txt", b"not read\n")?)?;
    assert!(rt; have_distinct_names(&files), "a name twice");
    let tree = SoundTree::new(alloc, files)?;
    let mut out = MemSink::new(alloc, 1_000, Vec::new(alloc))?;
    let words = words_of(alloc, "rename A.x z --write")?;
    let ended = run_command(alloc, &words, tree, &mut out);
    assert_eq!(rt; ended.status, Status::Done);
    assert!(rt; ended.folder.get("a.ml") == Some(b"let z = 1\n"));
    assert!(rt; ended.folder.get("b.ml") == Some(b"let y = A.z\n"));
    assert!(rt; ended.folder.get("notes.txt") == Some(b"not read\n"));
    Ok(())
}
