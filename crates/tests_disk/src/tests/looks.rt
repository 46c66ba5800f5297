//! What is looked at before a name is opened, and what a look stops.
use super::disk::{Call, PLAIN, Setting, TestDisk, file_of};
use std::alloc::Global;
use std::process::Abort;
use std::test::Fail;
use tree_io::{Found, HostTree, Node, Tree};

/// A folder in which a write may not begin, and the calls of `room` there.
const BLOCKING: [(Setting, &[Call]); 5] = [
    (
        Setting {
            found: Found::Link,
            ..PLAIN
        },
        &[Call::Own, Call::Look],
    ),
    (
        Setting {
            found: Found::Other,
            ..PLAIN
        },
        &[Call::Own, Call::Look],
    ),
    (
        Setting {
            is_locked: true,
            ..PLAIN
        },
        &[Call::Own],
    ),
    // The looks themselves fail.
    (
        Setting {
            failing: 1,
            ..PLAIN
        },
        &[Call::Own],
    ),
    (
        Setting {
            failing: 2,
            ..PLAIN
        },
        &[Call::Own, Call::Look],
    ),
];

#[test]
fn blocked_rooms(rt: HostRuntime) -> Result<(), Fail> {
    for (setting, calls) in BLOCKING {
        is_blocked(&rt, rt.alloc(), setting, calls)?;
    }
    let several = Setting {
        found: file_of(2),
        ..PLAIN
    };
    is_blocked(&rt, rt.alloc(), several, &[Call::Own, Call::Look])?;
    // It cannot be opened for writing.
    let refused = Setting {
        found: file_of(1),
        failing: 3,
        ..PLAIN
    };
    is_blocked(
        &rt,
        rt.alloc(),
        refused,
        &[Call::Own, Call::Look, Call::Reopen],
    )
}

/// `room` makes these calls and no fault; after it a write is a fault and makes no call.
fn is_blocked<R: Abort>(
    rt: &R,
    alloc: Global,
    setting: Setting,
    calls: &[Call],
) -> Result<(), Fail> {
    let mut tree = HostTree::from_disk(alloc, TestDisk::new(alloc, setting, b"abcd")?);
    assert!(rt; tree.room(alloc, "a.ml", 7).is_ok());
    assert!(rt; tree.write("a.ml", b"new").is_err());
    assert!(rt; tree.write("b.ml", b"new").is_err());
    let disk = tree.into_disk();
    assert_eq!(rt; disk.calls.as_slice(), calls);
    assert_eq!(rt; disk.bytes.as_slice(), b"abcd".as_slice());
    Ok(())
}

#[test]
fn read_names(rt: HostRuntime) -> Result<(), Fail> {
    let link = Setting {
        found: Found::Link,
        behind: file_of(1),
        ..PLAIN
    };
    let calls = [Call::Look, Call::Follow, Call::Open];
    is_read(&rt, rt.alloc(), link, &calls)?;
    let several = Setting {
        found: file_of(2),
        ..PLAIN
    };
    is_read(&rt, rt.alloc(), several, &[Call::Look, Call::Open])
}

/// The file is read, and then no write is sound.
fn is_read<R: Abort>(rt: &R, alloc: Global, setting: Setting, calls: &[Call]) -> Result<(), Fail> {
    let mut tree = HostTree::from_disk(alloc, TestDisk::new(alloc, setting, b"abcd")?);
    let bytes = tree.read(alloc, "a.ml", 3).map_err(|_| "no bytes")?;
    assert_eq!(rt; bytes.as_slice(), b"abc".as_slice());
    assert!(rt; tree.write("b.ml", b"new").is_err());
    assert_eq!(rt; tree.into_disk().calls.as_slice(), calls);
    Ok(())
}

#[test]
fn unread_names(rt: HostRuntime) -> Result<(), Fail> {
    let loops = Setting {
        found: Found::Link,
        ..PLAIN
    };
    let other = Setting {
        found: Found::Other,
        ..PLAIN
    };
    for setting in [
        PLAIN,
        loops,
        other,
        Setting {
            failing: 1,
            ..PLAIN
        },
    ] {
        let mut tree = HostTree::from_disk(
            rt.alloc(),
            TestDisk::new(rt.alloc(), setting, b"abcd")?,
        );
        assert!(rt; tree.read(rt.alloc(), "a.ml", 3).is_err());
        let disk = tree.into_disk();
        assert!(rt; !disk.calls.iter().any(|call| *call == Call::Open));
    }
    Ok(())
}

#[test]
fn listed_names(rt: HostRuntime) -> Result<(), Fail> {
    let removed = Setting {
        names: b"",
        is_removed: true,
        ..PLAIN
    };
    let locked = Setting {
        is_locked: true,
        ..PLAIN
    };
    for setting in [
        removed,
        locked,
        Setting {
            failing: 1,
            ..PLAIN
        },
        Setting {
            failing: 2,
            ..PLAIN
        },
    ] {
        let mut tree = HostTree::from_disk(rt.alloc(), TestDisk::new(rt.alloc(), setting, b"")?);
        assert!(rt; tree.list(rt.alloc()).is_err());
    }
    let mut tree = HostTree::from_disk(rt.alloc(), TestDisk::new(rt.alloc(), PLAIN, b"")?);
    let names = tree.list(rt.alloc()).map_err(|_| "no names")?;
    assert_eq!(rt; names.len(), 1);
    Ok(())
}

/// Another file than the one of `file_of`.
fn make_numbered(device: u64, number: u64) -> Found {
    Found::File(Node {
        len: 4,
        names: 1,
        device,
        number,
        changed: (5, 0),
    })
}

#[test]
fn changed_meanwhile(rt: HostRuntime) -> Result<(), Fail> {
    let as_read = node_of(4, 7, (5, 0));
    let later = [
        (as_read, true),
        (node_of(5, 7, (5, 0)), false),
        (node_of(4, 8, (5, 0)), false),
        (node_of(4, 7, (6, 0)), false),
        (node_of(4, 7, (5, 1)), false),
        (Found::Missing, false),
        (Found::Link, false),
    ];
    for (again, is_sound) in later {
        let setting = Setting {
            found: as_read,
            again: Some(again),
            opened: again,
            ..PLAIN
        };
        let alloc = rt.alloc();
        let mut tree = HostTree::from_disk(alloc, TestDisk::new(alloc, setting, b"abcd")?);
        assert!(rt; tree.read(alloc, "a.ml", 4).is_ok());
        assert!(rt; tree.room(alloc, "b.ml", 3).is_ok());
        assert_eq!(rt; tree.write("b.ml", b"new").is_ok(), is_sound);
    }
    Ok(())
}

/// A regular file with one name, of this length, number and time of change.
fn node_of(len: u64, number: u64, changed: (i64, i64)) -> Found {
    Found::File(Node {
        len,
        names: 1,
        device: 1,
        number,
        changed,
    })
}

#[test]
fn exchanged_file(rt: HostRuntime) -> Result<(), Fail> {
    // Between the look and the opening another thing was put in the file's place.
    for opened in [
        Found::Missing,
        Found::Link,
        Found::Other,
        file_of(2),
        make_numbered(1, 8),
        make_numbered(2, 7),
    ] {
        let setting = Setting {
            found: file_of(1),
            opened,
            ..PLAIN
        };
        let mut tree = HostTree::from_disk(
            rt.alloc(),
            TestDisk::new(rt.alloc(), setting, b"abcd")?,
        );
        assert!(rt; tree.write("a.ml", b"new").is_err());
        let disk = tree.into_disk();
        assert_eq!(rt; disk.bytes.as_slice(), b"abcd".as_slice());
    }
    Ok(())
}
