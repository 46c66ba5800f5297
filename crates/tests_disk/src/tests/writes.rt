//! The order of the calls of a write, and what is left if one of them fails.
use super::disk::{Call, PLAIN, Setting, TestDisk, file_of};
use std::alloc::Global;
use std::process::Abort;
use std::test::Fail;
use tree_io::{Found, HostTree, Tree};

/// A write: what is there before, what is written, and the calls.
#[derive(Clone, Copy)]
struct Case {
    is_new: bool,
    old: &'static [u8],
    new: &'static [u8],
    calls: &'static [Call],
}

const CASES: [Case; 5] = [
    // More bytes: first those behind the old end, to the disk; then the front.
    Case {
        is_new: false,
        old: b"abcd",
        new: b"ABCDEFG",
        calls: &[
            Call::Own,
            Call::Look,
            Call::Reopen,
            Call::LookAt,
            Call::Put(4),
            Call::Sync,
            Call::Put(0),
            Call::Put(3),
            Call::Sync,
        ],
    },
    Case {
        is_new: false,
        old: b"abcd",
        new: b"ABCD",
        calls: &[
            Call::Own,
            Call::Look,
            Call::Reopen,
            Call::LookAt,
            Call::Put(0),
            Call::Put(3),
            Call::Cut(4),
            Call::Sync,
        ],
    },
    Case {
        is_new: false,
        old: b"abcd",
        new: b"A",
        calls: &[
            Call::Own,
            Call::Look,
            Call::Reopen,
            Call::LookAt,
            Call::Put(0),
            Call::Cut(1),
            Call::Sync,
        ],
    },
    Case {
        is_new: false,
        old: b"open",
        new: b"",
        calls: &[
            Call::Own,
            Call::Look,
            Call::Reopen,
            Call::LookAt,
            Call::Cut(0),
            Call::Sync,
        ],
    },
    // A new name: its bytes, and then the name.
    Case {
        is_new: true,
        old: b"",
        new: b"AB",
        calls: &[
            Call::Own,
            Call::Look,
            Call::Make,
            Call::Put(0),
            Call::Sync,
            Call::SyncNames,
        ],
    },
];

/// The setting of a case, in which one call fails.
fn setting_of(case: &Case, failing: usize) -> Setting {
    Setting {
        found: if case.is_new {
            Found::Missing
        } else {
            file_of(1)
        },
        opened: file_of(1),
        most: 3,
        failing,
        ..PLAIN
    }
}

#[test]
fn order_of_calls(rt: HostRuntime) -> Result<(), Fail> {
    for case in &CASES {
        let disk = TestDisk::new(rt.alloc(), setting_of(case, 0), case.old)?;
        let mut tree = HostTree::from_disk(rt.alloc(), disk);
        assert!(rt; tree.write("a.ml", case.new).is_ok());
        let disk = tree.into_disk();
        assert_eq!(rt; disk.calls.as_slice(), case.calls);
        assert_eq!(rt; disk.bytes.as_slice(), case.new);
    }
    Ok(())
}

#[test]
fn each_call_fails(rt: HostRuntime) -> Result<(), Fail> {
    for case in &CASES {
        for failing in 1..=case.calls.len() {
            fails_at(&rt, rt.alloc(), case, failing)?;
        }
    }
    Ok(())
}

/// A failed call is a fault, and up to the first byte over an old one the old bytes are there, and no others.
fn fails_at<R: Abort>(rt: &R, alloc: Global, case: &Case, failing: usize) -> Result<(), Fail> {
    let disk = TestDisk::new(alloc, setting_of(case, failing), case.old)?;
    let mut tree = HostTree::from_disk(alloc, disk);
    assert!(rt; tree.write("a.ml", case.new).is_err(), "{failing}");
    let disk = tree.into_disk();
    let before = case.calls.iter().take(failing);
    let touches = |call: &Call| matches!(call, Call::Put(0) | Call::Cut(_));
    if !before.into_iter().any(touches) {
        assert_eq!(rt; disk.bytes.as_slice(), case.old);
    }
    Ok(())
}
