//! Row one-line over the folders that do not fail, and over the system's.
use super::run::{ONE_LINE, ONE_LINE_BACK, ONE_LINE_NEW, ONE_LINE_TEXT, run_command};
use crate::one_file;
use rotor_app::Status;
use std::fs;
use std::test::Fail;
use tree_io::{HostSink, HostTree, MemSink, SoundTree};

#[test]
fn sound_tree(rt: HostRuntime) -> Result<(), Fail> {
    let alloc = rt.alloc();
    let mut tree = SoundTree::new(alloc, one_file(alloc, "a.ml", ONE_LINE)?)?;
    let mut sink = MemSink::new(alloc, 68, Vec::new(alloc))?;
    let list = ["rename", "A.x", "z", "--write"];
    let status = run_command(alloc, &list, &mut tree, &mut sink)?;
    assert_eq!(rt; status, Status::Done);
    assert_eq!(rt; sink.bytes(), ONE_LINE_TEXT.as_bytes());
    let after = tree.get("a.ml").ok_or("no file")?;
    assert_eq!(rt; after, ONE_LINE_NEW.as_bytes());
    assert!(rt; tree.get("b.ml").is_none());
    Ok(())
}

#[test]
fn host_tree(rt: HostRuntime) -> Result<(), Fail> {
    let alloc = rt.alloc();
    fs::write(&rt, "a.ml", ONE_LINE)?;
    let mut tree = HostTree::new(&rt);
    let steps = [
        (
            ["rename", "A.x", "z", "--write"],
            ONE_LINE_NEW,
            ONE_LINE_TEXT,
        ),
        (
            ["rename", "a.ml#2", "x", "--write"],
            ONE_LINE,
            ONE_LINE_BACK,
        ),
    ];
    for (step, after, text) in steps {
        let mut sink = MemSink::new(alloc, 1_000, Vec::new(alloc))?;
        let status = run_command(alloc, &step, &mut tree, &mut sink)?;
        assert_eq!(rt; status, Status::Done, "{after}");
        assert_eq!(rt; sink.bytes(), text.as_bytes());
        assert_eq!(rt; fs::read_to_string(&rt, "a.ml")?.as_str(), after);
    }
    // The standard output takes the line of a refusal, and the file stays.
    let list = ["rename", "A.q", "z", "--write"];
    let status = run_command(alloc, &list, &mut tree, &mut HostSink::new(&rt))?;
    assert_eq!(rt; status, Status::Refused);
    assert_eq!(rt; fs::read_to_string(&rt, "a.ml")?.as_str(), ONE_LINE);
    fs::remove_file(&rt, "a.ml")?;
    Ok(())
}
