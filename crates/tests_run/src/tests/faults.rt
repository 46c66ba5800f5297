//! A command over a folder whose call failed before.
use super::run::{ONE_LINE, ONE_LINE_NEW, ONE_LINE_TEXT, folder, holds, run_command};
use rotor_app::Status;
use std::test::Fail;
use tree_io::MemSink;

#[test]
fn again_after_a_fault(rt: HostRuntime) -> Result<(), Fail> {
    let alloc = rt.alloc();
    let list = ["rename", "A.x", "z", "--write"];
    for call in [1, 2, 3] {
        let mut tree = folder(&rt, alloc, &[("a.ml", ONE_LINE)], &[call])?;
        let mut sink = MemSink::new(alloc, 1_000, Vec::new(alloc))?;
        let status = run_command(alloc, &list, &mut tree, &mut sink)?;
        assert_eq!(rt; status, Status::TreeFault);
        let status = run_command(alloc, &list, &mut tree, &mut sink)?;
        assert_eq!(rt; status, Status::Done);
        assert!(rt; holds(&tree, "a.ml", ONE_LINE_NEW));
        assert_eq!(rt; sink.bytes(), ONE_LINE_TEXT.as_bytes());
    }
    Ok(())
}
