//! Plans and what is no plan.
use super::folder::{NEW, PLAN, are_files, plan_of, tree_of};
use apply_journal::{PlanError, RecoverError, gate_open, read_plan, recover};
use std::test::Fail;

/// Texts that are no plan, beside the one of the rows.
const BAD: [&str; 16] = [
    "",
    "x",
    "rotor-plan 1\nfiles 0\nend",
    "rotor-plan 1\nfiles 0\nend\n\n",
    "rotor-plan 2\nfiles 0\nend\n",
    "rotor-plan 1\nfiles 00\nend\n",
    "rotor-plan 1\nfiles +0\nend\n",
    "rotor-plan 1\nfiles \nend\n",
    "rotor-plan 1\nfiles 4294967296\nend\n",
    "rotor-plan 1\nfiles 2\na.ml 0\n\nend\n",
    "rotor-plan 1\nfiles 1\na.ml 0\n\nb.ml 0\n\nend\n",
    "rotor-plan 1\nfiles 1\na.ml 1\n\nend\n",
    "rotor-plan 1\nfiles 1\na.ml 01\nx\nend\n",
    "rotor-plan 1\nfiles 1\na.txt 0\n\nend\n",
    "rotor-plan 1\nfiles 2\nb.ml 0\n\na.ml 0\n\nend\n",
    "rotor-plan 1\nfiles 2\na.ml 0\n\na.ml 0\n\nend\n",
];

#[test]
fn plans(rt: HostRuntime) -> Result<(), Fail> {
    let alloc = rt.alloc();
    let plan = plan_of(&rt, alloc)?;
    assert_eq!(rt; plan.text(), PLAN.as_bytes());
    assert!(rt; are_files(plan.files(), &NEW));
    assert!(rt; are_files(&read_plan(alloc, PLAN.as_bytes())?, &NEW));
    // A plan of no files, and one whose file has lines that are like those of a plan.
    assert!(rt; are_files(&read_plan(alloc, b"rotor-plan 1\nfiles 0\nend\n")?, &[]));
    let nested = "rotor-plan 1\nfiles 1\na.ml 12\nend\nb.ml 0\n\n\nend\n";
    assert!(rt;
        are_files(
            &read_plan(alloc, nested.as_bytes())?,
            &[("a.ml", "end\nb.ml 0\n\n")]
        )
    );
    for text in BAD {
        assert!(rt;
            matches!(read_plan(alloc, text.as_bytes()), Err(PlanError::Bad)),
            "{text}"
        );
    }
    Ok(())
}

/// What the gate's file holds, and whether the gate is open.
const GATES: [(&str, bool); 5] = [
    ("open\n", true),
    ("open", false),
    ("open\n\n", false),
    ("OPEN\n", false),
    ("", false),
];

#[test]
fn gates(rt: HostRuntime) -> Result<(), Fail> {
    let alloc = rt.alloc();
    let mut tree = tree_of(&rt, alloc, &NEW, &[])?;
    assert!(rt; !gate_open(alloc, &mut tree)?);
    for (text, is_open) in GATES {
        let mut tree = tree_of(&rt, alloc, &[("rotor.gate", text), ("m.ml", "")], &[])?;
        assert_eq!(rt; gate_open(alloc, &mut tree)?, is_open, "{text}");
    }
    // The listing fails, and the reading.
    for call in [1, 2] {
        let mut tree = tree_of(&rt, alloc, &[("rotor.gate", "open\n")], &[call])?;
        assert_eq!(rt; gate_open(alloc, &mut tree), Err(RecoverError::Read));
    }
    Ok(())
}

#[test]
fn bad_plans(rt: HostRuntime) -> Result<(), Fail> {
    let alloc = rt.alloc();
    let mut tree = tree_of(
        &rt,
        alloc,
        &[("rotor.gate", "open\n"), ("rotor.plan", "x")],
        &[],
    )?;
    assert_eq!(rt; recover(alloc, &mut tree), Err(RecoverError::BadPlan));
    let mut tree = tree_of(&rt, alloc, &[("rotor.gate", "open\n"), ("m.ml", "")], &[])?;
    assert_eq!(rt; recover(alloc, &mut tree), Err(RecoverError::BadPlan));
    Ok(())
}
