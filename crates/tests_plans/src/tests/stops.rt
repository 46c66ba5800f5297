//! A write stops, and the folder is recovered.
use super::folder::{
    HALF_BODY, HALF_FACE, NEW, NEW_BODY, OLD, OLD_FACE, PLAN, holds, holds_all, plan_of, tree_of,
};
use apply_journal::{RecoverError, Recovery, gate_open, recover, safe_apply, take_room};
use std::test::Fail;

/// A stop of the safe writes: the failing call, the gate and the files after it, and what the recovery answers.
struct Stop {
    call: u32,
    gate: Option<&'static str>,
    files: [(&'static str, &'static str); 2],
    recovery: Recovery,
    found: [(&'static str, &'static str); 2],
}

/// The writes are the plan, the open gate, the two files and the empty gate; a failing write leaves half of its bytes.
const STOPS: [Stop; 6] = [
    Stop {
        call: 1,
        gate: None,
        files: OLD,
        recovery: Recovery::Nothing,
        found: OLD,
    },
    Stop {
        call: 2,
        gate: Some("op"),
        files: OLD,
        recovery: Recovery::Nothing,
        found: OLD,
    },
    Stop {
        call: 3,
        gate: Some("open\n"),
        files: [HALF_BODY, OLD_FACE],
        recovery: Recovery::Done { files: 2 },
        found: NEW,
    },
    Stop {
        call: 4,
        gate: Some("open\n"),
        files: [NEW_BODY, HALF_FACE],
        recovery: Recovery::Done { files: 2 },
        found: NEW,
    },
    Stop {
        call: 5,
        gate: Some(""),
        files: NEW,
        recovery: Recovery::Nothing,
        found: NEW,
    },
    Stop {
        call: 0,
        gate: Some(""),
        files: NEW,
        recovery: Recovery::Nothing,
        found: NEW,
    },
];

#[test]
fn safe_writes_stop(rt: HostRuntime) -> Result<(), Fail> {
    let alloc = rt.alloc();
    let plan = plan_of(&rt, alloc)?;
    for stop in &STOPS {
        let mut tree = tree_of(&rt, alloc, &OLD, &[stop.call])?;
        take_room(alloc, &mut tree, &plan)?;
        let written = safe_apply(&mut tree, &plan);
        assert_eq!(rt; written.is_ok(), stop.call == 0);
        assert!(rt;
            holds(&tree, "rotor.gate", stop.gate),
            "gate after {}",
            stop.call
        );
        assert!(rt; holds_all(&tree, &stop.files), "files after {}", stop.call);
        assert_eq!(rt; gate_open(alloc, &mut tree)?, stop.gate == Some("open\n"));
        assert_eq!(rt; recover(alloc, &mut tree)?, stop.recovery);
        assert!(rt;
            holds_all(&tree, &stop.found),
            "recovered after {}",
            stop.call
        );
        assert_eq!(rt; recover(alloc, &mut tree)?, Recovery::Nothing);
    }
    Ok(())
}

/// The failing call of a recovery, the gate and the files after it, and what a second recovery answers. The recovery's
/// calls are list, the reads of the gate and of the plan, and the writes of the two files and of the empty gate.
struct Again {
    call: u32,
    error: RecoverError,
    gate: &'static str,
    files: [(&'static str, &'static str); 2],
    recovery: Recovery,
}

/// The folder is the one that the safe writes leave if the write of `m.mli` fails.
const HALF: [(&str, &str); 2] = [NEW_BODY, HALF_FACE];

const AGAIN: [Again; 6] = [
    Again {
        call: 1,
        error: RecoverError::Read,
        gate: "open\n",
        files: HALF,
        recovery: Recovery::Done { files: 2 },
    },
    Again {
        call: 2,
        error: RecoverError::Read,
        gate: "open\n",
        files: HALF,
        recovery: Recovery::Done { files: 2 },
    },
    Again {
        call: 3,
        error: RecoverError::Read,
        gate: "open\n",
        files: HALF,
        recovery: Recovery::Done { files: 2 },
    },
    Again {
        call: 4,
        error: RecoverError::Write,
        gate: "open\n",
        files: [HALF_BODY, HALF_FACE],
        recovery: Recovery::Done { files: 2 },
    },
    Again {
        call: 5,
        error: RecoverError::Write,
        gate: "open\n",
        files: HALF,
        recovery: Recovery::Done { files: 2 },
    },
    Again {
        call: 6,
        error: RecoverError::Write,
        gate: "",
        files: NEW,
        recovery: Recovery::Nothing,
    },
];

#[test]
fn recoveries_stop(rt: HostRuntime) -> Result<(), Fail> {
    let alloc = rt.alloc();
    for stop in &AGAIN {
        let held = [
            HALF[0],
            HALF[1],
            ("rotor.plan", PLAN),
            ("rotor.gate", "open\n"),
        ];
        let mut tree = tree_of(&rt, alloc, &held, &[stop.call])?;
        assert_eq!(rt; recover(alloc, &mut tree), Err(stop.error));
        assert!(rt;
            holds(&tree, "rotor.gate", Some(stop.gate)),
            "gate after {}",
            stop.call
        );
        assert!(rt; holds_all(&tree, &stop.files), "files after {}", stop.call);
        assert_eq!(rt; recover(alloc, &mut tree)?, stop.recovery);
        assert!(rt; holds_all(&tree, &NEW), "recovered after {}", stop.call);
    }
    Ok(())
}
