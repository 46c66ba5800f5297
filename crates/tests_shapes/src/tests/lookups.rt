//! Look-ups through Dark entries, in both forms and on a scope.
use crate::{Piece, Sketch, decl, entries, make_plain, place};
use rotor_base::{Goal, Memory, Name, Place};
use shape_core::{Scope, SharedEntry, find_val, share, val_in, val_of};
use std::alloc::Global;
use std::test::Fail;

/// A list, a name, and the goal that a look-up of the name gives.
struct Case {
    list: &'static [Piece],
    name: &'static str,
    goal: Option<Goal>,
}

const AT_7: Place = Place { file: 0, token: 7 };

const AT_4: Place = Place { file: 0, token: 4 };

const AT_5: Place = Place { file: 0, token: 5 };

const LIST: &[Piece] = &[
    Piece::Dark(1),
    Piece::Val("x", 2),
    Piece::Dark(3),
    Piece::Val("x", 4),
    Piece::Val("y", 5),
    Piece::Mod("x", Sketch::Opaque),
    Piece::Dark(6),
    Piece::Dark(7),
    Piece::Val("z", 8),
];

const CASES: [Case; 6] = [
    Case {
        list: LIST,
        name: "x",
        goal: Some(Goal::Blur {
            by: AT_7,
            passed: 2,
            behind: Some(AT_4),
        }),
    },
    Case {
        list: LIST,
        name: "y",
        goal: Some(Goal::Blur {
            by: AT_7,
            passed: 2,
            behind: Some(AT_5),
        }),
    },
    Case {
        list: LIST,
        name: "z",
        goal: Some(Goal::Decl(Place { file: 0, token: 8 })),
    },
    Case {
        list: LIST,
        name: "w",
        goal: Some(Goal::Blur {
            by: AT_7,
            passed: 4,
            behind: None,
        }),
    },
    Case {
        list: &[Piece::Dark(1), Piece::Val("x", 2)],
        name: "x",
        goal: Some(Goal::Decl(Place { file: 0, token: 2 })),
    },
    Case {
        list: &[Piece::Val("x", 2)],
        name: "w",
        goal: None,
    },
];

#[test]
fn through_dark(rt: HostRuntime) -> Result<(), Fail> {
    let alloc = rt.alloc();
    for case in &CASES {
        let list = entries(alloc, case.list)?;
        let name = case.name.as_bytes();
        assert_eq!(rt; find_val(&list, name), case.goal, "{}", case.name);
        let shared = share(alloc, &make_plain(alloc, &Sketch::Struct(case.list))?)?;
        assert_eq!(rt; val_of(&shared, name), case.goal, "{}", case.name);
    }
    Ok(())
}

/// How often the scope grows and shrinks.
const ROUNDS: u32 = 20_000;

fn value(scope: &Scope, name: &[u8]) -> Option<Goal> {
    val_in(scope, name)
}

/// Keeps the first entries of a scope that has so many.
fn cut(scope: &mut Scope, len: usize) {
    if len <= scope.len() {
        scope.cut(len);
    }
}

/// Pushes a value `x` and a Dark entry.
fn push_both(alloc: Global, scope: &mut Scope, dark: u32) -> Result<(), Memory> {
    scope.push(SharedEntry::Val(Name::new(alloc, b"x")?, decl(2)))?;
    scope.push(SharedEntry::Dark(place(dark)))?;
    Ok(())
}

#[test]
fn behind_pushes_and_cuts(rt: HostRuntime) -> Result<(), Fail> {
    let alloc = rt.alloc();
    let mut scope = Scope::new(alloc)?;
    scope.push(SharedEntry::Val(Name::new(alloc, b"x")?, decl(1)))?;
    for round in 0..ROUNDS {
        push_both(alloc, &mut scope, round)?;
        let blur = Goal::Blur {
            by: place(round),
            passed: 1,
            behind: Some(place(2)),
        };
        assert_eq!(rt; value(&scope, b"x"), Some(blur));
        cut(&mut scope, 1);
        assert_eq!(rt; value(&scope, b"x"), Some(decl(1)));
    }
    Ok(())
}
