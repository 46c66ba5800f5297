//! Footprints over chains and cycles of links, and the outside at an end.
use dependency_kernel::footprint;
use rotor_base::{Facts, Goal, Link, Memory, Place, Row};
use std::alloc::Global;
use std::test::Fail;

/// How many links the long chain has.
const CHAIN: u32 = 100_000;

const A: Goal = Goal::Decl(Place { file: 0, token: 1 });

const B: Goal = Goal::Decl(Place { file: 0, token: 2 });

const C: Goal = Goal::Decl(Place { file: 0, token: 3 });

const D: Goal = Goal::Decl(Place { file: 0, token: 4 });

/// The declaration at a token of the first file.
fn place(token: u32) -> Place {
    Place { file: 0, token }
}

/// The facts with these links alone.
fn facts_of(alloc: Global, links: Vec<Link>) -> Facts {
    Facts {
        refs: Row::new(alloc),
        links: Row::from_vec(links),
        groups: Row::new(alloc),
    }
}

/// Links, a declaration, its footprint by tokens, and the token that the outside fixes.
struct Case {
    links: &'static [(Goal, Goal)],
    start: u32,
    decls: &'static [u32],
    outside: Option<u32>,
}

const CASES: [Case; 11] = [
    Case {
        links: &[],
        start: 7,
        decls: &[7],
        outside: None,
    },
    Case {
        links: &[(A, B)],
        start: 4,
        decls: &[4],
        outside: None,
    },
    Case {
        links: &[(A, A)],
        start: 1,
        decls: &[1],
        outside: None,
    },
    Case {
        links: &[(C, A), (A, B), (B, C)],
        start: 2,
        decls: &[1, 2, 3],
        outside: None,
    },
    Case {
        links: &[(B, A), (B, C)],
        start: 1,
        decls: &[1, 2, 3],
        outside: None,
    },
    Case {
        links: &[(A, B), (C, D)],
        start: 3,
        decls: &[3, 4],
        outside: None,
    },
    Case {
        links: &[(A, B), (C, D), (D, Goal::Outside)],
        start: 1,
        decls: &[1, 2],
        outside: None,
    },
    Case {
        links: &[(A, B), (B, C), (C, Goal::Outside)],
        start: 1,
        decls: &[1, 2, 3],
        outside: Some(3),
    },
    Case {
        links: &[(Goal::Outside, C), (B, Goal::Outside), (A, B), (B, C)],
        start: 3,
        decls: &[1, 2, 3],
        outside: Some(2),
    },
    Case {
        links: &[
            (A, Goal::Missing),
            (B, Goal::Hidden),
            (Goal::Outside, Goal::Outside),
        ],
        start: 1,
        decls: &[1],
        outside: None,
    },
    Case {
        links: &[(A, Goal::Outside), (B, Goal::Outside)],
        start: 1,
        decls: &[1],
        outside: Some(1),
    },
];

#[test]
fn small_graphs(rt: HostRuntime) -> Result<(), Fail> {
    let alloc = rt.alloc();
    for (at, case) in CASES.iter().enumerate() {
        let mut links = Vec::new(alloc);
        for (item, source) in case.links {
            links.push(Link {
                item: *item,
                source: *source,
            })?;
        }
        let foot = footprint(alloc, &facts_of(alloc, links), place(case.start))?;
        let mut tokens = Vec::new(alloc);
        for decl in foot.decls.as_slice() {
            tokens.push(decl.token)?;
        }
        assert_eq!(rt; tokens.as_slice(), case.decls, "case {at}");
        assert_eq!(rt; foot.outside, case.outside.map(place), "case {at}");
    }
    Ok(())
}

/// A chain of links, in the order that is hardest to follow, with the outside at its far end.
fn chain(alloc: Global) -> Result<Vec<Link>, Memory> {
    let mut links = Vec::new(alloc);
    links.push(Link {
        item: Goal::Decl(place(CHAIN + 1)),
        source: Goal::Outside,
    })?;
    for at in (1..=CHAIN).rev() {
        links.push(Link {
            item: Goal::Decl(place(at)),
            source: Goal::Decl(place(at + 1)),
        })?;
    }
    Ok(links)
}

#[test]
fn long_chain(rt: HostRuntime) -> Result<(), Fail> {
    let alloc = rt.alloc();
    let foot = footprint(alloc, &facts_of(alloc, chain(alloc)?), place(1))?;
    assert_eq!(rt; foot.decls.as_slice().len(), CHAIN as usize + 1);
    assert_eq!(rt;
        foot.decls.as_slice().last().copied(),
        Some(place(CHAIN + 1))
    );
    assert_eq!(rt; foot.outside, Some(place(CHAIN + 1)));
    Ok(())
}
