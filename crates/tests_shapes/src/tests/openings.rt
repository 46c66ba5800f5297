//! Look-ups before, in and behind structures that a scope shares.
use crate::{decl, place};
use rotor_base::{Goal, Memory, Name, Place};
use shape_core::{
    Scope, Shared, SharedEntry, darks_in, last_val_in, make_opaque, make_struct, mod_in, mty_in,
    val_in,
};
use std::alloc::Global;
use std::collections::BTreeSet;
use std::test::Fail;

/// The values `f` of the structure, so many that a scope shares it.
const FILLERS: usize = 70;

/// The number of its entries.
const NUMBER: usize = FILLERS + 5;

/// More openings than a scope shares.
const OPENINGS: usize = 70;

fn value(alloc: Global, name: &[u8], token: u32) -> Result<SharedEntry, Memory> {
    Ok(SharedEntry::Val(Name::new(alloc, name)?, decl(token)))
}

/// A structure: `x`, the fillers, a Dark entry, `y`, a module `M` and a module type `T`.
fn structure(alloc: Global) -> Result<Shared, Memory> {
    let mut entries = Vec::new(alloc);
    entries.push(value(alloc, b"x", 10)?)?;
    for _ in 0..FILLERS {
        entries.push(value(alloc, b"f", 20)?)?;
    }
    entries.push(SharedEntry::Dark(place(30)))?;
    entries.push(value(alloc, b"y", 31)?)?;
    entries.push(SharedEntry::Mod(Name::new(alloc, b"M")?, make_opaque(alloc)?))?;
    entries.push(SharedEntry::Mty(Name::new(alloc, b"T")?, make_opaque(alloc)?))?;
    make_struct(alloc, entries)
}

/// A value `x`, a Dark entry, the structure, and a value `z`.
fn opened(alloc: Global) -> Result<Scope, Memory> {
    let mut scope = Scope::new(alloc)?;
    scope.push(value(alloc, b"x", 1)?)?;
    scope.push(SharedEntry::Dark(place(2)))?;
    scope.open_shape(structure(alloc)?)?;
    scope.push(value(alloc, b"z", 40)?)?;
    Ok(scope)
}

/// Keeps the first entries of a scope that has so many.
fn cut(scope: &mut Scope, len: usize) {
    if len <= scope.len() {
        scope.cut(len);
    }
}

fn blur(by: u32, passed: u64, behind: Option<Place>) -> Option<Goal> {
    Some(Goal::Blur {
        by: place(by),
        passed,
        behind,
    })
}

#[test]
fn in_and_around_a_structure(rt: HostRuntime) -> Result<(), Fail> {
    let alloc = rt.alloc();
    let scope = opened(alloc)?;
    assert_eq!(rt; scope.len(), NUMBER + 3);
    assert_eq!(rt; val_in(&scope, b"z"), Some(decl(40)));
    assert_eq!(rt; val_in(&scope, b"y"), Some(decl(31)));
    assert_eq!(rt; val_in(&scope, b"x"), blur(30, 1, Some(place(10))));
    assert_eq!(rt; val_in(&scope, b"w"), blur(30, 2, None));
    assert_eq!(rt; mod_in(&scope, b"M").is_some(), true);
    assert_eq!(rt; mod_in(&scope, b"T").is_some(), false);
    assert_eq!(rt; mty_in(&scope, b"T").is_some(), true);
    assert_eq!(rt; darks_in(&scope), (2, Some(place(30))));
    assert_eq!(rt; last_val_in(&scope, b"x"), Some((2, place(10), 1)));
    assert_eq!(rt;
        last_val_in(&scope, b"z"),
        Some((NUMBER as u64 + 2, place(40), 0))
    );
    Ok(())
}

#[test]
fn cut_in_a_structure(rt: HostRuntime) -> Result<(), Fail> {
    let alloc = rt.alloc();
    let mut scope = opened(alloc)?;
    cut(&mut scope, 50);
    assert_eq!(rt; scope.len(), 50);
    assert_eq!(rt; val_in(&scope, b"x"), Some(decl(10)));
    assert_eq!(rt; val_in(&scope, b"y"), blur(2, 1, None));
    assert_eq!(rt; mod_in(&scope, b"M").is_some(), false);
    assert_eq!(rt; darks_in(&scope), (1, Some(place(2))));
    assert_eq!(rt; last_val_in(&scope, b"f"), Some((49, place(20), 0)));
    scope.push(value(alloc, b"y", 50)?)?;
    assert_eq!(rt; val_in(&scope, b"y"), Some(decl(50)));
    cut(&mut scope, 2);
    assert_eq!(rt; val_in(&scope, b"x"), blur(2, 1, Some(place(1))));
    assert_eq!(rt; val_in(&scope, b"f"), blur(2, 1, None));
    Ok(())
}

#[test]
fn last_member_of_a_structure(rt: HostRuntime) -> Result<(), Fail> {
    let alloc = rt.alloc();
    let mut scope = opened(alloc)?;
    let mut set = BTreeSet::new(alloc);
    set.insert(place(20))?;
    let found = scope.last_member(&[place(20)], &set)?;
    assert_eq!(rt; found, Some((FILLERS as u64 + 2, place(20), 1)));
    cut(&mut scope, 50);
    let found = scope.last_member(&[place(20)], &set)?;
    assert_eq!(rt; found, Some((49, place(20), 0)));
    cut(&mut scope, 2);
    assert_eq!(rt; scope.last_member(&[place(20)], &set)?, None);
    Ok(())
}

#[test]
fn more_openings_than_are_shared(rt: HostRuntime) -> Result<(), Fail> {
    let alloc = rt.alloc();
    let mut scope = Scope::new(alloc)?;
    let shape = structure(alloc)?;
    for _ in 0..OPENINGS {
        scope.open_shape(shape.clone()?)?;
    }
    assert_eq!(rt; scope.len(), OPENINGS * NUMBER);
    assert_eq!(rt; val_in(&scope, b"y"), Some(decl(31)));
    assert_eq!(rt; val_in(&scope, b"w"), blur(30, OPENINGS as u64, None));
    cut(&mut scope, NUMBER);
    assert_eq!(rt; val_in(&scope, b"w"), blur(30, 1, None));
    cut(&mut scope, 0);
    assert_eq!(rt; val_in(&scope, b"y"), None);
    Ok(())
}

#[test]
fn all_entries_in_order(rt: HostRuntime) -> Result<(), Fail> {
    let alloc = rt.alloc();
    let scope = opened(alloc)?;
    let mut values = 0_usize;
    let mut darks = 0_usize;
    for entry in scope.all() {
        match entry {
            SharedEntry::Val(_, _) => values = values.saturating_add(1),
            SharedEntry::Dark(_) => darks = darks.saturating_add(1),
            _ => {}
        }
    }
    assert_eq!(rt; (values, darks), (FILLERS + 4, 2));
    assert_eq!(rt; scope.get(NUMBER + 3).is_none(), true);
    Ok(())
}
