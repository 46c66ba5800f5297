//! Row two-includes: the plain form of its shapes, copied, shared and looked up.
use crate::{Piece, Sketch, decl, entries, make_plain};
use rotor_base::{Memory, Name};
use shape_core::{
    Entry, Shape, copy, find_mod, find_mty, find_val, share, val_of, visible, walk, weight,
    weight_of,
};
use std::alloc::Global;
use std::test::Fail;

/// The unit of row two-includes, with a module `U` and a module type `S`.
const UNIT: &[Piece] = &[
    Piece::Mod(
        "F",
        Sketch::Functor(
            &Sketch::Struct(&[Piece::Val("v", 8)]),
            &Sketch::Struct(&[Piece::Val("x", 16)]),
        ),
    ),
    Piece::Mod("A", Sketch::Struct(&[Piece::Val("v", 27)])),
    Piece::Mod("B", Sketch::Struct(&[Piece::Val("v", 36)])),
    Piece::Val("x", 16),
    Piece::Val("x", 16),
    Piece::Mod("U", Sketch::Unitary(&Sketch::Opaque)),
    Piece::Mty("S", Sketch::Struct(&[Piece::Val("s", 60)])),
];

fn copy_unit(alloc: Global) -> Result<Shape, Memory> {
    let shape = make_plain(alloc, &Sketch::Struct(UNIT))?;
    copy(alloc, &shape)
}

#[test]
fn copies_and_shares_have_one_weight(rt: HostRuntime) -> Result<(), Fail> {
    let alloc = rt.alloc();
    let copied = copy_unit(alloc)?;
    assert_eq!(rt; weight(&copied), 14);
    let shared = share(alloc, &copied)?;
    assert_eq!(rt; weight_of(&shared), 14);
    assert_eq!(rt; val_of(&shared, b"x"), Some(decl(16)));
    Ok(())
}

#[test]
fn look_ups_find_the_last_entries(rt: HostRuntime) -> Result<(), Fail> {
    let alloc = rt.alloc();
    let list = entries(alloc, UNIT)?;
    assert_eq!(rt; list.len(), 7);
    assert_eq!(rt; find_val(&list, b"x"), Some(decl(16)));
    assert!(rt; find_mod(&list, b"A").is_some());
    assert!(rt; find_mod(&list, b"S").is_none());
    assert!(rt; find_mty(&list, b"S").is_some());
    assert!(rt; find_mty(&list, b"A").is_none());
    Ok(())
}

#[test]
fn hidden_entries_are_not_visible(rt: HostRuntime) -> Result<(), Fail> {
    let alloc = rt.alloc();
    let list = entries(alloc, UNIT)?;
    for at in 0..list.len() {
        assert_eq!(rt; visible(&list, at), at != 3, "entry {at}");
    }
    Ok(())
}

/// Whether a path ends at a module.
fn is_walked(alloc: Global, list: &[Entry], path: &[&str]) -> Result<bool, Memory> {
    let mut names = Vec::new(alloc);
    for name in path {
        names.push(Name::new(alloc, name.as_bytes())?)?;
    }
    Ok(walk(list, &names).is_some())
}

#[test]
fn walks_end_at_modules(rt: HostRuntime) -> Result<(), Fail> {
    let alloc = rt.alloc();
    let list = entries(alloc, UNIT)?;
    let rows: [(&[&str], bool); 5] = [
        (&[], false),
        (&["A"], true),
        (&["A", "A"], false),
        (&["U"], true),
        (&["U", "A"], false),
    ];
    for (path, want) in rows {
        assert_eq!(rt; is_walked(alloc, &list, path)?, want);
    }
    Ok(())
}
