//! The looks of a match.
use crate::tests::making::make_shared;
use crate::{Piece, Sketch, place};
use rotor_base::{Foot, LinkLook, Looks, Memory, Name, Row, Watch};
use sig_match::match_looks;
use std::alloc::Global;
use std::test::Fail;

/// What is watched: the old name, the new one, and the footprint.
#[derive(Clone, Copy)]
struct Watched {
    old: &'static str,
    new: &'static str,
    foot: &'static [u32],
}

fn watch(alloc: Global, watched: &Watched) -> Result<Watch, Memory> {
    let mut decls = Row::new(alloc);
    for token in watched.foot {
        decls.push(place(*token))?;
    }
    Ok(Watch {
        old: Name::new(alloc, watched.old.as_bytes())?,
        new: Name::new(alloc, watched.new.as_bytes())?,
        foot: Foot {
            decls,
            outside: None,
        },
    })
}

fn looks_of_match(
    alloc: Global,
    src: &Sketch,
    tgt: &Sketch,
    watched: &Watched,
) -> Result<Looks, Memory> {
    let src = make_shared(alloc, src)?;
    let tgt = make_shared(alloc, tgt)?;
    match_looks(alloc, &src, &tgt, &watch(alloc, watched)?)
}

/// Whether two looks are of one link and say the same of its item.
fn tell_one_item(one: &LinkLook, other: &LinkLook) -> bool {
    one.number == other.number
        && one.item == other.item
        && one.is_new == other.is_new
        && one.later_foot == other.later_foot
        && one.later_old == other.later_old
        && one.later_new == other.later_new
}

/// Whether two looks say the same of a source.
fn tell_one_source(one: &LinkLook, other: &LinkLook) -> bool {
    one.pinned == other.pinned
        && one.darks == other.darks
        && one.by == other.by
        && one.foot == other.foot
        && one.old == other.old
        && one.new == other.new
}

/// Whether the looks are just these.
fn has_looks(looks: &Looks, want: &[LinkLook], passed: u64) -> bool {
    let found = looks.links.as_slice();
    let same = found.iter().zip(want).all(|(one, other)| tell_one_item(one, other)
        && tell_one_source(one, other));
    same && found.len() == want.len() && looks.refs.as_slice().is_empty() && looks.passed == passed
}

/// The looks of a value that later ones hide, of a new name, and of one that stays. The source has a member of the
/// footprint, a later value of the old name, and one of the new name. Two of these precede a Dark entry.
fn first() -> LinkLook {
    LinkLook {
        number: 0,
        item: place(11),
        is_new: false,
        later_foot: false,
        later_old: true,
        later_new: true,
        pinned: false,
        darks: 1,
        by: Some(place(3)),
        foot: Some((0, place(1), 1)),
        old: Some((3, place(4), 0)),
        new: Some((1, place(2), 1)),
    }
}

fn second() -> LinkLook {
    LinkLook {
        number: 1,
        item: place(12),
        is_new: true,
        later_foot: false,
        later_old: true,
        later_new: false,
        pinned: false,
        darks: 1,
        by: Some(place(3)),
        foot: Some((0, place(1), 1)),
        old: Some((3, place(4), 0)),
        new: Some((1, place(2), 1)),
    }
}

fn third() -> LinkLook {
    LinkLook {
        number: 3,
        item: place(14),
        is_new: false,
        later_foot: false,
        later_old: false,
        later_new: false,
        pinned: false,
        darks: 1,
        by: Some(place(3)),
        foot: Some((0, place(1), 1)),
        old: Some((3, place(4), 0)),
        new: Some((1, place(2), 1)),
    }
}

const MEETING_SRC: Sketch = Sketch::Struct(&[
    Piece::Val("a", 1),
    Piece::Val("c", 2),
    Piece::Dark(3),
    Piece::Val("a", 4),
]);

const MEETING_TGT: Sketch = Sketch::Struct(&[
    Piece::Val("a", 11),
    Piece::Val("c", 12),
    Piece::Val("x", 13),
    Piece::Val("a", 14),
]);

const MEETING_WATCHED: Watched = Watched {
    old: "a",
    new: "c",
    foot: &[1, 11],
};

#[test]
fn names_that_meet(rt: HostRuntime) -> Result<(), Fail> {
    let alloc = rt.alloc();
    let looks = looks_of_match(alloc, &MEETING_SRC, &MEETING_TGT, &MEETING_WATCHED)?;
    assert!(rt; has_looks(&looks, &[first(), second(), third()], 4));
    Ok(())
}
