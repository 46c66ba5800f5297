//! Shapes whose match doubles at each level, and matches of shapes as deep as they may be.
use crate::tests::making::{make_shared, module_type};
use crate::{Piece, Sketch, place};
use rotor_base::{MAX_LEVELS, Memory};
use shape_core::{Shared, SharedEntry, levels_of, make_struct, make_unitary};
use sig_match::{Matched, match_shapes, pin};
use std::alloc::Global;
use std::test::Fail;

/// The innermost shape.
const BOTTOM: Sketch = Sketch::Struct(&[Piece::Val("x", 6)]);

/// The room that a whole project has for its matches.
const ROOM: u32 = 4_194_304;

/// A value under module types, each of which is in the next.
pub fn nested_types(alloc: Global, levels: usize) -> Result<Shared, Memory> {
    let mut shape = make_shared(alloc, &BOTTOM)?;
    for _ in 0..levels {
        let mut entries = Vec::new(alloc);
        entries.push(module_type(alloc, "M", shape)?)?;
        shape = make_struct(alloc, entries)?;
    }
    Ok(shape)
}

/// A value under functors over `()`.
fn nested_functors(alloc: Global, levels: usize) -> Result<Shared, Memory> {
    let mut shape = make_shared(alloc, &BOTTOM)?;
    for _ in 0..levels {
        shape = make_unitary(alloc, shape)?;
    }
    Ok(shape)
}

/// The number of links and the work, or nothing if there is no room.
fn sums(answer: &Matched) -> Option<(usize, u32)> {
    match answer {
        Matched::Whole { links, work } => Some((links.len(), *work)),
        Matched::Over => None,
    }
}

fn matched_types(alloc: Global, levels: usize, room: u32) -> Result<Option<(usize, u32)>, Memory> {
    let src = nested_types(alloc, levels)?;
    let tgt = nested_types(alloc, levels)?;
    Ok(sums(&match_shapes(alloc, &src, &tgt, room)?))
}

/// Rows nested-types and nested-types-over; 40 levels would make 1,099,511,627,776 links.
#[test]
fn links_double(rt: HostRuntime) -> Result<(), Fail> {
    let alloc = rt.alloc();
    for (levels, room, want) in [
        (20, ROOM, Some((1_048_576, 4_194_302))),
        (20, 4_194_302, Some((1_048_576, 4_194_302))),
        (20, 4_194_301, None),
        (21, ROOM, None),
        (21, 8_388_606, Some((2_097_152, 8_388_606))),
        (40, 0, None),
        (40, 1_000, None),
        (40, ROOM, None),
    ] {
        assert_eq!(rt;
            matched_types(alloc, levels, room)?,
            want,
            "{levels} {room}"
        );
    }
    Ok(())
}

#[test]
fn at_the_bound_on_levels(rt: HostRuntime) -> Result<(), Fail> {
    let alloc = rt.alloc();
    let deep = nested_functors(alloc, MAX_LEVELS)?;
    assert_eq!(rt; levels_of(&deep), 3_000);
    let pinned = pin(alloc, &deep, ROOM)?;
    assert_eq!(rt; sums(&pinned), Some((1, 3_002)));
    let matched = match_shapes(alloc, &deep, &deep, ROOM)?;
    assert_eq!(rt; sums(&matched), Some((1, 3_002)));
    Ok(())
}

#[test]
fn module_types_at_the_bound(rt: HostRuntime) -> Result<(), Fail> {
    let alloc = rt.alloc();
    let deep = nested_types(alloc, MAX_LEVELS)?;
    assert_eq!(rt; levels_of(&deep), 3_000);
    let pinned = pin(alloc, &deep, ROOM)?;
    assert_eq!(rt; sums(&pinned), Some((1, 6_002)));
    let matched = match_shapes(alloc, &deep, &deep, ROOM)?;
    assert_eq!(rt; sums(&matched), None);
    Ok(())
}

/// A structure without entries.
const EMPTY: Sketch = Sketch::Struct(&[]);

/// A structure of so many module types.
fn module_types(alloc: Global, count: u32) -> Result<Shared, Memory> {
    let mut entries = Vec::new(alloc);
    for _ in 0..count {
        entries.push(module_type(alloc, "S", make_shared(alloc, &EMPTY)?)?)?;
    }
    make_struct(alloc, entries)
}

/// A structure of so many Dark entries.
fn darks(alloc: Global, count: u32) -> Result<Shared, Memory> {
    let mut entries = Vec::new(alloc);
    for token in 0..count {
        entries.push(SharedEntry::Dark(place(token)))?;
    }
    make_struct(alloc, entries)
}

/// Each Dark entry of a target goes over the values of the source, of which there are none.
#[test]
fn many_dark_entries(rt: HostRuntime) -> Result<(), Fail> {
    let alloc = rt.alloc();
    let src = module_types(alloc, 65_536)?;
    let tgt = darks(alloc, 65_536)?;
    let matched = match_shapes(alloc, &src, &tgt, ROOM)?;
    assert_eq!(rt; sums(&matched), Some((0, 65_537)));
    Ok(())
}
