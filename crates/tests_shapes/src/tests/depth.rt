//! Weights at their limits, and shapes as deep as they may be.
use crate::decl;
use rotor_base::{MAX_LEVELS, Name};
use shape_core::{
    GREATEST_WEIGHT, Shape, SharedEntry, copy, levels_of, make_functor, make_opaque, make_struct,
    make_unitary, share, weight, weight_of,
};
use std::test::Fail;

#[test]
fn weights(rt: HostRuntime) -> Result<(), Fail> {
    let alloc = rt.alloc();
    for count in [0, 1, 65_536, 65_537] {
        let mut entries = Vec::new(alloc);
        for _ in 0..count {
            entries.push(SharedEntry::Val(Name::new(alloc, b"x")?, decl(1)))?;
        }
        assert_eq!(rt; weight_of(&make_struct(alloc, entries)?), count);
    }
    Ok(())
}

/// Each level has twice the weight of the one below, and one more.
#[test]
fn weights_double(rt: HostRuntime) -> Result<(), Fail> {
    let alloc = rt.alloc();
    let mut shape = make_opaque(alloc)?;
    let mut want = 0u64;
    for level in 1..=40 {
        let other = shape.clone()?;
        shape = make_functor(alloc, shape, other)?;
        want = want
            .saturating_mul(2)
            .saturating_add(1)
            .min(GREATEST_WEIGHT);
        assert_eq!(rt; weight_of(&shape), want, "level {level}");
    }
    Ok(())
}

#[test]
fn three_thousand_levels(rt: HostRuntime) -> Result<(), Fail> {
    let alloc = rt.alloc();
    let mut shape = make_struct(alloc, Vec::new(alloc))?;
    let mut plain = Shape::Struct(Vec::new(alloc));
    for _ in 0..MAX_LEVELS {
        shape = make_unitary(alloc, shape)?;
        plain = Shape::Unitary(Box::new(alloc, plain)?);
    }
    assert_eq!(rt; levels_of(&shape), 3_000);
    assert_eq!(rt; weight_of(&shape), 3_000);
    assert_eq!(rt; weight(&copy(alloc, &plain)?), 3_000);
    assert_eq!(rt; weight_of(&share(alloc, &plain)?), 3_000);
    assert!(rt; make_unitary(alloc, shape).is_err());
    let deeper = Shape::Unitary(Box::new(alloc, plain)?);
    assert!(rt; copy(alloc, &deeper).is_err());
    assert!(rt; share(alloc, &deeper).is_err());
    Ok(())
}
