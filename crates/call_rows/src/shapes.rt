//! The looks of matches and pinnings, and look-ups on a scope of shared shapes.
use crate::lines::add_lines;
use crate::values::{functor, place, push_module, push_module_type, structure, value, watch};
use rotor_base::Memory;
use shape_core::{
    Kind, Scope, Shared, bring, entries, kind, make_opaque, make_unitary, mod_in, mty_in, param,
    result, val_in, val_of, weight_of,
};
use sig_match::{Matched, match_looks, match_shapes, pin, pin_looks};
use std::alloc::{AllocError, Global};
use std::fmt::Write;

/// The most links of a match.
const ROOM: u32 = 1_000;

/// Adds the links and the looks of the match of row turned-parameter: the argument is `functor (Y : T) -> struct b
/// end`, the parameter of `H` is `functor (X : S) -> sig val b end`.
pub fn add_turned_parameter(alloc: Global, text: &mut String) -> Result<(), Memory> {
    let target = functor(alloc, &[("a", 7), ("k", 11)], &[("b", 37)])?;
    let source = functor(alloc, &[("a", 21)], &[("b", 57)])?;
    write!(text, "turned-parameter\n")?;
    add_match_looks(alloc, text, &source, &target)?;
    add_matched(text, match_shapes(alloc, &source, &target, ROOM)?)
}

/// Adds what a renaming of `a` to `c` looks at in a match.
fn add_match_looks(
    alloc: Global,
    text: &mut String,
    source: &Shared,
    target: &Shared,
) -> Result<(), Memory> {
    let watch = watch(alloc, "a", "c", 7)?;
    let looks = match_looks(alloc, source, target, &watch)?;
    add_lines(text, looks.links.as_slice())?;
    write!(text, "passed {}\n", looks.passed)?;
    Ok(())
}

/// Adds the links and the looks of the pinning of row outside-unit.
pub fn add_outside_unit(alloc: Global, text: &mut String) -> Result<(), Memory> {
    let unit = structure(alloc, &[("f", 2)])?;
    write!(text, "outside-unit\n")?;
    let looks = pin_looks(alloc, &unit, &watch(alloc, "f", "g", 2)?)?;
    add_lines(text, looks.links.as_slice())?;
    add_matched(text, pin(alloc, &unit, ROOM)?)
}

/// Adds links and their work.
fn add_matched(text: &mut String, matched: Matched) -> Result<(), Memory> {
    if let Matched::Whole { links, work } = matched {
        add_lines(text, &links)?;
        write!(text, "work {work}\n")?;
    }
    Ok(())
}

/// Adds the look-ups on a scope.
pub fn add_scope(alloc: Global, text: &mut String) -> Result<(), Memory> {
    let scope = make_scope(alloc)?;
    write!(text, "scope\n")?;
    add_kinds(text, &scope)?;
    add_functor(text, &scope)?;
    add_brought(alloc, text, &scope)
}

/// A scope of a functor `F`, a structure `A`, a generative functor `U` with an unknown result, a module type `S`, and a
/// value `x`.
fn make_scope(alloc: Global) -> Result<Scope, Memory> {
    let mut scope = Scope::new(alloc)?;
    let of_x = functor(alloc, &[("v", 8)], &[("x", 16)])?;
    push_module(alloc, &mut scope, "F", of_x)?;
    push_module(alloc, &mut scope, "A", structure(alloc, &[("v", 27)])?)?;
    let generative = make_unitary(alloc, make_opaque(alloc)?)?;
    push_module(alloc, &mut scope, "U", generative)?;
    push_module_type(alloc, &mut scope, "S", structure(alloc, &[("s", 60)])?)?;
    scope.push(value(alloc, "x", 16)?)?;
    Ok(scope)
}

/// Adds what each name leads to in a scope.
fn add_kinds(text: &mut String, scope: &Scope) -> Result<(), AllocError> {
    for name in [b"F", b"A", b"U", b"S", b"Q"] {
        let module = kind_of(mod_in(scope, name.as_slice()));
        let signature = kind_of(mty_in(scope, name.as_slice()));
        write!(text, "module {module:?}, module type {signature:?}\n")?;
    }
    let (x, q) = (val_in(scope, b"x"), val_in(scope, b"q"));
    write!(text, "x {x:?}, q {q:?}\n")
}

/// The kind of a shape, if there is one.
fn kind_of(shape: Option<&Shared>) -> Option<Kind> {
    match shape {
        Some(shape) => Some(kind(shape)),
        None => None,
    }
}

/// Adds the parts of the functor `F` of a scope, and of another handle of it.
fn add_functor(text: &mut String, scope: &Scope) -> Result<(), Memory> {
    let Some(functor) = mod_in(scope, b"F") else {
        return Ok(());
    };
    let v = param(functor).and_then(|shape| val_of(shape, b"v"));
    let x = result(functor).and_then(|shape| val_of(shape, b"x"));
    write!(
        text,
        "v {v:?}, x {x:?}, entries {}\n",
        entries(functor).len()
    )?;
    let again = functor.clone()?;
    write!(
        text,
        "weight {}, shared {:?} {}\n",
        weight_of(functor),
        kind(&again),
        weight_of(&again)
    )?;
    Ok(())
}

/// Adds how many entries an `open` brings: of a structure, of a functor, and of an unknown module.
fn add_brought(alloc: Global, text: &mut String, scope: &Scope) -> Result<(), Memory> {
    let at = place(9);
    let brought = bring(alloc, mod_in(scope, b"A"), at)?.len();
    let dark = bring(alloc, mod_in(scope, b"F"), at)?.len();
    let unknown = bring(alloc, None, at)?.len();
    write!(text, "brought {brought} {dark} {unknown}\n")?;
    Ok(())
}
