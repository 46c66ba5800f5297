//! Small values that the calls take.
use rotor_base::{Foot, Goal, Memory, Name, Place, Row, Watch};
use shape_core::{Scope, Shared, SharedEntry, make_functor, make_struct};
use std::alloc::Global;

/// The declaration at a token of the first file.
pub fn place(token: u32) -> Place {
    Place { file: 0, token }
}

/// A value that the first file declares at a token.
pub fn value(alloc: Global, name: &str, token: u32) -> Result<SharedEntry, Memory> {
    let name = Name::new(alloc, name.as_bytes())?;
    Ok(SharedEntry::Val(name, Goal::Decl(place(token))))
}

/// Adds a module to a scope.
pub fn push_module(
    alloc: Global,
    scope: &mut Scope,
    name: &str,
    shape: Shared,
) -> Result<(), Memory> {
    scope.push(SharedEntry::Mod(Name::new(alloc, name.as_bytes())?, shape))
}

/// Adds a module type to a scope.
pub fn push_module_type(
    alloc: Global,
    scope: &mut Scope,
    name: &str,
    shape: Shared,
) -> Result<(), Memory> {
    scope.push(SharedEntry::Mty(Name::new(alloc, name.as_bytes())?, shape))
}

/// The structure of values, each with its name and its token.
pub fn structure(alloc: Global, values: &[(&str, u32)]) -> Result<Shared, Memory> {
    let mut list = Vec::new(alloc);
    for (name, token) in values {
        list.push(value(alloc, name, *token)?)?;
    }
    make_struct(alloc, list)
}

/// The functor over a structure of values that gives another one.
pub fn functor(
    alloc: Global,
    parameter: &[(&str, u32)],
    body: &[(&str, u32)],
) -> Result<Shared, Memory> {
    make_functor(alloc, structure(alloc, parameter)?, structure(alloc, body)?)
}

/// The watch of a renaming whose footprint is one declaration.
pub fn watch(alloc: Global, old: &str, new: &str, token: u32) -> Result<Watch, Memory> {
    let mut decls = Row::new(alloc);
    decls.push(place(token))?;
    Ok(Watch {
        old: Name::new(alloc, old.as_bytes())?,
        new: Name::new(alloc, new.as_bytes())?,
        foot: Foot {
            decls,
            outside: None,
        },
    })
}
