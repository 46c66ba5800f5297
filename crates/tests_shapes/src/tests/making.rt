//! Shared shapes of tables, by the makers.
use crate::{Piece, Sketch, decl, place};
use rotor_base::{Memory, Name};
use shape_core::{Shared, SharedEntry, make_functor, make_opaque, make_struct, make_unitary};
use std::alloc::Global;

/// The shared shape of a sketch.
#[cycle(making)]
pub fn make_shared(alloc: Global, sketch: &Sketch) -> Result<Shared, Memory> {
    match sketch {
        Sketch::Struct(pieces) => make_struct(alloc, made_entries(alloc, pieces)?),
        Sketch::Functor(p, r) => {
            let p = make_shared(alloc, p)?;
            let r = make_shared(alloc, r)?;
            make_functor(alloc, p, r)
        }
        Sketch::Unitary(r) => make_unitary(alloc, make_shared(alloc, r)?),
        Sketch::Opaque => make_opaque(alloc),
    }
}

/// The shared entries of some pieces.
#[cycle(making)]
pub fn made_entries(alloc: Global, pieces: &[Piece]) -> Result<Vec<SharedEntry>, Memory> {
    let mut made = Vec::new(alloc);
    for piece in pieces {
        made.push(made_entry(alloc, piece)?)?;
    }
    Ok(made)
}

#[cycle(making)]
fn made_entry(alloc: Global, piece: &Piece) -> Result<SharedEntry, Memory> {
    match piece {
        Piece::Val(x, token) => {
            Ok(SharedEntry::Val(Name::new(alloc, x.as_bytes())?, decl(*token)))
        }
        Piece::Mod(x, sketch) => module(alloc, x, make_shared(alloc, sketch)?),
        Piece::Mty(x, sketch) => module_type(alloc, x, make_shared(alloc, sketch)?),
        Piece::Dark(token) => Ok(SharedEntry::Dark(place(*token))),
    }
}

/// A module of that name and shape.
pub fn module(alloc: Global, name: &str, shape: Shared) -> Result<SharedEntry, Memory> {
    Ok(SharedEntry::Mod(Name::new(alloc, name.as_bytes())?, shape))
}

/// A module type of that name and shape.
pub fn module_type(alloc: Global, name: &str, shape: Shared) -> Result<SharedEntry, Memory> {
    Ok(SharedEntry::Mty(Name::new(alloc, name.as_bytes())?, shape))
}
