//! Shapes written down in tables.

ghost use Rattle.std.specs.Prelude.{◌≡◌};

use rotor_base::{Goal, Memory, Name, Place};
use shape_core::{Entry, Shape};
use std::alloc::Global;

/// A shape in a table.
#[cycle(sketches)]
#[derive(Clone, Copy)]
pub enum Sketch {
    Struct(&'static [Piece]),
    Functor(&'static Sketch, &'static Sketch),
    Unitary(&'static Sketch),
    Opaque,
}

/// An entry in a table: values with the token of their declaration.
#[cycle(sketches)]
#[derive(Clone, Copy)]
pub enum Piece {
    Val(&'static str, u32),
    Mod(&'static str, Sketch),
    Mty(&'static str, Sketch),
    Dark(u32),
}

/// The token of the first file.
pub fn place(token: u32) -> Place
    ensures file { result.file ≡ 0 }
    ensures token { result.token ≡ token }
{
    Place { file: 0, token }
}

/// The declaration at a token of the first file.
pub fn decl(token: u32) -> Goal {
    Goal::Decl(place(token))
}

/// The shape of a sketch.
#[cycle(drawing)]
pub fn make_plain(alloc: Global, sketch: &Sketch) -> Result<Shape, Memory> {
    match sketch {
        Sketch::Struct(pieces) => Ok(Shape::Struct(entries(alloc, pieces)?)),
        Sketch::Functor(p, r) => {
            let p = Box::new(alloc, make_plain(alloc, p)?)?;
            let r = Box::new(alloc, make_plain(alloc, r)?)?;
            Ok(Shape::Functor(p, r))
        }
        Sketch::Unitary(r) => Ok(Shape::Unitary(Box::new(alloc, make_plain(alloc, r)?)?)),
        Sketch::Opaque => Ok(Shape::Opaque),
    }
}

/// The entries of some pieces.
#[cycle(drawing)]
pub fn entries(alloc: Global, pieces: &[Piece]) -> Result<Vec<Entry>, Memory> {
    let mut made = Vec::new(alloc);
    for piece in pieces {
        made.push(entry(alloc, piece)?)?;
    }
    Ok(made)
}

#[cycle(drawing)]
fn entry(alloc: Global, piece: &Piece) -> Result<Entry, Memory> {
    match piece {
        Piece::Val(x, token) => Ok(Entry::Val(Name::new(alloc, x.as_bytes())?, decl(*token))),
        Piece::Mod(x, shape) => {
            let shape = make_plain(alloc, shape)?;
            Ok(Entry::Mod(Name::new(alloc, x.as_bytes())?, shape))
        }
        Piece::Mty(x, shape) => {
            let shape = make_plain(alloc, shape)?;
            Ok(Entry::Mty(Name::new(alloc, x.as_bytes())?, shape))
        }
        Piece::Dark(token) => Ok(Entry::Dark(place(*token))),
    }
}
