//! A place at which OCaml may read a project otherwise.

use rotor_base::{Name, Place};

/// What an index form reads.
#[derive(Clone, Copy, Debug, PartialEq, Eq)]
pub enum Indexed {
    /// `a.(i)`, which means `get` or `set` of a module `Array`.
    Array,
    /// `s.[i]`, which means `get` or `set` of a module `String`.
    String,
}

/// How OCaml may read a place otherwise.
#[derive(Drop)]
pub enum Parting {
    /// The form reads a module of the project.
    Indexing(Indexed),
    /// The module of this name is used behind the opening of a module from outside, at a place.
    Opened { name: Name, by: Place },
    /// A functor is applied in a type, to a module of this name.
    Types(Name),
    /// The quote at this offset directly follows a name, in a comment or an attribute, and begins a character.
    Comment(u32),
    /// The unit of the place needs a unit that is linked behind it.
    Order { unit: Name, needed: Name },
    /// The unit of the place has the name of OCaml's standard library.
    Standard,
}

/// A place at which OCaml may read a project otherwise, and how.
#[derive(Drop)]
pub struct Difference {
    pub at: Place,
    pub how: Parting,
}
