//! The verdict on two projects.

use capture_check::Fault;
use rotor_base::{Name, Place};

/// A binder that takes another name: its place, its old name and its new one.
pub type Change = (Place, Name, Name);

/// Whether a project is a valid respelling of another.
#[derive(Drop)]
pub enum Verdict {
    /// It is, and these binders take other names, in the order of their places.
    Yes(Vec<Change>),
    /// It is not.
    No(Why),
}

/// Why a project is no valid respelling of another.
#[derive(Drop)]
pub enum Why {
    /// One project has a source of this name alone, or the manifests differ.
    Sources { name: Name },
    /// The bytes of a source differ from those of the respelled one.
    Bytes { file: u32, offset: u32 },
    /// A binder takes another name, and may not.
    Fixed { at: Place },
    /// The facts differ.
    Broken(Fault),
}
