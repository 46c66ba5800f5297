//! The steps of a batch, and what an accepted batch has done.

use rotor_base::{Files, Name, Place, Row, Target};

/// A renaming that a batch requests.
#[derive(Debug, Drop)]
pub struct Step {
    pub target: Target,
    pub name: Name,
}

/// What a step has done: the old name, the new one, and the place of the target.
#[derive(Debug, Drop)]
pub struct Change {
    pub old: Name,
    pub new: Name,
    pub at: Place,
}

/// A step back: the place of a target, and the name that it had.
#[derive(Debug, Drop)]
pub struct Undo {
    pub at: Place,
    pub old: Name,
}

/// What an accepted batch has done: the last files, the numbers of the sources that differ from the first ones in
/// order, what each step has done, and the steps back, the last step first.
#[derive(Debug, Drop)]
pub struct Batched {
    pub files: Files,
    pub changed: Row<u32>,
    pub done: Row<Change>,
    pub undo: Row<Undo>,
}
