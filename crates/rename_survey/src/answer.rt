//! What a survey has.

use ml_trees::Project;
use rotor_base::{Facts, Name, Place, Refusal};

/// What a project is and has: its trees, its binders in the order of their places, its facts, and the first of
/// `Duplicate` and `Unmatched` that holds.
#[derive(Drop)]
pub struct Survey {
    pub project: Project,
    pub binders: Vec<Binder>,
    pub facts: Facts,
    pub bad: Option<Refusal>,
}

/// A place that declares a value: its name, whether it is an operator, and whether its word is a label or a field too.
#[derive(Debug, Drop)]
pub struct Binder {
    pub at: Place,
    pub name: Name,
    pub operator: bool,
    pub pun: bool,
}
