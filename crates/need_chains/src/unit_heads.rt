//! What the search for chains knows of a source.

use rotor_base::{Name, Row};

/// The unit of a source, and the heads of the paths in the source.
#[derive(Drop)]
pub struct UnitHeads {
    pub unit: Name,
    pub heads: Row<Name>,
}
