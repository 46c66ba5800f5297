//! The mark of a value's place.

use rotor_base::Name;

/// A place of a value: its token, from 1, its name, whether its word is a label or a field too, and whether it is an
/// operator.
#[derive(Debug, Drop)]
pub struct Mark {
    pub token: u32,
    pub name: Name,
    pub pun: bool,
    pub operator: bool,
}
