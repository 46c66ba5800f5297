//! The kinds of shapes.

/// What kind of shape a shape is.
#[derive(Clone, Copy, Debug, PartialEq, Eq)]
pub enum Kind {
    Struct,
    Functor,
    Unitary,
    Opaque,
}
