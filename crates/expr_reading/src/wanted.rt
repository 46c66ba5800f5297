//! The kinds of expressions that are read inside others.

/// A kind of expression that is read inside others.
#[derive(Clone, Copy)]
pub enum Wanted {
    /// Expressions between `;`.
    Sequence,
    /// An expression of any level from 1 on.
    Expression,
    /// An operand of a prefix minus: of level 1 or 2, or from 13 on.
    Operand,
    /// An expression of level 15 or 16.
    Postfix,
    /// An expression of level 16.
    Prefixed,
}
