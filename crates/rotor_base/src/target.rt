use crate::{Name, Row};

/// What a target word names.
#[derive(Debug, Drop)]
pub enum Target {
    /// `FILE#N`: the token of that number, from 1.
    At { file: Name, token: u32 },
    /// `FILE:L:C`: the token that holds the byte at this line and column, both from 1.
    Spot { file: Name, line: u32, column: u32 },
    /// A dotted path, walked from the scope after all units.
    Dotted(Row<Name>),
}
