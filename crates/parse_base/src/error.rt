//! Why a list of tokens is refused.

ghost use Rattle.std.specs.Prelude.{◌≡◌};
ghost use Rattle.parse_base.specs.declared.error.ParseError.TheVariants as refused;

use rotor_base::{FormKind, Memory};
use thiserror::Error;

/// Why a list of tokens is refused.
#[derive(Clone, Copy, Debug, Drop, PartialEq, Eq, Error)]
pub enum ParseError {
    /// A refused form begins at this token, from 1.
    #[error("unsupported form at token {token}")]
    Form { token: u32, kind: FormKind },
    /// After this token the nesting is over the limit.
    #[error("nested too deep at token {token}")]
    Deep { token: u32 },
    /// Nothing of the kind begins there.
    #[error("syntax error")]
    Syntax,
    #[error("out of memory")]
    Memory,
}

impl From<Memory> for ParseError {
    ghost from_gives = { λ _ error. error ≡ refused.Memory };

    fn from(_error: Memory) -> Self {
        ParseError::Memory
    }
}
