//! Why a file has no lexemes.

ghost use Rattle.ml_lexer.specs.declared.error.LexError.TheVariants.{Memory as out_of_memory};
ghost use Rattle.std.specs.Prelude.{◌≡◌};

use std::alloc::{AllocError, AllocFailed};
use thiserror::Error;

/// Where the cutting of a file stops. Offsets are bytes from 0.
#[derive(Clone, Copy, Debug, Drop, Error)]
pub enum LexError {
    /// Nothing begins there, or what begins there is no lexeme or does not end.
    #[error("no lexeme begins at byte {offset}")]
    Bad { offset: u32 },
    /// A word of more than 255 bytes.
    #[error("the identifier at byte {offset} is too long")]
    LongName { offset: u32 },
    #[error("out of memory")]
    Memory,
}

impl From<AllocError> for LexError {
    ghost from_gives = { λ _ e. e ≡ out_of_memory };

    fn from(_error: AllocError) -> Self {
        LexError::Memory
    }
}

impl<T: Drop> From<AllocFailed<T>> for LexError {
    ghost from_gives = { λ _ e. e ≡ out_of_memory };

    fn from(_error: AllocFailed<T>) -> Self {
        LexError::Memory
    }
}
