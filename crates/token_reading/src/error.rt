//! Why a reading gave nothing.

ghost use Rattle.std.specs.Prelude.{◌≡◌};
ghost use Rattle.token_reading.specs.declared.error.ReadError.TheVariants as unread;

use rotor_base::Memory;
use std::alloc::{AllocError, AllocFailed};

/// Why one reader read nothing.
#[derive(Clone, Copy, Debug, PartialEq, Eq)]
pub enum ReadError {
    /// What it reads does not begin there.
    Syntax,
    /// There was no memory for it, or it nests past the bound on levels.
    Memory,
}

impl From<Memory> for ReadError {
    ghost from_gives = { λ _ error. error ≡ unread.Memory };

    fn from(_error: Memory) -> Self {
        ReadError::Memory
    }
}

impl From<AllocError> for ReadError {
    ghost from_gives = { λ _ error. error ≡ unread.Memory };

    fn from(_error: AllocError) -> Self {
        ReadError::Memory
    }
}

impl<T: Drop> From<AllocFailed<T>> for ReadError {
    ghost from_gives = { λ _ error. error ≡ unread.Memory };

    fn from(_error: AllocFailed<T>) -> Self {
        ReadError::Memory
    }
}
