//! Why a batch was not read, or not done.
ghost use Rattle.std.specs.Prelude.{◌≡◌};
ghost use Rattle.rename_batch.specs.declared.error.BatchReadError.TheVariants as read;
ghost use Rattle.rename_batch.specs.declared.error.BatchError.TheVariants as batch;

use rotor_base::{Memory, Refusal};
use std::alloc::{AllocError, AllocFailed};
use thiserror::Error;

/// Why bytes were not read as a batch.
#[derive(Clone, Copy, Debug, PartialEq, Eq, Error)]
pub enum BatchReadError {
    /// The first bad line, counted from 1.
    #[error("line {0} of the batch is wrong")]
    Line(u32),
    /// Want of memory.
    #[error("out of memory")]
    Memory,
}

impl From<Memory> for BatchReadError {
    ghost from_gives = { λ _ e. e ≡ read.Memory };

    fn from(_error: Memory) -> Self {
        BatchReadError::Memory
    }
}

impl<T: Drop> From<AllocFailed<T>> for BatchReadError {
    ghost from_gives = { λ _ e. e ≡ read.Memory };

    fn from(_error: AllocFailed<T>) -> Self {
        BatchReadError::Memory
    }
}

/// Why a batch was not done.
#[derive(Debug, Drop, Error)]
pub enum BatchError {
    /// The first step that is refused, counted from 1, and its refusal.
    #[error("step {step} of the batch is refused")]
    At { step: u32, refusal: Refusal },
    /// Want of memory.
    #[error("out of memory")]
    Memory,
}

impl From<Memory> for BatchError {
    ghost from_gives = { λ _ e. e ≡ batch.Memory };

    fn from(_error: Memory) -> Self {
        BatchError::Memory
    }
}

impl<T: Drop> From<AllocFailed<T>> for BatchError {
    ghost from_gives = { λ _ e. e ≡ batch.Memory };

    fn from(_error: AllocFailed<T>) -> Self {
        BatchError::Memory
    }
}
