//! Why a recovery or a reading of a plan failed.
ghost use Rattle.std.specs.Prelude.{◌≡◌};
ghost use Rattle.apply_journal.specs.declared.error.RecoverError.TheVariants as recover;
ghost use Rattle.apply_journal.specs.declared.error.PlanError.TheVariants as plan;

use rotor_base::Memory;
use std::alloc::{AllocError, AllocFailed};
use thiserror::Error;
use tree_io::TreeError;

/// Why a recovery failed.
#[derive(Clone, Copy, Debug, PartialEq, Eq, Error)]
pub enum RecoverError {
    /// A counted fault of the folder, before the first write.
    #[error("the folder failed")]
    Read,
    /// A counted fault of the folder at a write.
    #[error("a write failed")]
    Write,
    /// The gate is open, and the folder has no plan.
    #[error("no plan")]
    BadPlan,
    /// Want of memory.
    #[error("out of memory")]
    Memory,
}

impl From<Memory> for RecoverError {
    ghost from_gives = { λ _ e. e ≡ recover.Memory };

    fn from(_error: Memory) -> Self {
        RecoverError::Memory
    }
}

impl From<AllocError> for RecoverError {
    ghost from_gives = { λ _ e. e ≡ recover.Memory };

    fn from(_error: AllocError) -> Self {
        RecoverError::Memory
    }
}

impl<T: Drop> From<AllocFailed<T>> for RecoverError {
    ghost from_gives = { λ _ e. e ≡ recover.Memory };

    fn from(_error: AllocFailed<T>) -> Self {
        RecoverError::Memory
    }
}

impl From<TreeError> for RecoverError {
    ghost use Rattle.apply_journal.specs.Cause.{read_error};

    ghost from_gives = { λ error e. e ≡ read_error error };

    fn from(error: TreeError) -> Self {
        match error {
            TreeError::Failed => RecoverError::Read,
            TreeError::Memory => RecoverError::Memory,
        }
    }
}

/// Why bytes were not read as a plan.
#[derive(Clone, Copy, Debug, PartialEq, Eq, Error)]
pub enum PlanError {
    /// The bytes are no plan.
    #[error("no plan")]
    Bad,
    /// Want of memory.
    #[error("out of memory")]
    Memory,
}

impl From<Memory> for PlanError {
    ghost from_gives = { λ _ e. e ≡ plan.Memory };

    fn from(_error: Memory) -> Self {
        PlanError::Memory
    }
}

impl From<AllocError> for PlanError {
    ghost from_gives = { λ _ e. e ≡ plan.Memory };

    fn from(_error: AllocError) -> Self {
        PlanError::Memory
    }
}

impl<T: Drop> From<AllocFailed<T>> for PlanError {
    ghost from_gives = { λ _ e. e ≡ plan.Memory };

    fn from(_error: AllocFailed<T>) -> Self {
        PlanError::Memory
    }
}
