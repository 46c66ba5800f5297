//! Why a list is not loaded.
ghost use Rattle.std.specs.Prelude.{◌≡◌};
ghost use Rattle.rotor_base.specs.declared.refusal.LoadError.TheVariants as load;

use rotor_base::{LoadError, Memory};
use std::alloc::{AllocError, AllocFailed};
use thiserror::Error;

/// Why the files of a list are not taken as a project's files.
#[derive(Debug, Drop, Error)]
pub enum ListError {
    /// A counted fault of the folder.
    #[error("the folder could not be read")]
    Read,
    /// The first bad line of the list, counted from 1, or 0 if the folder lacks the list.
    #[error("line {line} of the list is wrong")]
    BadList { line: u32 },
    /// The list or a file of it is refused. It is never `Read`.
    #[error("{0}")]
    Load(LoadError),
}

impl From<LoadError> for ListError {
    ghost use Rattle.project_load.specs.Cause.{list_error};

    ghost from_gives = { λ error e. e ≡ list_error error };

    fn from(error: LoadError) -> Self {
        match error {
            LoadError::Read => ListError::Read,
            error => ListError::Load(error),
        }
    }
}

impl From<Memory> for ListError {
    ghost use Rattle.project_load.specs.declared.error.ListError.TheVariants as variant;

    ghost from_gives = { λ _ e. e ≡ variant.Load load.Memory };

    fn from(_error: Memory) -> Self {
        ListError::Load(LoadError::Memory)
    }
}

impl From<AllocError> for ListError {
    ghost use Rattle.project_load.specs.declared.error.ListError.TheVariants as variant;

    ghost from_gives = { λ _ e. e ≡ variant.Load load.Memory };

    fn from(_error: AllocError) -> Self {
        ListError::Load(LoadError::Memory)
    }
}

impl<T: Drop> From<AllocFailed<T>> for ListError {
    ghost use Rattle.project_load.specs.declared.error.ListError.TheVariants as variant;

    ghost from_gives = { λ _ e. e ≡ variant.Load load.Memory };

    fn from(_error: AllocFailed<T>) -> Self {
        ListError::Load(LoadError::Memory)
    }
}
