ghost use Rattle.std.specs.Prelude.{◌≡◌};
ghost use Rattle.shape_core.specs.declared.error.FactError.TheVariants.{Memory as no_memory};

use rotor_base::{Memory, Place};
use std::alloc::{AllocError, AllocFailed};
use thiserror::Error;

/// Why a project or a part of one is not resolved: a site whose modules are too large, or want of memory.
#[derive(Clone, Copy, Debug, PartialEq, Eq, Error)]
pub enum FactError {
    #[error("a module is too large to resolve")]
    Heavy { at: Place },
    #[error("out of memory")]
    Memory,
}

impl From<Memory> for FactError {
    ghost from_gives = { λ _ error. error ≡ no_memory };

    fn from(_error: Memory) -> Self {
        FactError::Memory
    }
}

impl From<AllocError> for FactError {
    ghost from_gives = { λ _ error. error ≡ no_memory };

    fn from(_error: AllocError) -> Self {
        FactError::Memory
    }
}

impl<T: Drop> From<AllocFailed<T>> for FactError {
    ghost from_gives = { λ _ error. error ≡ no_memory };

    fn from(_error: AllocFailed<T>) -> Self {
        FactError::Memory
    }
}
