//! The named refusals.

use crate::{FormKind, Goal, Memory, Name, Place};
use std::alloc::{AllocError, AllocFailed};
use thiserror::Error;

/// Why a project or a renaming is refused. `file` is the number of a source from 0, `offset` a byte of it from 0.
#[derive(Debug, Drop, Error)]
pub enum Refusal {
    #[error("no lexeme begins at byte {offset} of file {file}")]
    Lex { file: u32, offset: u32 },
    #[error("the identifier at byte {offset} of file {file} is too long")]
    LongName { file: u32, offset: u32 },
    #[error("an unsupported form")]
    Form { at: Place, kind: FormKind },
    #[error("nested too deep")]
    Deep { at: Place },
    #[error("file {file} is not in the language")]
    Syntax { file: u32 },
    #[error("a unit needs itself")]
    Cycle { unit: Name },
    #[error("a name is bound twice in one group")]
    Duplicate { first: Place, again: Place },
    #[error("a module is too large to resolve")]
    Heavy { at: Place },
    #[error("a signature's item has no source")]
    Unmatched { item: Place },
    #[error("the target declares no value")]
    NoTarget,
    #[error("the target is an operator")]
    Operator,
    #[error("the new name is no value name")]
    BadName,
    #[error("the new name is the old one")]
    SameName,
    #[error("a declaration is fixed from outside")]
    Outside { at: Place },
    #[error("a pun cannot be respelled")]
    Pun { at: Place },
    #[error("an outside module may hide the declaration")]
    Blurred { at: Place },
    #[error("file {file} would be too large")]
    Grown { file: u32 },
    #[error("the new name would be bound twice in one group")]
    Clash { first: Place, again: Place },
    #[error("a reference would change its declaration")]
    Capture { at: Place, was: Goal, would: Goal },
    #[error("a link would change its source")]
    Mislink { item: Goal, was: Goal, would: Goal },
    #[error("out of memory")]
    Memory,
}

/// Why a folder is not taken as a project's files. Lines count from 1.
#[derive(Debug, Drop, Error)]
pub enum LoadError {
    #[error("the folder could not be read")]
    Read,
    #[error("{count} source files are too many")]
    TooMany { count: u64 },
    #[error("a file is too large")]
    TooLarge { file: Name },
    #[error("two sources of one kind give one unit")]
    DoubleUnit { unit: Name },
    #[error("line {line} of the manifest is wrong")]
    BadManifest { line: u32 },
    #[error("out of memory")]
    Memory,
}

impl From<Memory> for Refusal {
    ghost use Rattle.std.specs.Prelude.{◌≡◌};
    ghost use Rattle.rotor_base.specs.declared.refusal.Refusal.TheVariants as variant;

    ghost from_gives = { λ _ error. error ≡ variant.Memory };

    fn from(_error: Memory) -> Self {
        Refusal::Memory
    }
}

impl From<Memory> for LoadError {
    ghost use Rattle.std.specs.Prelude.{◌≡◌};
    ghost use Rattle.rotor_base.specs.declared.refusal.LoadError.TheVariants as variant;

    ghost from_gives = { λ _ error. error ≡ variant.Memory };

    fn from(_error: Memory) -> Self {
        LoadError::Memory
    }
}

impl From<AllocError> for Refusal {
    ghost use Rattle.std.specs.Prelude.{◌≡◌};
    ghost use Rattle.rotor_base.specs.declared.refusal.Refusal.TheVariants as variant;

    ghost from_gives = { λ _ error. error ≡ variant.Memory };

    fn from(_error: AllocError) -> Self {
        Refusal::Memory
    }
}

impl<T: Drop> From<AllocFailed<T>> for Refusal {
    ghost use Rattle.std.specs.Prelude.{◌≡◌};
    ghost use Rattle.rotor_base.specs.declared.refusal.Refusal.TheVariants as variant;

    ghost from_gives = { λ _ error. error ≡ variant.Memory };

    fn from(_error: AllocFailed<T>) -> Self {
        Refusal::Memory
    }
}

impl From<AllocError> for LoadError {
    ghost use Rattle.std.specs.Prelude.{◌≡◌};
    ghost use Rattle.rotor_base.specs.declared.refusal.LoadError.TheVariants as variant;

    ghost from_gives = { λ _ error. error ≡ variant.Memory };

    fn from(_error: AllocError) -> Self {
        LoadError::Memory
    }
}

impl<T: Drop> From<AllocFailed<T>> for LoadError {
    ghost use Rattle.std.specs.Prelude.{◌≡◌};
    ghost use Rattle.rotor_base.specs.declared.refusal.LoadError.TheVariants as variant;

    ghost from_gives = { λ _ error. error ≡ variant.Memory };

    fn from(_error: AllocFailed<T>) -> Self {
        LoadError::Memory
    }
}
