//! Why a renaming has no edits.

use rotor_base::Memory;
use thiserror::Error;

/// Why a renaming has no edits for an editor.
#[derive(Clone, Copy, Debug, PartialEq, Eq, Error)]
pub enum EditsError {
    /// The source of this number would change, and its bytes are no text in UTF-8.
    #[error("source {file} is not UTF-8")]
    NotText { file: u32 },
    /// Want of memory.
    #[error("out of memory")]
    Memory,
}

impl From<Memory> for EditsError {
    ghost use Rattle.std.specs.Prelude.{◌≡◌};
    ghost use Rattle.renaming_edits.specs.declared.error.EditsError.TheVariants as variant;

    ghost from_gives = { λ _ error. error ≡ variant.Memory };

    fn from(_error: Memory) -> Self {
        EditsError::Memory
    }
}
