//! Why no message is read or written.

ghost use Rattle.std.specs.Prelude.{◌≡◌};

use std::alloc::{AllocError, AllocFailed};
use std::io;
use thiserror::Error;

/// Why no message is read or written.
#[derive(Debug, Drop, Error)]
pub enum FrameError {
    /// Want of memory.
    #[error("out of memory")]
    Memory,
    /// The reader or the writer failed.
    #[error("{0}")]
    Io(io::Error),
    /// A line of the header is no field, or the header has no field `Content-Length`, two of them, or one whose value
    /// is no decimal number below 2 ^ 64.
    #[error("a header that does not say the length of its message")]
    Broken,
    /// The header has no end within [`MAX_HEADER`](crate::MAX_HEADER) bytes, or it says more than
    /// [`MAX_MESSAGE`](crate::MAX_MESSAGE) bytes.
    #[error("a message that is too long")]
    TooLong,
    /// The input ends inside a message.
    #[error("the input ends inside a message")]
    Ended,
}

impl From<AllocError> for FrameError {
    ghost use Rattle.lsp_frames.specs.declared.error.FrameError.TheVariants.{Memory};

    ghost from_gives = { λ _ e. e ≡ Memory };

    fn from(_error: AllocError) -> FrameError {
        FrameError::Memory
    }
}

impl<T: Drop> From<AllocFailed<T>> for FrameError {
    ghost use Rattle.lsp_frames.specs.declared.error.FrameError.TheVariants.{Memory};

    ghost from_gives = { λ _ e. e ≡ Memory };

    fn from(_error: AllocFailed<T>) -> FrameError {
        FrameError::Memory
    }
}
