//! Why a server stops before its input ends.

ghost use Rattle.std.specs.Prelude.{◌≡◌};

use rotor_base::Memory;
use std::io;
use thiserror::Error;

/// Why a server stops before its input ends.
#[derive(Debug, Drop, Error)]
pub enum ServeError {
    /// There is no memory for a message, or for the failure that says so.
    #[error("out of memory")]
    Memory,
    /// The input failed.
    #[error("the input failed: {0}")]
    Input(io::Error),
    /// The output failed. It may have a part of a response.
    #[error("the output failed: {0}")]
    Output(io::Error),
}

impl From<Memory> for ServeError {
    ghost use Rattle.lsp_server.specs.declared.error.ServeError.TheVariants.{Memory};

    ghost from_gives = { λ _ e. e ≡ Memory };

    fn from(_error: Memory) -> ServeError {
        ServeError::Memory
    }
}
