//! How a call of the program ends.

use lsp_server::ServeError;

/// How a call of the program ends.
#[derive(Debug, Drop)]
pub enum Ended {
    /// An editor was served. The server returned this status.
    Served(u8),
    /// A word is not `--stdio`.
    Usage,
    /// The input or the output failed, or there was no memory.
    Stopped(ServeError),
}

impl Ended {
    ghost use Rattle.std.specs.Prelude.{◌≡◌};
    ghost use Rattle.lsp_main.specs.Served.{code_of};

    /// The exit code of the program.
    pub fn code(&self) -> u8
        ensures { result ≡ code_of self.now }
    {
        match self {
            Ended::Served(status) => *status,
            Ended::Usage => 2,
            Ended::Stopped(_) => 1,
        }
    }
}
