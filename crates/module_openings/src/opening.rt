//! How a module is opened.

use rotor_base::Place;

/// How a module is opened.
#[derive(Clone, Copy)]
pub(crate) enum Opening {
    /// By an item `open M`.
    Open,
    /// By `let open M in`.
    LetOpen,
    /// By `include`.
    Include,
    /// By a path before a bracket: `M.( .. )`.
    Path,
}

/// Where and how a module is opened.
#[derive(Clone, Copy)]
pub(crate) struct Site {
    pub at: Place,
    pub opening: Opening,
}
