//! The program `rotor-lsp` over any answers, any input and any output: it serves an editor, and writes no file.
#![tactic(auto)]

mod ended;
mod host;
mod served;

pub use ended::Ended;
pub use host::run;
pub use served::serve_words;
