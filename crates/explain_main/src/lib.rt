//! The program `rotor-explain` over any folder and any output: it explains what `rotor` would answer, and writes
//! nothing.
#![tactic(auto)]

mod code;
mod explanation;
mod host;
mod words;

pub use code::ExitStatus;
pub use explanation::explain_words;
pub use host::run;
pub use words::{Asked, FilesQuestion, Question, read_asked};
