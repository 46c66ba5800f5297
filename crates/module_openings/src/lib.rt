//! The openings of modules from outside a project, and the modules of the project that are used behind them. They are
//! found in the tokens alone.
#![tactic(auto)]

mod lexemes;
mod name_list;
mod names;
mod opened;
mod opening;
mod openings;
mod sources;

pub use lexemes::{is_lower, is_upper, is_word};
pub use opened::{OpenedUse, opened_uses};
pub use sources::file_number;
