//! Tokens, names and runs: what the readers of patterns, expressions and modules share, and the definitions of what
//! they read.
//!
//! A reader is a function of the tokens and of a place in them, counted from 0. It gives what it read and the place
//! after it, and its contract says that this is just what the reading on lists of tokens (specs/) gives there.
//! `depth` is more than the number of tokens, and `levels` says how often forms may still nest: past it a reader
//! gives want of memory.
#![tactic(auto)]

mod boxes;
mod error;
mod names;
mod runs;
mod table;
mod taking;
mod tokens;

pub use boxes::{boxed, fit};
pub use error::ReadError;
pub use names::{is_minus, is_operator, lower_word, more_uppers, operator, qualifiers, value_name};
pub use runs::{declaration_run, optional_type, type_run};
pub use table::{TokenTable, kind_at, lacks_in};
pub use taking::{take_name, take_path, take_word};
pub use tokens::{Kind, expect, expect_at, has_fixed, number, text, token_word, word};
