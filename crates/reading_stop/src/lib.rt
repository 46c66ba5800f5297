//! Where the reading of a file that is not read stops: the furthest token that a reader of the language looks at. The
//! grammar is a table of rules, read as the readers of `parse_module` read: what is tried first wins, and as much as
//! can be is read.
#![tactic(auto)]

mod edge;
mod expressions_table;
mod levels_table;
mod lows_table;
mod modules_table;
mod names_table;
mod patterns_table;
mod reading;
mod rule;
mod step;
mod stop;
mod wants;

pub use stop::{ends_inside, stop_of};
