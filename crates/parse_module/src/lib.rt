//! Whole files.
//!
//! Readers take a place in the tokens, counted from 0, and give what they read and the place after it; each contract
//! says that this is just what the reading on lists of tokens (specs/ModReading) gives there. `depth` is more than the
//! number of tokens, and `levels` says how often modules, module types and expressions may still nest: past it a
//! reader gives want of memory.
#![tactic(auto)]

mod files;
mod items;
mod module_exprs;
mod module_types;
mod readers;
mod reading;
mod values;

pub use files::{FileKind, body_items, face_items, parse_file};
pub use module_laws::one_file_reading;
