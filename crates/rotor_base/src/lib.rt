//! The types that the crates of ROTOR share: names, places, goals, facts, refusals, reports and limits.
//!
//! Contracts see a [`Name`], a [`Text`] and a [`Row`] as lists, so that two values of this crate are equal in a
//! clause exactly if they hold the same contents.
#![tactic(auto)]

mod fault;
mod files;
mod limits;
mod lines;
mod load_checks;
mod looks;
mod manifest;
mod name;
mod place;
mod refusal;
mod report;
mod row;
mod source;
mod spaces;
mod stem;
mod target;
mod token;
mod unit;

pub use fault::{Failed, Memory};
pub use files::{Files, make_files};
pub use limits::{
    MAX_BATCH_LINES, MAX_FILE_BYTES, MAX_LEVELS, MAX_NAME_BYTES, MAX_NESTING, MAX_OPENED,
    MAX_PLAN_BYTES, MAX_SAMPLE, MAX_SOURCES, MAX_TOTAL_BYTES, MAX_WEIGHT, MAX_WEIGHT_SUM, MAX_WORK,
    MIN_SAMPLE,
};
pub use lines::{feed_line, next_line};
pub use looks::{LinkLook, Looks, RefLook, Watch};
pub use manifest::bad_lines_are_exact;
pub use name::{Name, is_name};
pub use place::{Facts, Foot, Goal, Link, Place, Ref};
pub use refusal::{LoadError, Refusal};
pub use report::{Counts, FootReport, Outcome, Renamed, SampleReport};
pub use row::Row;
pub use source::{SourceFile, Text};
pub use spaces::{cut_space, has_space};
pub use stem::{is_body, is_face, is_source};
pub use target::Target;
pub use token::{Class, FormKind, Token};
pub use unit::{SourceUnit, source_unit};
