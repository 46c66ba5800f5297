//! What the commands report.

use crate::{Files, Foot, LoadError, Name, Place, Refusal, Row};

/// What `check` counts.
#[derive(Clone, Copy, Debug, PartialEq, Eq)]
pub struct Counts {
    pub files: u64,
    pub units: u64,
    pub declarations: u64,
    pub references: u64,
    pub links: u64,
}

/// What `footprint` shows: the name, the declarations, and the number of references to them.
#[derive(Debug, Drop)]
pub struct FootReport {
    pub old: Name,
    pub foot: Foot,
    pub refs: u64,
}

/// What `sample` reports.
#[derive(Clone, Copy, Debug, PartialEq, Eq)]
pub struct SampleReport {
    pub units: u32,
    pub footprint: u64,
    pub references: u64,
    pub undone: bool,
}

/// What `rename` has done: the new files, the numbers of those that changed in order, the old name and the new one,
/// the footprint, the number of references to it, and the place that names the target in the undo.
#[derive(Debug, Drop)]
pub struct Renamed {
    pub files: Files,
    pub changed: Row<u32>,
    pub old: Name,
    pub new: Name,
    pub foot: Foot,
    pub refs: u64,
    pub undo_at: Place,
}

/// The outcome of a command, before its text.
#[derive(Debug, Drop)]
pub enum Outcome {
    /// `rename` is accepted.
    Done(Renamed),
    /// What `check` counted.
    Checked(Counts),
    /// What `footprint` shows.
    Shown(FootReport),
    /// What `sample` computed.
    Sampled(SampleReport),
    /// The project or the renaming is refused.
    Refused(Refusal),
    /// The folder is not taken.
    NotLoaded(LoadError),
    /// The words have none of the forms.
    BadWords,
}
