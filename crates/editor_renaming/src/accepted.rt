//! The edits of an accepted renaming.

ghost use Rattle.std.specs.Prelude.{◌≡◌, All, IfErr, IfOk, List, Ok, OnOk};
ghost use Rattle.ml_trees.specs.Tree.{UnitTree};
ghost use Rattle.binding_model.specs.Facts.{facts as facts_of};
ghost use Rattle.project_reading.specs.Reads.{Reads};
ghost use Rattle.rename_files.specs.Answer.{Renames};
ghost use Rattle.renaming_edits.specs.Edits.{AreEdits, IsRefused, IsText};

use renaming_edits::{EditsError, FileEdits, edits_of};
use rotor_base::{Facts, Files, Renamed, Target};
use std::alloc::Global;
use text_places::Counting;

/// The edits of an accepted renaming, for each source that changed, in order. The caller ensures that the facts are
/// those of the project that the files are read as. If an editor applies the edits of a source as the Language Server
/// Protocol says, it has the new source. The other sources keep their bytes.
///
/// # Errors
///
/// `NotText` with a source that changed and is no text in UTF-8. `Memory`.
pub(crate) fn accepted_edits(
    alloc: Global,
    counting: Counting,
    files: &Files,
    facts: &Facts,
    target: &Target,
    done: &Renamed,
) -> Result<Vec<FileEdits>, EditsError>
    requires facts { (us : List UnitTree) → Reads files.now us → facts.now ≡ facts_of us }
    requires renames { Renames files.now target.now done.now.new (Ok done.now) }
    ensures edits { IfOk result (λ list. AreEdits counting files.now done.now list.items) }
    ensures texts { OnOk result (All (IsText files.now.entries) done.now.changed) }
    ensures refused { IfErr result (IsRefused files.now.entries done.now.changed) }
{
    let _sources = files.entries();
    edits_of(alloc, counting, files, facts, done)
}
