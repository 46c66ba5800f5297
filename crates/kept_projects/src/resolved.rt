//! Reading and resolving a project.
ghost use Rattle.std.specs.Prelude.{IfErr, IfOk};
ghost use Rattle.ml_trees.specs.View.{view_project};
ghost use Rattle.project_reading.specs.Known.{AreKnown};
ghost use Rattle.rename_files.specs.Answer.{Rejects};
ghost use Rattle.rename_project.specs.Steps.{IsRefusedFor};
ghost use Rattle.kept_projects.specs.Kept.{IsKept};

use ml_trees::Project;
use mod_shape::Resolved;
use project_reading::{KnownTrees, read_rest};
use rename_project::resolve;
use rotor_base::{Files, Refusal};
use std::alloc::Global;

/// The project that files are accepted as, and what it is resolved to. The caller ensures that the known trees are
/// those of the files. The error is the first refusal of the files, or `Memory`.
pub(crate) fn resolved_project(
    alloc: Global,
    files: &Files,
    known: KnownTrees,
) -> Result<(Project, Resolved), Refusal>
    requires { AreKnown files.now.entries known }
    ensures kept { IfOk result (λ found. IsKept files.now (view_project found.0) found.1) }
    ensures refused { IfErr result (IsRefusedFor (Rejects files.now)) }
{
    let read = read_rest(alloc, files, known)?;
    let resolved = resolve(alloc, &read.project)?;
    Ok((read.project, resolved))
}
