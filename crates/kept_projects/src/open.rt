//! Opening a project, or taking the one that is kept.
ghost use Rattle.std.specs.Prelude.{◌≡◌, IfErr, IfOk};
ghost use Rattle.project_reading.specs.Known.{AreKnown};
ghost use Rattle.rename_files.specs.Answer.{Rejects};
ghost use Rattle.rename_project.specs.Steps.{IsRefusedFor};

use crate::kept::KeptProject;
use crate::resolved::resolved_project;
use crate::same::are_same;
use project_reading::KnownTrees;
use rotor_base::{Files, Memory, Refusal};
use std::alloc::Global;

/// Files that are refused as a project, with their first refusal, or `Memory`.
#[derive(Drop)]
pub struct RefusedProject {
    pub files: Files,
    pub why: Refusal,
}

/// Files that are accepted as a project. If those of the last project are the same, it is taken, and nothing is read or
/// resolved again. Else the sources that stay are not read again.
///
/// # Errors
///
/// The files, with the first refusal of them as a project, or `Memory`.
pub fn open_project(
    alloc: Global,
    last: Option<KeptProject>,
    files: Files,
) -> Result<KeptProject, RefusedProject>
    ensures kept { IfOk result (λ kept. kept ≡ files) }
    ensures files { IfErr result (λ refused. refused.files ≡ files) }
    ensures refused { IfErr result (λ refused. IsRefusedFor (Rejects files) refused.why) }
{
    match last {
        Some(kept) => {
            if are_same(kept.files(), &files) {
                return Ok(kept);
            }
            open_changed(alloc, kept, files)
        }
        None => open_anew(alloc, files, KnownTrees::new(alloc)),
    }
}

/// Files that are accepted as a project, in place of the last ones. The sources that stay are not read again.
fn open_changed(
    alloc: Global,
    last: KeptProject,
    files: Files,
) -> Result<KeptProject, RefusedProject>
    ensures kept { IfOk result (λ kept. kept ≡ files) }
    ensures files { IfErr result (λ refused. refused.files ≡ files) }
    ensures refused { IfErr result (λ refused. IsRefusedFor (Rejects files) refused.why) }
{
    match known_trees(alloc, last, &files) {
        Ok(known) => open_anew(alloc, files, known),
        Err(_) => Err(RefusedProject {
            files,
            why: Refusal::Memory,
        }),
    }
}

/// The trees of a project that is kept, of the sources that are the same in some files.
fn known_trees(alloc: Global, last: KeptProject, files: &Files) -> Result<KnownTrees, Memory>
    ensures { IfOk result (λ known. AreKnown files.now.entries known) }
{
    let (olds, project, _) = last.into_parts();
    KnownTrees::from_project(alloc, project, &olds, files)
}

/// Files that are accepted as a project, read and resolved. The caller ensures that the known trees are those of the
/// files.
fn open_anew(alloc: Global, files: Files, known: KnownTrees) -> Result<KeptProject, RefusedProject>
    requires { AreKnown files.entries known }
    ensures kept { IfOk result (λ kept. kept ≡ files) }
    ensures files { IfErr result (λ refused. refused.files ≡ files) }
    ensures refused { IfErr result (λ refused. IsRefusedFor (Rejects files) refused.why) }
{
    match resolved_project(alloc, &files, known) {
        Ok((project, resolved)) => Ok(KeptProject::from_parts(files, project, resolved)),
        Err(why) => Err(RefusedProject { files, why }),
    }
}
