//! A folder that was read and resolved.
ghost use Rattle.std.specs.Prelude.{◌≡◌, IfErr, IfOk, None, map};
ghost use Rattle.ml_lexer.specs.Lexed.{view_tokens};
ghost use Rattle.value_sites.specs.Sound.{IsSound};
ghost use Rattle.ml_trees.specs.View.{view_project};
ghost use Rattle.shape_core.specs.Node.{entries_of};
ghost use Rattle.shape_core.specs.Shape.{none};
ghost use Rattle.binding_model.specs.Facts.{facts as facts_of};
ghost use Rattle.binding_model.specs.Scopes.{after_units};
ghost use Rattle.binding_model.specs.Sums.{heavy as heavy_of};
ghost use Rattle.project_reading.specs.Reads.{Reads};
ghost use Rattle.project_reading.specs.Sources.{AreCut};
ghost use Rattle.rename_files.specs.Answer.{Rejects};
ghost use Rattle.rename_model.specs.Project.{refusals_of_project};
ghost use Rattle.rename_project.specs.Steps.{IsFreeOf, IsRefusedFor};

use mod_shape::Resolved;
use project_reading::{Read, read_project};
use rename_project::resolve;
use rotor_base::{Files, Refusal};
use std::alloc::Global;

/// What a folder is read as, and its facts.
#[derive(Drop)]
pub(crate) struct Opened<'a> {
    pub read: Read<'a>,
    pub resolved: Resolved,
}

/// What a folder is read as, and its facts. The error is its first refusal, or want of memory.
pub(crate) fn open_folder<'a>(alloc: Global, files: &'a Files) -> Result<Opened<'a>, Refusal>
    ensures reads { IfOk result (λ opened. Reads files.now (view_project opened.read.project)) }
    ensures sound { IfOk result (λ opened. IsSound (view_project opened.read.project)) }
    ensures cut { IfOk result (λ opened. AreCut files.now.entries (map (λ list. view_tokens list.items) opened.read.tokens.items)) }
    ensures passed { IfOk result (λ opened. IsFreeOf (refusals_of_project (view_project opened.read.project))) }
    ensures light { IfOk result (λ opened. heavy_of (view_project opened.read.project) ≡ None) }
    ensures facts { IfOk result (λ opened. opened.resolved.facts ≡ facts_of (view_project opened.read.project)) }
    ensures top { IfOk result (λ opened. entries_of opened.resolved.top ≡ after_units none (view_project opened.read.project)) }
    ensures refused { IfErr result (IsRefusedFor (Rejects files.now)) }
{
    let read = read_project(alloc, files)?;
    let resolved = resolve(alloc, &read.project)?;
    Ok(Opened { read, resolved })
}
