//! The refusals of a renaming, in their order.

ghost use Rattle.std.specs.Prelude.{◌≡◌, ◌≤◌, None, Some, IfErr, IfOk, OnOk, length, map};
ghost use Rattle.rotor_base.specs.Limits.{max_name_bytes, max_sources};
ghost use Rattle.rotor_base.specs.Files.{are_over};
ghost use Rattle.rotor_base.specs.declared.place.Place.{Place};
ghost use Rattle.ml_lexer.specs.Lexed.{view_tokens};
ghost use Rattle.ml_syntax.specs.RespelledSource.{AreRespelled};
ghost use Rattle.value_sites.specs.Sound.{IsSound};
ghost use Rattle.ml_trees.specs.View.{view_project};
ghost use Rattle.dependency_kernel.specs.Foot.{IsFoot};
ghost use Rattle.binding_model.specs.Facts.{facts as facts_of};
ghost use Rattle.binding_model.specs.Renaming.{IsBinder};
ghost use Rattle.binding_model.specs.Local.{IsWatched};
ghost use Rattle.binding_model.specs.Renaming.{name_of, in_file, places};
ghost use Rattle.binding_model.specs.Sums.{heavy};
ghost use Rattle.shape_core.specs.Places.{HasPlaces};
ghost use Rattle.project_reading.specs.Sources.{AreCut};
ghost use Rattle.rename_model.specs.Bytes.{position_with};
ghost use Rattle.rename_model.specs.Foot.{hits};
ghost use Rattle.rename_model.specs.Renaming.{refusals_of_binder, renamed_words};
ghost use Rattle.rename_parts.specs.Sources.{AreMade};
ghost use Rattle.rename_project.specs.Steps.{IsRefusedFor, IsFreeOf};
ghost use Rattle.rename_files.specs.Steps.{LastRungs};

use capture_check::local_fault_of;
use mod_shape::looks;
use project_reading::Read;
use rename_parts::{find_first_over, judge_foot, new_source, refusal_of_fault};
use rotor_base::{Facts, Files, Memory, Place, Refusal, SourceFile, Watch};
use std::alloc::Global;
use std::collections::BTreeSet;
use value_places::PlacedProject;

/// What an accepted renaming makes: the places that take the new word, and the new sources.
#[derive(Drop)]
pub struct Judged {
    pub places: Vec<Place>,
    pub sources: Vec<SourceFile>,
}

/// The new sources of a renaming, if it has no refusal. The caller ensures that `members` is the set of the footprint's
/// members.
pub fn judge(
    alloc: Global,
    files: &Files,
    read: &Read,
    placed: &PlacedProject<'_>,
    facts: &Facts,
    watch: &Watch,
    members: &BTreeSet<Place>,
    binder: Place,
) -> Result<Judged, Refusal>
    requires sound { IsSound (view_project read.now.project) }
    requires cut { AreCut files.now.entries (map (λ list. view_tokens list.items) read.now.tokens.items) }
    requires placed { placed.now ≡ places (view_project read.now.project) }
    requires facts { facts.now ≡ facts_of (view_project read.now.project) }
    requires light { heavy (view_project read.now.project) ≡ None }
    requires binds { IsBinder (view_project read.now.project) binder }
    requires foot { IsFoot (facts_of (view_project read.now.project)).links binder watch.now.foot }
    requires old { watch.now.old ≡ name_of (view_project read.now.project) binder }
    requires members { HasPlaces watch.now.foot.decls members.now }
    ensures places { IfOk result (λ done. done.places.items ≡ hits (facts_of (view_project read.now.project)).refs watch.now.foot) }
    ensures sources { IfOk result (λ done. AreRespelled (in_file (renamed_words (view_project read.now.project) watch.now)) 0 files.now.entries done.sources.items) }
    ensures small { IfOk result (λ done. position_with are_over done.sources.items ≡ None) }
    ensures passed { OnOk result (IsFreeOf (refusals_of_binder files.now.entries (view_project read.now.project) binder watch.now.foot watch.now.new)) }
    ensures refused { IfErr result (IsRefusedFor (refusals_of_binder files.now.entries (view_project read.now.project) binder watch.now.foot watch.now.new)) }
{
    let found = judge_foot(alloc, placed, facts, watch, members)?;
    let sources = new_sources(alloc, files, read, &found.set, watch.new.as_bytes())?;
    if let Some(file) = find_first_over(&sources) {
        return Err(Refusal::Grown { file });
    }
    judge_faults(alloc, read, placed, facts, watch)?;
    Ok(Judged {
        places: found.list,
        sources,
    })
}

/// Returns the first fault of the renamed project as a refusal, or `Ok` if it keeps the facts and no group has a name
/// twice.
fn judge_faults(
    alloc: Global,
    read: &Read,
    placed: &PlacedProject<'_>,
    facts: &Facts,
    watch: &Watch,
) -> Result<(), Refusal>
    requires sound { IsSound (view_project read.now.project) }
    requires placed { placed.now ≡ places (view_project read.now.project) }
    requires facts { facts.now ≡ facts_of (view_project read.now.project) }
    requires light { heavy (view_project read.now.project) ≡ None }
    requires watched { IsWatched (view_project read.now.project) watch.now }
    ensures passed { OnOk result (IsFreeOf (LastRungs (view_project read.now.project) watch.now)) }
    ensures refused { IfErr result (IsRefusedFor (LastRungs (view_project read.now.project) watch.now)) }
{
    let looks = looks(alloc, &read.project, watch)?;
    match local_fault_of(alloc, placed, facts, &looks, watch)? {
        None => Ok(()),
        Some(fault) => Err(refusal_of_fault(fault)),
    }
}

/// The sources with the new word at the places of a set.
fn new_sources(
    alloc: Global,
    files: &Files,
    read: &Read,
    set: &BTreeSet<Place>,
    new: &[u8],
) -> Result<Vec<SourceFile>, Memory>
    requires cut { AreCut files.now.entries (map (λ list. view_tokens list.items) read.now.tokens.items) }
    requires new { length new.now ≤ max_name_bytes }
    ensures made { IfOk result (λ sources. AreMade set.now new.now 0 files.now.entries sources.items) }
    ensures few { IfOk result (λ sources. length sources.items ≤ max_sources) }
{
    let entries = files.entries();
    let lists = read.tokens.as_slice();
    let mut sources = Vec::new(alloc);
    for at in 0..entries.len() {
        let source = new_source(
            alloc,
            &entries[at],
            lists[at].as_slice(),
            at as u32,
            set,
            new,
        )?;
        sources.push(source)?;
    }
    Ok(sources)
}
