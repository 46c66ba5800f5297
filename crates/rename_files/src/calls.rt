//! The calls of renaming.

ghost use Rattle.std.specs.Prelude.{◌≡◌, Err, IfErr, IfOk, None, Ok, map};
ghost use Rattle.ml_lexer.specs.Lexed.{view_tokens};
ghost use Rattle.value_sites.specs.Sound.{IsSound};
ghost use Rattle.ml_trees.specs.View.{view_project};
ghost use Rattle.shape_core.specs.Node.{entries_of};
ghost use Rattle.shape_core.specs.Shape.{none};
ghost use Rattle.binding_model.specs.Facts.{facts as facts_of};
ghost use Rattle.binding_model.specs.Renaming.{places};
ghost use Rattle.binding_model.specs.Scopes.{after_units};
ghost use Rattle.binding_model.specs.Sums.{heavy};
ghost use Rattle.project_reading.specs.Known.{AreKnown};
ghost use Rattle.project_reading.specs.Reads.{Reads};
ghost use Rattle.project_reading.specs.Sources.{AreCut};
ghost use Rattle.rename_model.specs.Project.{refusals_of_project};
ghost use Rattle.rename_project.specs.Steps.{IsFreeOf, IsRefusedFor};
ghost use Rattle.rename_files.specs.Answer.{Checks, Renames, Shows};

use crate::judge::judge;
use dependency_kernel::footprint;
use mod_shape::Resolved;
use project_reading::{KnownTrees, Read, read_project, read_rest};
use rename_parts::{changed_files, count_refs, remake};
use rename_project::{find_aim, resolve_placed};
use rotor_base::{Counts, Files, FootReport, Name, Refusal, Renamed, Row, Target, Watch};
use std::alloc::Global;
use value_places::PlacedProject;
use watched::set_of;

/// What a project has: its files, units, declarations, references and links.
///
/// # Errors
///
/// The first of these that holds: the refusals of `read_project`; `Duplicate` with the least place that repeats a name
/// of its group, and the least place of that name there; `Heavy` with the first site to end that is too heavy;
/// `Unmatched` with the least item of a link that lacks its source. `Memory`.
pub fn check(alloc: Global, files: &Files) -> Result<Counts, Refusal>
    ensures counted { IfOk result (λ counts. Checks files.now (Ok counts)) }
    ensures refused { IfErr result (IsRefusedFor (λ why. Checks files.now (Err why))) }
{
    let read = read_project(alloc, files)?;
    let placed = PlacedProject::new(alloc, &read.project)?;
    let resolved = resolve_placed(alloc, &read.project, &placed)?;
    Ok(Counts {
        files: files.entries().len() as u64,
        units: read.project.units.as_slice().len() as u64,
        declarations: placed.binders().len() as u64,
        references: resolved.facts.refs.as_slice().len() as u64,
        links: resolved.facts.links.as_slice().len() as u64,
    })
}

/// The footprint of the binder that a target names: its name, its declarations in order, the least of them that is
/// linked with the outside, and the number of references to them.
///
/// # Errors
///
/// Those of [`check`], and then `NoTarget`, if the target names no binder. `Memory`.
pub fn foot(alloc: Global, files: &Files, target: &Target) -> Result<FootReport, Refusal>
    ensures shown { IfOk result (λ shown. Shows files.now target.now (Ok shown)) }
    ensures refused { IfErr result (IsRefusedFor (λ why. Shows files.now target.now (Err why))) }
{
    let read = read_project(alloc, files)?;
    let placed = PlacedProject::new(alloc, &read.project)?;
    let resolved = resolve_placed(alloc, &read.project, &placed)?;
    foot_placed(alloc, files, &read, &placed, &resolved, target)
}

/// The answer of [`foot`] over files that were read and resolved. The caller ensures that the project is that of the
/// files, that nothing refuses it, and that the tokens, the facts and the scope are its own.
///
/// # Errors
///
/// `NoTarget`, if the target names no binder. `Memory`.
pub fn foot_in(
    alloc: Global,
    files: &Files,
    read: &Read,
    resolved: &Resolved,
    target: &Target,
) -> Result<FootReport, Refusal>
    requires reads { Reads files.now (view_project read.now.project) }
    requires sound { IsSound (view_project read.now.project) }
    requires cut { AreCut files.now.entries (map (λ list. view_tokens list.items) read.now.tokens.items) }
    requires passed { IsFreeOf (refusals_of_project (view_project read.now.project)) }
    requires facts { resolved.now.facts ≡ facts_of (view_project read.now.project) }
    requires top { entries_of resolved.now.top ≡ after_units none (view_project read.now.project) }
    ensures shown { IfOk result (λ shown. Shows files.now target.now (Ok shown)) }
    ensures refused { IfErr result (IsRefusedFor (λ why. Shows files.now target.now (Err why))) }
{
    let placed = PlacedProject::new(alloc, &read.project)?;
    foot_placed(alloc, files, read, &placed, resolved, target)
}

/// The answer of [`foot_in`] over a project whose places are listed.
fn foot_placed(
    alloc: Global,
    files: &Files,
    read: &Read,
    placed: &PlacedProject<'_>,
    resolved: &Resolved,
    target: &Target,
) -> Result<FootReport, Refusal>
    requires reads { Reads files.now (view_project read.now.project) }
    requires cut { AreCut files.now.entries (map (λ list. view_tokens list.items) read.now.tokens.items) }
    requires placed { placed.now ≡ places (view_project read.now.project) }
    requires passed { IsFreeOf (refusals_of_project (view_project read.now.project)) }
    requires facts { resolved.now.facts ≡ facts_of (view_project read.now.project) }
    requires top { entries_of resolved.now.top ≡ after_units none (view_project read.now.project) }
    ensures shown { IfOk result (λ shown. Shows files.now target.now (Ok shown)) }
    ensures refused { IfErr result (IsRefusedFor (λ why. Shows files.now target.now (Err why))) }
{
    let aim = find_aim(alloc, files, read, placed, &resolved.top, target)?;
    let foot = footprint(alloc, &resolved.facts, aim.place)?;
    let members = set_of(alloc, foot.decls.as_slice())?;
    let refs = count_refs(resolved.facts.refs.as_slice(), &members);
    Ok(FootReport {
        old: aim.mark.name,
        foot,
        refs,
    })
}

/// Renames the binder that a target names, with its footprint and all references to it: the new files, the numbers of
/// the sources that changed, the old and the new name, the footprint, the number of references, and the binder's place.
///
/// # Errors
///
/// Those of [`foot`], and then the first of these that holds: `Operator`, if the name is an operator; `BadName`, if the
/// new name is no value name; `SameName`, if it is the old one; `Outside` with the least member that is linked with the
/// outside; `Pun` with the least member or reference whose word is a label or a field too; `Blurred` with the least
/// place at which an outside module hides what a member is; `Grown` with the first source with which the new ones are
/// over the limits on bytes; `Clash` with the least place that would repeat a name of its group, and the least place of
/// that name there; `Capture` with the least reference that would have another goal, and both goals; `Mislink` with the
/// first link of the least item that would have another source, and both sources. `Memory`.
pub fn rename(
    alloc: Global,
    files: &Files,
    target: &Target,
    name: &[u8],
) -> Result<Renamed, Refusal>
    ensures done { IfOk result (λ done. Renames files.now target.now name.now (Ok done)) }
    ensures refused { IfErr result (IsRefusedFor (λ why. Renames files.now target.now name.now (Err why))) }
{
    let read = read_project(alloc, files)?;
    rename_read(alloc, files, &read, target, name)
}

/// The answer of [`rename`], if some trees of the files are known, and the trees that are known of the new files: those
/// of the sources that stay. The caller ensures that the known trees are those of the files. The errors are those of
/// [`rename`].
pub fn rename_again(
    alloc: Global,
    files: &Files,
    known: KnownTrees,
    target: &Target,
    name: &[u8],
) -> Result<(Renamed, KnownTrees), Refusal>
    requires { AreKnown files.now.entries known }
    ensures done { IfOk result (λ again. Renames files.now target.now name.now (Ok again.0)) }
    ensures known { IfOk result (λ again. AreKnown again.0.files.entries again.1) }
    ensures refused { IfErr result (IsRefusedFor (λ why. Renames files.now target.now name.now (Err why))) }
{
    let read = read_rest(alloc, files, known)?;
    let done = rename_read(alloc, files, &read, target, name)?;
    let known = KnownTrees::from_read(alloc, read, files, &done.files)?;
    Ok((done, known))
}

/// The answer of [`rename`] over files that were read.
fn rename_read(
    alloc: Global,
    files: &Files,
    read: &Read,
    target: &Target,
    name: &[u8],
) -> Result<Renamed, Refusal>
    requires reads { Reads files.now (view_project read.now.project) }
    requires sound { IsSound (view_project read.now.project) }
    requires cut { AreCut files.now.entries (map (λ list. view_tokens list.items) read.now.tokens.items) }
    ensures done { IfOk result (λ done. Renames files.now target.now name.now (Ok done)) }
    ensures refused { IfErr result (IsRefusedFor (λ why. Renames files.now target.now name.now (Err why))) }
{
    let placed = PlacedProject::new(alloc, &read.project)?;
    let resolved = resolve_placed(alloc, &read.project, &placed)?;
    rename_placed(alloc, files, read, &placed, &resolved, target, name)
}

/// The answer of [`rename`] over files that were read and resolved. The caller ensures what [`foot_in`] requires, and
/// that no site is too heavy.
///
/// # Errors
///
/// `NoTarget`, if the target names no binder, and then those of [`rename`] that follow it. `Memory`.
pub fn rename_in(
    alloc: Global,
    files: &Files,
    read: &Read,
    resolved: &Resolved,
    target: &Target,
    name: &[u8],
) -> Result<Renamed, Refusal>
    requires reads { Reads files.now (view_project read.now.project) }
    requires sound { IsSound (view_project read.now.project) }
    requires cut { AreCut files.now.entries (map (λ list. view_tokens list.items) read.now.tokens.items) }
    requires passed { IsFreeOf (refusals_of_project (view_project read.now.project)) }
    requires light { heavy (view_project read.now.project) ≡ None }
    requires facts { resolved.now.facts ≡ facts_of (view_project read.now.project) }
    requires top { entries_of resolved.now.top ≡ after_units none (view_project read.now.project) }
    ensures done { IfOk result (λ done. Renames files.now target.now name.now (Ok done)) }
    ensures refused { IfErr result (IsRefusedFor (λ why. Renames files.now target.now name.now (Err why))) }
{
    let placed = PlacedProject::new(alloc, &read.project)?;
    rename_placed(alloc, files, read, &placed, resolved, target, name)
}

/// The answer of [`rename_in`] over a project whose places are listed.
fn rename_placed(
    alloc: Global,
    files: &Files,
    read: &Read,
    placed: &PlacedProject<'_>,
    resolved: &Resolved,
    target: &Target,
    name: &[u8],
) -> Result<Renamed, Refusal>
    requires reads { Reads files.now (view_project read.now.project) }
    requires sound { IsSound (view_project read.now.project) }
    requires cut { AreCut files.now.entries (map (λ list. view_tokens list.items) read.now.tokens.items) }
    requires placed { placed.now ≡ places (view_project read.now.project) }
    requires passed { IsFreeOf (refusals_of_project (view_project read.now.project)) }
    requires light { heavy (view_project read.now.project) ≡ None }
    requires facts { resolved.now.facts ≡ facts_of (view_project read.now.project) }
    requires top { entries_of resolved.now.top ≡ after_units none (view_project read.now.project) }
    ensures done { IfOk result (λ done. Renames files.now target.now name.now (Ok done)) }
    ensures refused { IfErr result (IsRefusedFor (λ why. Renames files.now target.now name.now (Err why))) }
{
    let aim = find_aim(alloc, files, read, placed, &resolved.top, target)?;
    let facts = &resolved.facts;
    let foot = footprint(alloc, facts, aim.place)?;
    let members = set_of(alloc, foot.decls.as_slice())?;
    let refs = count_refs(facts.refs.as_slice(), &members);
    let new = Name::new(alloc, name)?;
    let watch = Watch {
        old: aim.mark.name,
        new,
        foot,
    };
    let judged = judge(
        alloc, files, read, placed, facts, &watch, &members, aim.place,
    )?;
    let changed = changed_files(alloc, &judged.places, files.entries())?;
    let files = remake(alloc, files, judged.sources)?;
    Ok(Renamed {
        files,
        changed: Row::from_vec(changed),
        old: watch.old,
        new: watch.new,
        foot: watch.foot,
        refs,
        undo_at: aim.place,
    })
}
