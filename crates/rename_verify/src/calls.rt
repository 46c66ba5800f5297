//! The verdict on two projects.

ghost use Rattle.std.specs.Prelude.{◌≡◌, Err, IfErr, IfOk, List, Ok, map, None};
ghost use Rattle.rotor_base.specs.Files.{IsProject, names_of};
ghost use Rattle.rotor_base.specs.declared.refusal.Refusal.TheVariants as refusal;
ghost use Rattle.ml_lexer.specs.Lexed.{view_tokens};
ghost use Rattle.ml_trees.specs.Tree.{UnitTree};
ghost use Rattle.ml_trees.specs.View.{view_project};
ghost use Rattle.binding_model.specs.Facts.{facts as facts_of};
ghost use Rattle.binding_model.specs.Renaming.{places};
ghost use Rattle.binding_model.specs.Sums.{heavy};
ghost use Rattle.project_reading.specs.Reads.{Reads};
ghost use Rattle.project_reading.specs.Sources.{AreCut};
ghost use Rattle.rename_project.specs.Steps.{IsRefusedFor};
ghost use Rattle.rename_verify.specs.Steps.{HasFirstFault, HasSpot, IsSameShape};
ghost use Rattle.rename_verify.specs.Verdict.{IsVerdict, Verdicts};

use crate::bytes::{Spot, first_spot};
use crate::candidate::{Suggested, suggest};
use crate::fixed::find_least_fixed;
use crate::names::other_source;
use crate::verdict::{Verdict, Why};
use capture_check::{Fault, first_fault};
use project_reading::{Read, read_project};
use rename_project::{resolve_facts, resolve_placed};
use rename_respell::respell_read;
use rotor_base::{Facts, Files, Memory, Refusal};
use std::alloc::Global;
use value_places::PlacedProject;

/// Whether a project is a valid respelling of another, by the renaming that gives each binder the word of the same
/// token in the new sources.
///
/// # Errors
///
/// The first refusal of `check` of the old files. `Memory`.
pub fn verify(alloc: Global, old: &Files, new: &Files) -> Result<Verdict, Refusal>
    ensures verdict { IfOk result (λ verdict. Verdicts old.now new.now (Ok verdict)) }
    ensures refused { IfErr result (IsRefusedFor (λ why. Verdicts old.now new.now (Err why))) }
{
    let read = read_project(alloc, old)?;
    let placed = PlacedProject::new(alloc, &read.project)?;
    let facts = resolve_placed(alloc, &read.project, &placed)?.facts;
    if let Some(name) = other_source(alloc, old, new)? {
        return Ok(Verdict::No(Why::Sources { name }));
    }
    judge(alloc, old, new, &read, &placed, &facts)
}

/// The verdict on two projects whose sources have the same names and whose manifests are the same.
fn judge(
    alloc: Global,
    old: &Files,
    new: &Files,
    read: &Read,
    placed: &PlacedProject<'_>,
    facts: &Facts,
) -> Result<Verdict, Refusal>
    requires reads { Reads old.now (view_project read.now.project) }
    requires project { IsProject old.now }
    requires cut { AreCut old.now.entries (map (λ list. view_tokens list.items) read.now.tokens.items) }
    requires placed { placed.now ≡ places (view_project read.now.project) }
    requires facts { facts.now ≡ facts_of (view_project read.now.project) }
    requires light { heavy (view_project read.now.project) ≡ None }
    requires names { names_of old.now.entries ≡ names_of new.now.entries }
    requires manifest { old.now.manifest ≡ new.now.manifest }
    ensures verdict { IfOk result (IsVerdict old.now new.now (view_project read.now.project)) }
    ensures memory { IfErr result (λ why. why ≡ refusal.Memory) }
{
    let found = suggest(alloc, placed, new)?;
    if let Some(spot) = other_byte(alloc, old, new, read, placed, facts, &found)? {
        return Ok(Verdict::No(Why::Bytes {
            file: spot.file,
            offset: spot.offset,
        }));
    }
    if let Some(at) = find_least_fixed(alloc, placed, facts, &found.changes)? {
        return Ok(Verdict::No(Why::Fixed { at }));
    }
    match find_fault(alloc, new, facts)? {
        Some(fault) => Ok(Verdict::No(Why::Broken(fault))),
        None => Ok(Verdict::Yes(found.changes)),
    }
}

/// The first byte at which new sources differ from the old ones with the suggested names, if they differ. `Memory` is
/// the only error.
fn other_byte(
    alloc: Global,
    old: &Files,
    new: &Files,
    read: &Read,
    placed: &PlacedProject<'_>,
    facts: &Facts,
    found: &Suggested,
) -> Result<Option<Spot>, Memory>
    requires cut { AreCut old.now.entries (map (λ list. view_tokens list.items) read.now.tokens.items) }
    requires placed { placed.now ≡ places (view_project read.now.project) }
    requires facts { facts.now ≡ facts_of (view_project read.now.project) }
    requires names { names_of old.now.entries ≡ names_of new.now.entries }
    ensures { IfOk result (HasSpot (view_project read.now.project) found.now.names.items old.now new.now) }
{
    let sources = respell_read(alloc, old, read, placed, facts, &found.names)?;
    Ok(first_spot(&sources, new.entries()))
}

/// The first fault of the project that new files are read as, against the facts of the old one. `Memory` is the only
/// error.
fn find_fault(alloc: Global, new: &Files, facts: &Facts) -> Result<Option<Fault>, Refusal>
    requires read { (us : List UnitTree) × Reads new.now us }
    requires same { (us : List UnitTree) → Reads new.now us → IsSameShape facts.now us }
    ensures fault { IfOk result (HasFirstFault new.now facts.now) }
    ensures memory { IfErr result (λ why. why ≡ refusal.Memory) }
{
    let read = read_project(alloc, new)?;
    let now = resolve_facts(alloc, &read.project)?.facts;
    Ok(first_fault(alloc, &read.project, facts, &now)?)
}
