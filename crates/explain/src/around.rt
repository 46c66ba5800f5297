//! What is known of a folder around a refusal.
ghost use Rattle.std.specs.Prelude.{◌≡◌, ◌≢◌, [], IfOk, None, OnOk, map};
ghost use Rattle.rotor_base.specs.declared.refusal.Refusal.TheVariants as refusals;
ghost use Rattle.ml_lexer.specs.Lexed.{view_tokens};
ghost use Rattle.value_sites.specs.Sound.{IsSound};
ghost use Rattle.ml_trees.specs.View.{view_project};
ghost use Rattle.shape_core.specs.Node.{entries_of};
ghost use Rattle.shape_core.specs.Shape.{none};
ghost use Rattle.binding_model.specs.Facts.{facts as facts_of};
ghost use Rattle.binding_model.specs.Scopes.{after_units};
ghost use Rattle.binding_model.specs.Sums.{heavy as heavy_of};
ghost use Rattle.project_reading.specs.Reads.{Reads};
ghost use Rattle.project_reading.specs.Sources.{AreCut};
ghost use Rattle.explain.specs.Around.{AreDeclarations, IsAround, IsKnown, no_facts, nothing};

use crate::path_stop::{PathStop, target_stop};
use dependency_kernel::footprint;
use mod_shape::Resolved;
use project_reading::{Read, read_project};
use rename_project::{find_aim, resolve_facts};
use rotor_base::{Facts, Files, Memory, Place, Refusal, Row, Target};
use shape_core::Scope;
use std::alloc::Global;
use value_places::PlacedProject;

/// The facts of a folder, the declarations of the footprint that a target names, and where the path of the target
/// stops.
#[derive(Drop)]
pub(crate) struct Around {
    pub facts: Facts,
    pub decls: Row<Place>,
    pub stop: PathStop,
}

/// No facts, if there was memory.
fn facts_unless_memory(alloc: Global, refusal: &Refusal) -> Result<Facts, Memory>
    ensures none { IfOk result (λ found. found ≡ no_facts) }
    ensures memory { OnOk result (refusal.now ≢ refusals.Memory) }
{
    match refusal {
        Refusal::Memory => Err(Memory),
        _ => Ok(Facts {
            refs: Row::new(alloc),
            links: Row::new(alloc),
            groups: Row::new(alloc),
        }),
    }
}

/// What is known of a folder and of a target. The one error is want of memory.
#[tactic(auto, using(crate::proofs::Known::unread_around))]
pub(crate) fn look_around(alloc: Global, files: &Files, target: &Target) -> Result<Around, Memory>
    ensures { IfOk result (IsAround files.now target.now) }
{
    match read_project(alloc, files) {
        Ok(read) => look_in(alloc, files, &read, target),
        Err(refusal) => nothing_unless_memory(alloc, &refusal),
    }
}

/// Nothing is known, if there was memory.
fn nothing_unless_memory(alloc: Global, refusal: &Refusal) -> Result<Around, Memory>
    ensures nothing { IfOk result (λ around. around ≡ nothing) }
    ensures memory { OnOk result (refusal.now ≢ refusals.Memory) }
{
    Ok(Around {
        facts: facts_unless_memory(alloc, refusal)?,
        decls: Row::new(alloc),
        stop: PathStop::AtValue,
    })
}

/// What is known of a folder that was read.
#[tactic(auto, using(crate::proofs::Known::known_around, crate::proofs::Known::heavy_around))]
fn look_in(alloc: Global, files: &Files, read: &Read<'_>, target: &Target) -> Result<Around, Memory>
    requires reads { Reads files.now (view_project read.now.project) }
    requires sound { IsSound (view_project read.now.project) }
    requires cut { AreCut files.now.entries (map (λ list. view_tokens list.items) read.now.tokens.items) }
    ensures { IfOk result (IsAround files.now target.now) }
{
    match resolve_facts(alloc, &read.project) {
        Ok(resolved) => look_among(alloc, files, read, resolved, target),
        Err(refusal) => nothing_unless_memory(alloc, &refusal),
    }
}

/// What is known of a folder that was resolved.
fn look_among(
    alloc: Global,
    files: &Files,
    read: &Read<'_>,
    resolved: Resolved,
    target: &Target,
) -> Result<Around, Memory>
    requires reads { Reads files.now (view_project read.now.project) }
    requires sound { IsSound (view_project read.now.project) }
    requires cut { AreCut files.now.entries (map (λ list. view_tokens list.items) read.now.tokens.items) }
    requires facts { resolved.facts ≡ facts_of (view_project read.now.project) }
    requires top { entries_of resolved.top ≡ after_units none (view_project read.now.project) }
    requires light { heavy_of (view_project read.now.project) ≡ None }
    ensures { IfOk result (IsKnown files.now (view_project read.now.project) target.now) }
{
    let Resolved { facts, top } = resolved;
    let decls = declarations(alloc, files, read, &facts, &top, target)?;
    let stop = target_stop(&top, target);
    Ok(Around { facts, decls, stop })
}

/// The declarations of the footprint that a target names.
#[tactic(auto, using(crate::proofs::Known::named_declarations, crate::proofs::Known::nameless_declarations))]
fn declarations(
    alloc: Global,
    files: &Files,
    read: &Read<'_>,
    facts: &Facts,
    top: &Scope,
    target: &Target,
) -> Result<Row<Place>, Memory>
    requires sound { IsSound (view_project read.now.project) }
    requires cut { AreCut files.now.entries (map (λ list. view_tokens list.items) read.now.tokens.items) }
    requires facts { facts.now ≡ facts_of (view_project read.now.project) }
    requires top { entries_of top.now ≡ after_units none (view_project read.now.project) }
    ensures { IfOk result (AreDeclarations files.now (view_project read.now.project) target.now) }
{
    let placed = PlacedProject::new(alloc, &read.project)?;
    match find_aim(alloc, files, read, &placed, top, target) {
        Ok(aim) => Ok(footprint(alloc, facts, aim.place)?.decls),
        Err(refusal) => no_declarations(alloc, &refusal),
    }
}

/// No declarations, if there was memory.
fn no_declarations(alloc: Global, refusal: &Refusal) -> Result<Row<Place>, Memory>
    ensures none { IfOk result (λ decls. decls ≡ []) }
    ensures memory { OnOk result (refusal.now ≢ refusals.Memory) }
{
    match refusal {
        Refusal::Memory => Err(Memory),
        _ => Ok(Row::new(alloc)),
    }
}
