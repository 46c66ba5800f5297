//! The first fault of a renaming, by both calls.

ghost use Rattle.std.specs.Prelude.{◌≡◌, ◌≤◌, None, length, map};
ghost use Rattle.std.specs.Bool.{Decides};
ghost use Rattle.rotor_base.specs.Limits.{max_name_bytes};
ghost use Rattle.value_sites.specs.Sound.{IsSound};
ghost use Rattle.ml_trees.specs.View.{view_project};
ghost use Rattle.binding_model.specs.Facts.{facts as facts_of};
ghost use Rattle.binding_model.specs.Renaming.{IsBinder};
ghost use Rattle.binding_model.specs.Renaming.{name_of};
ghost use Rattle.binding_model.specs.Sums.{heavy};
ghost use Rattle.dependency_kernel.specs.Foot.{IsFoot};

use crate::folder::load_sources;
use crate::pieces::{Object, goal, place};
use crate::watch::watch_target;
use binding_model::same_groups;
use capture_check::{Fault, first_fault, local_fault};
use ml_lexer::lex;
use ml_trees::Project;
use mod_shape::looks;
use project_reading::read_project;
use rename_parts::{judge_foot, new_source};
use rename_project::resolve_facts;
use rotor_base::{
    Facts, Files, Goal, Link, MAX_FILE_BYTES, MAX_NAME_BYTES, Memory, Place, Ref, Refusal,
    SourceFile, Target, Watch,
};
use std::alloc::{AllocError, Global};
use std::collections::BTreeSet;
use value_places::PlacedProject;
use watched::set_of;

/// A renaming that is weighed: the places that take the new word, and the first fault by the looks.
#[derive(Drop)]
struct Weighed {
    set: BTreeSet<Place>,
    fault: Option<Fault>,
}

/// The faults as an object: the first one between the facts of the two projects, and what the looks give.
pub fn faults_object(
    alloc: Global,
    files: &Files,
    target: &Target,
    name: &str,
) -> Result<String, Refusal> {
    let found = watch_target(alloc, files, target, name)?;
    let weighed = weigh(
        alloc,
        &found.project,
        &found.facts,
        &found.watch,
        found.binder,
    )?;
    let renamed = renamed_files(alloc, files, &weighed.set, name.as_bytes())?;
    let first = compare_facts(alloc, &found.facts, &renamed)?;
    let first = fault_text(alloc, files.entries(), first)?;
    let local = fault_text(alloc, files.entries(), weighed.fault)?;
    let mut object = Object::new(alloc);
    object.add("first", first.as_str())?;
    object.add("local", local.as_str())?;
    Ok(object.end()?)
}

/// The places that take the new word, and the first fault by the looks, if none of the refusals before holds.
fn weigh(
    alloc: Global,
    project: &Project,
    facts: &Facts,
    watch: &Watch,
    binder: Place,
) -> Result<Weighed, Refusal>
    requires sound { IsSound (view_project project.now) }
    requires facts { facts.now ≡ facts_of (view_project project.now) }
    requires light { heavy (view_project project.now) ≡ None }
    requires binds { IsBinder (view_project project.now) binder }
    requires foot { IsFoot facts.now.links binder watch.now.foot }
    requires old { watch.now.old ≡ name_of (view_project project.now) binder }
{
    let members = set_of(alloc, watch.foot.decls.as_slice())?;
    let placed = PlacedProject::new(alloc, project)?;
    let hits = match judge_foot(alloc, &placed, facts, watch, &members) {
        Ok(hits) => hits,
        Err(why) => return Err(why),
    };
    let looks = looks(alloc, project, watch)?;
    let fault = local_fault(alloc, project, facts, &looks, watch)?;
    Ok(Weighed {
        set: hits.set,
        fault,
    })
}

/// The first fault between the facts of a project and those of the renamed files.
fn compare_facts(alloc: Global, old: &Facts, renamed: &Files) -> Result<Option<Fault>, Refusal> {
    let read = read_project(alloc, renamed)?;
    let resolved = resolve_facts(alloc, &read.project)?;
    let new = &resolved.facts;
    if same_ref_places(old.refs.as_slice(), new.refs.as_slice())
        && same_items(old.links.as_slice(), new.links.as_slice())
        && same_groups(old.groups.as_slice(), new.groups.as_slice())
    {
        Ok(first_fault(alloc, &read.project, old, new)?)
    } else {
        Err(Refusal::NoTarget)
    }
}

/// The files with the new word at the places of a set.
fn renamed_files(
    alloc: Global,
    files: &Files,
    set: &BTreeSet<Place>,
    new: &[u8],
) -> Result<Files, Refusal> {
    if new.len() > MAX_NAME_BYTES {
        return Err(Refusal::BadName);
    }
    let mut sources = Vec::new(alloc);
    for (number, source) in files.entries().iter().enumerate() {
        sources.push(renamed_source(alloc, source, number as u32, set, new)?)?;
    }
    match load_sources(alloc, sources) {
        Ok(files) => Ok(files),
        Err(_) => Err(Refusal::Memory),
    }
}

/// A source with the new word at the places of a set.
fn renamed_source(
    alloc: Global,
    source: &SourceFile,
    number: u32,
    set: &BTreeSet<Place>,
    new: &[u8],
) -> Result<SourceFile, Memory>
    requires { length new.now ≤ max_name_bytes }
{
    let bytes = source.bytes.as_slice();
    if bytes.len() > MAX_FILE_BYTES as usize {
        return Err(Memory);
    }
    match lex(alloc, bytes) {
        Ok(tokens) => new_source(alloc, source, &tokens, number, set, new),
        Err(_) => Err(Memory),
    }
}

/// Whether two lists of references have the same places.
fn same_ref_places(old: &[Ref], new: &[Ref]) -> bool
    ensures { Decides result (map (λ r. r.at) old.now ≡ map (λ r. r.at) new.now) }
{
    let mut rest = new;
    for reference in old {
        match rest {
            [] => return false,
            [other, others @ ..] => {
                if reference.at != other.at {
                    return false;
                }
                rest = others;
            }
        }
    }
    rest.is_empty()
}

/// Whether two lists of links have the same items.
fn same_items(old: &[Link], new: &[Link]) -> bool
    ensures { Decides result (map (λ l. l.item) old.now ≡ map (λ l. l.item) new.now) }
{
    let mut rest = new;
    for link in old {
        match rest {
            [] => return false,
            [other, others @ ..] => {
                if link.item != other.item {
                    return false;
                }
                rest = others;
            }
        }
    }
    rest.is_empty()
}

/// A fault as a list of its kind and its places and goals, or `null`.
fn fault_text(
    alloc: Global,
    sources: &[SourceFile],
    fault: Option<Fault>,
) -> Result<String, AllocError> {
    let Some(fault) = fault else {
        return String::from_str(alloc, "null");
    };
    match fault {
        Fault::Clash { first, again } => {
            let first = place(alloc, sources, first)?;
            let again = place(alloc, sources, again)?;
            format!(in alloc; "[\"clash\", {first}, {again}]")
        }
        Fault::Capture { at, was, would } => {
            change_text(alloc, sources, "capture", Goal::Decl(at), was, would)
        }
        Fault::Mislink { item, was, would } => {
            change_text(alloc, sources, "mislink", item, was, would)
        }
    }
}

/// A change as a list: its kind, what changes, and both goals.
fn change_text(
    alloc: Global,
    sources: &[SourceFile],
    kind: &str,
    changed: Goal,
    was: Goal,
    would: Goal,
) -> Result<String, AllocError> {
    let changed = goal(alloc, sources, changed)?;
    let was = goal(alloc, sources, was)?;
    let would = goal(alloc, sources, would)?;
    format!(in alloc; "[\"{kind}\", {changed}, {was}, {would}]")
}
