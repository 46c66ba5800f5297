//! The facts of a folder.

use crate::pieces::{Object, goal, line, list, place};
use binding_model::Sums;
use found_facts::start_from_nothing;
use ml_trees::Project;
use mod_shape::units;
use rename_survey::{Survey, survey};
use rotor_base::{Facts, Files, Link, Outcome, Place, Ref, Refusal, Row, SourceFile};
use shape_core::{FactError, Scope};
use std::alloc::{AllocError, Global};

/// The facts as an object: references, links in the order of resolution, groups in their order, the running sums at
/// the end, and the first refusal that they give.
pub fn facts_object(alloc: Global, files: &Files) -> Result<String, Refusal> {
    let Survey {
        project,
        binders: _,
        facts,
        bad,
    } = survey(alloc, files)?;
    let sums = sums_of(alloc, &project)?;
    let bad = match bad {
        Some(why) => line(alloc, files.entries(), &Outcome::Refused(why))?,
        None => String::from_str(alloc, "null")?,
    };
    Ok(object(alloc, files.entries(), &facts, sums, bad.as_str())?)
}

/// The running sums after all units.
fn sums_of(alloc: Global, project: &Project) -> Result<Sums, Refusal> {
    let mut found = start_from_nothing(alloc, None);
    let mut top = Scope::new(alloc)?;
    match units(alloc, &mut found, &project.units, &mut top) {
        Ok(()) => Ok(found.sums),
        Err(FactError::Heavy { at }) => Err(Refusal::Heavy { at }),
        Err(FactError::Memory) => Err(Refusal::Memory),
    }
}

fn object(
    alloc: Global,
    sources: &[SourceFile],
    facts: &Facts,
    sums: Sums,
    bad: &str,
) -> Result<String, AllocError> {
    let groups = groups_text(alloc, sources, facts.groups.as_slice())?;
    let links = links_text(alloc, sources, facts.links.as_slice())?;
    let refs = refs_text(alloc, sources, facts.refs.as_slice())?;
    let mut object = Object::new(alloc);
    object.add("bad", bad)?;
    object.add("groups", groups.as_str())?;
    object.add("links", links.as_str())?;
    object.add("refs", refs.as_str())?;
    object.add_number("weights", sums.weight)?;
    object.add_number("work", sums.work)?;
    object.end()
}

/// The groups that have a place, in order of their places.
fn groups_text(
    alloc: Global,
    sources: &[SourceFile],
    groups: &[Row<Place>],
) -> Result<String, AllocError> {
    let mut lists = Vec::new(alloc);
    for group in groups {
        if !group.as_slice().is_empty() {
            lists.push(group.as_slice().to_vec(alloc)?)?;
        }
    }
    lists.sort()?;
    let mut texts = Vec::new(alloc);
    for places in &lists {
        texts.push(places_text(alloc, sources, places)?)?;
    }
    list(alloc, &texts)
}

fn places_text(
    alloc: Global,
    sources: &[SourceFile],
    places: &[Place],
) -> Result<String, AllocError> {
    let mut texts = Vec::new(alloc);
    for at in places {
        texts.push(place(alloc, sources, *at)?)?;
    }
    list(alloc, &texts)
}

fn links_text(alloc: Global, sources: &[SourceFile], links: &[Link]) -> Result<String, AllocError> {
    let mut texts = Vec::new(alloc);
    for link in links {
        let item = goal(alloc, sources, link.item)?;
        let source = goal(alloc, sources, link.source)?;
        texts.push(format!(in alloc; "[{item}, {source}]")?)?;
    }
    list(alloc, &texts)
}

fn refs_text(alloc: Global, sources: &[SourceFile], refs: &[Ref]) -> Result<String, AllocError> {
    let mut texts = Vec::new(alloc);
    for reference in refs {
        let at = place(alloc, sources, reference.at)?;
        let goal = goal(alloc, sources, reference.goal)?;
        texts.push(format!(in alloc; "[{at}, {goal}]")?)?;
    }
    list(alloc, &texts)
}
