//! The binders of a folder, and its sources if all binders take one name.

ghost use Rattle.std.specs.Prelude.{◌≡◌, IfOk, map};

use crate::pieces::{Object, list, place, quote};
use rename_respell::respell;
use rename_survey::{Binder, listed_are_binders, survey};
use rotor_base::{Files, Memory, Name, Place, Refusal, SourceFile};
use std::alloc::{AllocError, Global};

/// The binders and the respelled sources as an object. The errors are those of `survey` and `respell`.
pub fn respelled_object(alloc: Global, files: &Files, name: &str) -> Result<String, Refusal> {
    let survey = survey(alloc, files)?;
    listed_are_binders();
    let map = one_name(alloc, &survey.binders, name)?;
    let sources = respell(alloc, files, &map)?;
    Ok(object(alloc, files.entries(), &survey.binders, &sources)?)
}

/// A map that gives each binder one name.
fn one_name(alloc: Global, binders: &[Binder], name: &str) -> Result<Vec<(Place, Name)>, Memory>
    ensures { IfOk result (λ found. map (λ e. e.0) found.items ≡ map (λ b. b.at) binders.now) }
{
    let mut map = Vec::new(alloc);
    for binder in binders {
        map.push((binder.at, Name::new(alloc, name.as_bytes())?))?;
    }
    Ok(map)
}

fn object(
    alloc: Global,
    entries: &[SourceFile],
    binders: &[Binder],
    sources: &[Vec<u8>],
) -> Result<String, AllocError> {
    let mut lists = Vec::new(alloc);
    for binder in binders {
        lists.push(binder_text(alloc, entries, binder)?)?;
    }
    let mut texts = Vec::new(alloc);
    for source in sources {
        texts.push(quote(alloc, source)?)?;
    }
    let binders = list(alloc, &lists)?;
    let sources = list(alloc, &texts)?;
    let mut object = Object::new(alloc);
    object.add("binders", binders.as_str())?;
    object.add("sources", sources.as_str())?;
    object.end()
}

/// A binder as a list: its place, its name, whether it is an operator, and whether its word is a label or a field too.
fn binder_text(
    alloc: Global,
    entries: &[SourceFile],
    binder: &Binder,
) -> Result<String, AllocError> {
    let at = place(alloc, entries, binder.at)?;
    let name = quote(alloc, binder.name.as_bytes())?;
    format!(in alloc; "[{at}, {name}, {}, {}]", binder.operator, binder.pun)
}
