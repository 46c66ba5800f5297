//! The looks of a folder under a watch.

use crate::pieces::{Object, goal, list, place, place_or_null};
use crate::watch::watch_target;
use mod_shape::looks;
use rotor_base::{Files, LinkLook, Looks, Place, RefLook, Refusal, SourceFile, Target};
use std::alloc::{AllocError, Global};

/// A position in a list, a declaration, and the number of outside modules after that position.
type Spot = (u64, Place, u64);

/// The looks as an object: those of references, those of links, and the number of all links. The errors are those of a
/// renaming.
pub fn looks_object(
    alloc: Global,
    files: &Files,
    target: &Target,
    name: &str,
) -> Result<String, Refusal> {
    let found = watch_target(alloc, files, target, name)?;
    let looks = looks(alloc, &found.project, &found.watch)?;
    Ok(object(alloc, files.entries(), &looks)?)
}

fn object(alloc: Global, sources: &[SourceFile], looks: &Looks) -> Result<String, AllocError> {
    let mut links = Vec::new(alloc);
    for look in looks.links.as_slice() {
        links.push(link_text(alloc, sources, *look)?)?;
    }
    let links = list(alloc, &links)?;
    let mut refs = Vec::new(alloc);
    for look in looks.refs.as_slice() {
        refs.push(ref_text(alloc, sources, *look)?)?;
    }
    let refs = list(alloc, &refs)?;
    let mut object = Object::new(alloc);
    object.add("links", links.as_str())?;
    object.add_number("passed", looks.passed)?;
    object.add("refs", refs.as_str())?;
    object.end()
}

fn link_text(alloc: Global, sources: &[SourceFile], look: LinkLook) -> Result<String, AllocError> {
    let mut object = Object::new(alloc);
    object.add("by", place_or_null(alloc, sources, look.by)?.as_str())?;
    object.add_number("darks", look.darks)?;
    object.add("foot", spot(alloc, sources, look.foot)?.as_str())?;
    object.add_flag("is_new", look.is_new)?;
    object.add("item", place(alloc, sources, look.item)?.as_str())?;
    object.add_flag("later_foot", look.later_foot)?;
    object.add_flag("later_new", look.later_new)?;
    object.add_flag("later_old", look.later_old)?;
    object.add("new", spot(alloc, sources, look.new)?.as_str())?;
    object.add_number("number", look.number)?;
    object.add("old", spot(alloc, sources, look.old)?.as_str())?;
    object.add_flag("pinned", look.pinned)?;
    object.end()
}

fn ref_text(alloc: Global, sources: &[SourceFile], look: RefLook) -> Result<String, AllocError> {
    let mut object = Object::new(alloc);
    object.add("at", place(alloc, sources, look.at)?.as_str())?;
    object.add("by", place_or_null(alloc, sources, look.by)?.as_str())?;
    object.add_number("darks", look.darks)?;
    object.add("foot", spot(alloc, sources, look.foot)?.as_str())?;
    object.add("goal", goal(alloc, sources, look.goal)?.as_str())?;
    object.add_flag("is_new", look.is_new)?;
    object.add("new", spot(alloc, sources, look.new)?.as_str())?;
    object.end()
}

/// A spot as a list, or `null`.
fn spot(alloc: Global, sources: &[SourceFile], found: Option<Spot>) -> Result<String, AllocError> {
    let Some(spot) = found else {
        return String::from_str(alloc, "null");
    };
    let at = place(alloc, sources, spot.1)?;
    format!(in alloc; "[{}, {at}, {}]", spot.0, spot.2)
}
