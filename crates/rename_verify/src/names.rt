//! The names of the sources of two projects, and their manifests.

ghost use Rattle.std.specs.Prelude.{◌≡◌, ◌↔◌, IfOk, IsTrue};
ghost use Rattle.std.specs.Option.{option_copied};
ghost use Rattle.rotor_base.specs.Files.{IsProject, names_of};
ghost use Rattle.rename_verify.specs.Scans.{IsOtherSource, first_alone};

use rotor_base::{Files, Memory, Name, SourceFile};
use std::alloc::Global;
use std::cmp::Ordering;

/// The name of the manifest.
const MANIFEST: &[u8] = b"rotor.units";

/// The first name in byte order that the sources of one of two projects have alone; or else `rotor.units`, if the
/// manifests differ. `Memory` is the only error.
pub fn other_source(alloc: Global, old: &Files, new: &Files) -> Result<Option<Name>, Memory>
    ensures name { IfOk result (IsOtherSource old.now new.now) }
    ensures project { IsProject old.now }
{
    if let Some(name) = find_first_alone(old.entries(), new.entries()) {
        return Ok(Some(Name::new(alloc, name)?));
    }
    if has_same_manifest(old, new) {
        return Ok(None);
    }
    Ok(Some(Name::new(alloc, MANIFEST)?))
}

/// The first name that one of two lists of sources in byte order has alone.
fn find_first_alone<'a>(olds: &'a [SourceFile], news: &'a [SourceFile]) -> Option<&'a [u8]>
    ensures { option_copied result ≡ first_alone (names_of olds.now) (names_of news.now) }
{
    let count = olds.len().min(news.len());
    for at in 0..count {
        let (old, new) = (bytes_of_name(&olds[at]), bytes_of_name(&news[at]));
        match old.cmp(new) {
            Ordering::Less => return Some(old),
            Ordering::Equal => {}
            Ordering::Greater => return Some(new),
        }
    }
    let longer = if count < olds.len() { olds } else { news };
    let source = longer.get(count)?;
    Some(bytes_of_name(source))
}

/// The bytes of a source's name.
fn bytes_of_name(source: &SourceFile) -> &[u8]
    ensures { result.now ≡ source.now.name }
{
    source.name.as_str().as_bytes()
}

/// Whether two projects have one manifest, or none.
fn has_same_manifest(old: &Files, new: &Files) -> bool
    ensures { IsTrue result ↔ (old.now.manifest ≡ new.now.manifest) }
{
    match (old.manifest(), new.manifest()) {
        (None, None) => true,
        (Some(one), Some(other)) => one == other,
        _ => false,
    }
}
