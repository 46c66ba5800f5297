//! A file of a folder.
ghost use Rattle.std.specs.Prelude.{◌≡◌, ◌==◌, ℕ, List, string_bytes, IfNone, IfOk, IfSome};
ghost use Rattle.std.specs.List.{list_any};
ghost use Rattle.document_uris.specs.Places.{IsPlace, Splits};

use rotor_base::Memory;
use std::alloc::Global;

/// A file: the path of its folder, which begins with a slash, and its name there.
#[derive(Debug, Drop)]
pub struct FilePlace {
    pub folder: String,
    pub name: String,
}

/// The file of a path, whose first slash is left out; `None` if the path has a NUL character or ends with a slash.
pub(crate) fn place_of(alloc: Global, path: &str) -> Result<Option<FilePlace>, Memory>
    ensures place { IfOk result (λ found. IfSome found (λ place. IsPlace path.now (string_bytes place.folder) (string_bytes place.name))) }
    ensures none { IfOk result (λ found. IfNone found ((folder name : List ℕ) → ¬ (IsPlace path.now folder name))) }
{
    if has_nul(path) {
        return Ok(None);
    }
    let (parent, name) = split(path);
    if name.is_empty() {
        return Ok(None);
    }
    let mut folder = String::from_str(alloc, "/")?;
    folder.push_str(parent)?;
    let name = String::from_str(alloc, name)?;
    Ok(Some(FilePlace { folder, name }))
}

/// What is before the last slash of a path, and what is behind it. Without a slash nothing is before it.
fn split(path: &str) -> (&str, &str)
    ensures { Splits path.now result.0.now result.1.now }
{
    match path.rsplit_once('/') {
        Some(parts) => parts,
        None => ("", path),
    }
}

/// Whether a path has a NUL character.
fn has_nul(path: &str) -> bool
    ensures { result ≡ list_any (λ b. b == 0) path.now }
{
    path.contains('\0')
}
