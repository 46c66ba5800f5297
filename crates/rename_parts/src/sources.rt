//! The new files of a renaming.

ghost use Rattle.std.specs.Prelude.{◌≡◌, ◌≤◌, IfOk, None, length};
ghost use Rattle.ml_lexer.specs.Lexed.{Lexed, view_tokens};
ghost use Rattle.std.specs.Option.{option_map};
ghost use Rattle.rotor_base.specs.Limits.{max_file_bytes, max_name_bytes, max_sources};
ghost use Rattle.rotor_base.specs.Files.{names_of, too_large, IsProject};
ghost use Rattle.rename_model.specs.Report.{hit_files};
ghost use Rattle.rename_parts.specs.Sources.{IsMade};

use crate::bytes::new_bytes;
use crate::members::files_of;
use rotor_base::{Files, Memory, Place, Row, SourceFile, Text, Token};
use std::alloc::Global;
use std::collections::BTreeSet;

/// A source whose lower-case words at the places of a set take a new word. `Memory` is the only error.
pub fn new_source(
    alloc: Global,
    source: &SourceFile,
    tokens: &[Token],
    file: u32,
    set: &BTreeSet<Place>,
    new: &[u8],
) -> Result<SourceFile, Memory>
    requires small { length source.now.bytes ≤ max_file_bytes }
    requires cut { Lexed source.now.bytes (view_tokens tokens.now) }
    requires new { length new.now ≤ max_name_bytes }
    ensures { IfOk result (IsMade set.now new.now file source.now) }
{
    let bytes = new_bytes(alloc, source.bytes.as_slice(), tokens, file, set, new)?;
    let name = String::from_str(alloc, source.name.as_str())?;
    Ok(SourceFile {
        name: Text::from_string(name),
        bytes: Row::from_vec(bytes),
    })
}

/// The files with new sources of the same names that keep the limits on bytes. `Memory` is the only error.
pub fn remake(alloc: Global, files: &Files, sources: Vec<SourceFile>) -> Result<Files, Memory>
    requires named { names_of sources.items ≡ names_of files.now.entries }
    requires small { too_large sources.items ≡ None }
    ensures { IfOk result (λ new. new ≡ record { entries = sources.items; manifest = files.now.manifest }) }
{
    let manifest = copy_manifest(alloc, files)?;
    Ok(Files::from_parts(sources, manifest))
}

/// The bytes of the manifest, if there is one.
fn copy_manifest(alloc: Global, files: &Files) -> Result<Option<Vec<u8>>, Memory>
    ensures same { IfOk result (λ manifest. option_map (λ bytes. bytes.items) manifest ≡ files.now.manifest) }
    ensures project { IsProject files.now }
{
    let _entries = files.entries();
    match files.manifest() {
        None => Ok(None),
        Some(bytes) => Ok(Some(bytes.to_vec(alloc)?)),
    }
}

/// The numbers of the sources that have one of some places, in order. `Memory` is the only error.
pub fn changed_files(
    alloc: Global,
    places: &[Place],
    sources: &[SourceFile],
) -> Result<Vec<u32>, Memory>
    requires { length sources.now ≤ max_sources }
    ensures { IfOk result (λ numbers. numbers.items ≡ hit_files places.now 0 sources.now) }
{
    let files = files_of(alloc, places)?;
    let mut numbers = Vec::new(alloc);
    let mut number: u32 = 0;
    for _source in sources {
        if files.contains(&number) {
            numbers.push(number)?;
        }
        number += 1;
    }
    Ok(numbers)
}
