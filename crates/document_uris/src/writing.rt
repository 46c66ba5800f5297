//! The URI of a file.
ghost use Rattle.std.specs.Prelude.{◌≡◌, string_bytes, IfOk};
ghost use Rattle.document_uris.specs.Written.{path_of, separator, written_uri};

use percent_encoding::{AsciiSet, NON_ALPHANUMERIC, ascii_set, utf8_percent_encode};
use rotor_base::Memory;
use std::alloc::Global;

/// The ASCII characters that a URI's path escapes: all but letters, digits, `-`, `.`, `_`, `~` and `/`.
pub(crate) const ESCAPED: AsciiSet = ascii_set!(
    NON_ALPHANUMERIC
        .remove(b'-')
        .remove(b'.')
        .remove(b'_')
        .remove(b'~')
        .remove(b'/')
);

/// The URI of a file.
///
/// # Errors
///
/// `Memory` alone.
pub fn write_uri(alloc: Global, folder: &str, name: &str) -> Result<String, Memory>
    ensures { IfOk result (λ uri. string_bytes uri ≡ written_uri folder.now name.now) }
{
    let path = file_path(alloc, folder, name)?;
    let mut uri = String::from_str(alloc, "file://")?;
    utf8_percent_encode(path.as_str(), ESCAPED).append_to(&mut uri)?;
    Ok(uri)
}

/// The path of a file.
fn file_path(alloc: Global, folder: &str, name: &str) -> Result<String, Memory>
    ensures { IfOk result (λ path. string_bytes path ≡ path_of folder.now name.now) }
{
    let mut path = String::from_str(alloc, folder)?;
    path.push_str(separator(folder))?;
    path.push_str(name)?;
    Ok(path)
}

/// What is between the path of a folder and a name in it.
fn separator(folder: &str) -> &'static str
    ensures { result.now ≡ separator folder.now }
{
    if folder == "/" { "" } else { "/" }
}
