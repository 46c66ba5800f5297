//! The file that a URI names.
ghost use Rattle.std.specs.Prelude.{◌≡◌, ◌==◌, ◌<◌, ℕ, List, length, string_bytes, IfNone, IfOk, IfSome};
ghost use Rattle.std.specs.List.{list_any, position};
ghost use Rattle.std.specs.Option.{option_copied};
ghost use Rattle.document_uris.specs.Uris.{IsFile, behind_authority, behind_host, behind_scheme, behind_slash, ends_path, is_local, written_path};

use crate::place::{FilePlace, place_of};
use percent_encoding::percent_decode;
use rotor_base::Memory;
use std::alloc::Global;

/// The scheme of a file's URI.
const SCHEME: &[u8] = b"file:";

/// The one host, beside none, whose files are here.
const LOCAL_HOST: &[u8] = b"localhost";

/// The file that a URI names; `None` if it names none: it has another scheme, another host, a query or a fragment, its
/// path does not begin with a slash or ends with one, or the decoded path has a NUL character or is no UTF-8.
///
/// # Errors
///
/// `Memory` alone.
pub fn read_uri(alloc: Global, uri: &str) -> Result<Option<FilePlace>, Memory>
    ensures file { IfOk result (λ found. IfSome found (λ place. IsFile uri.now (string_bytes place.folder) (string_bytes place.name))) }
    ensures none { IfOk result (λ found. IfNone found ((folder name : List ℕ) → ¬ (IsFile uri.now folder name))) }
{
    let Some(written) = written_path(uri.as_bytes()) else {
        return Ok(None);
    };
    let mut bytes = Vec::new(alloc);
    percent_decode(written).append_to(&mut bytes)?;
    match String::from_utf8(bytes) {
        Ok(path) => place_of(alloc, path.as_str()),
        Err(_) => Ok(None),
    }
}

/// The path of a file's URI, as it is written, behind its first slash.
fn written_path(uri: &[u8]) -> Option<&[u8]>
    ensures { option_copied result ≡ written_path uri.now }
{
    if has_end(uri) {
        return None;
    }
    skip_authority(skip_scheme(uri)?)
}

/// Whether a URI has a query or a fragment.
fn has_end(uri: &[u8]) -> bool
    ensures { result ≡ list_any ends_path uri.now }
{
    uri.iter().any(|byte| *byte == b'?' || *byte == b'#')
}

/// What is behind the scheme `file:`, in any case.
fn skip_scheme(uri: &[u8]) -> Option<&[u8]>
    ensures { option_copied result ≡ behind_scheme uri.now }
{
    let (scheme, rest) = uri.split_at_checked(SCHEME.len())?;
    if scheme.eq_ignore_ascii_case(SCHEME) {
        Some(rest)
    } else {
        None
    }
}

/// What is behind the first slash of a path that a host may be before.
fn skip_authority(text: &[u8]) -> Option<&[u8]>
    ensures { option_copied result ≡ behind_authority text.now }
{
    match text {
        [b'/', b'/', rest @ ..] => skip_host(rest),
        _ => skip_slash(text),
    }
}

/// What is behind a host and its slash, if the host is this machine.
fn skip_host(text: &[u8]) -> Option<&[u8]>
    ensures { option_copied result ≡ behind_host text.now }
{
    let slash = first_slash(text)?;
    if is_local(&text[..slash]) {
        Some(&text[slash + 1..])
    } else {
        None
    }
}

/// The position of the first slash.
fn first_slash(text: &[u8]) -> Option<usize>
    ensures at { result ≡ position (λ b. b == 47) text.now }
    ensures within { IfSome result (λ at. at < length text.now) }
{
    text.iter().position(|byte| *byte == b'/')
}

/// Whether a host is this machine: it is empty, or `localhost` in any case.
fn is_local(host: &[u8]) -> bool
    ensures { result ≡ is_local host.now }
{
    host.is_empty() || host.eq_ignore_ascii_case(LOCAL_HOST)
}

/// What is behind the first byte, if that is a slash.
fn skip_slash(text: &[u8]) -> Option<&[u8]>
    ensures { option_copied result ≡ behind_slash text.now }
{
    match text {
        [b'/', rest @ ..] => Some(rest),
        _ => None,
    }
}
