//! Whether two folders have the same files.
ghost use Rattle.std.specs.Prelude.{◌≡◌, ◌↔◌, true};
ghost use Rattle.std.specs.Option.{option_copied};

use rotor_base::{Files, SourceFile};

/// Whether these are the same files.
pub(crate) fn are_same(one: &Files, other: &Files) -> bool
    ensures { result ≡ true ↔ one.now ≡ other.now }
{
    are_same_sources(one.entries(), other.entries())
        && are_same_manifests(one.manifest(), other.manifest())
}

/// Whether these are the same sources.
fn are_same_sources(some: &[SourceFile], others: &[SourceFile]) -> bool
    ensures { result ≡ true ↔ some.now ≡ others.now }
{
    some.len() == others.len()
        && some
            .iter()
            .zip(others)
            .all(|(one, other)| is_same_source(one, other))
}

/// Whether this is the same source.
fn is_same_source(one: &SourceFile, other: &SourceFile) -> bool
    ensures { result ≡ true ↔ one.now ≡ other.now }
{
    one.name.as_str() == other.name.as_str() && one.bytes.as_slice() == other.bytes.as_slice()
}

/// Whether these are the bytes of the same manifest, or none.
fn are_same_manifests(one: Option<&[u8]>, other: Option<&[u8]>) -> bool
    ensures { result ≡ true ↔ option_copied one.entry ≡ option_copied other.entry }
{
    match (one, other) {
        (None, None) => true,
        (Some(one), Some(other)) => one == other,
        (None, Some(_)) => false,
        (Some(_), None) => false,
    }
}
