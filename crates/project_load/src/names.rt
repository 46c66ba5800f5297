//! The names of a folder's sources.
ghost use Rattle.std.specs.Prelude.{◌≡◌, ◌&&◌, ◌||◌, true, Bool, List, ℕ, codes, map, string_bytes};
ghost use Rattle.std.specs.List.{list_all, list_any};
ghost use Rattle.std.specs.List.Sorted.{IsStrictlySortedBy};
ghost use Rattle.std.specs.Ordering.{nat_cmp};
ghost use Rattle.std.specs.Cmp.Lexicographic.{slice_cmp};
ghost use Rattle.std.specs.Str.{bytes_eq};
ghost use Rattle.rotor_base.specs.Stem.{is_source_name};
ghost use Rattle.project_load.specs.Listed.{is_listed_name};

use rotor_base::is_source;

/// The name of the manifest.
pub(crate) const MANIFEST: &str = "rotor.units";

/// Whether a file of this name is a source or the manifest. No other file of a folder is part of its project.
pub fn is_project_file(name: &str) -> bool
    ensures { result ≡ is_listed_name name.now }
{
    is_source(name.as_bytes()) || name == MANIFEST
}

/// The names of sources among those of a listing, each once, in byte order. It takes no memory.
pub fn source_names(listed: Vec<String>) -> Vec<String>
    ensures sources { list_all is_source_name (map string_bytes result.items) ≡ true }
    ensures ordered { IsStrictlySortedBy (slice_cmp nat_cmp) (map string_bytes result.items) }
    ensures same { (test : List ℕ → Bool) → list_any test (map string_bytes result.items) ≡ list_any (λ name. is_source_name name && test name) (map string_bytes listed.items) }
{
    let mut names = listed;
    names.retain(|name| is_source(name.as_bytes()));
    names.sort_unstable();
    names.dedup();
    names
}

/// Whether the manifest is listed.
pub(crate) fn has_manifest(listed: &[String]) -> bool
    ensures { result ≡ list_any (λ name. bytes_eq (codes "rotor.units") (string_bytes name)) listed.now }
{
    listed.iter().any(|name| names_manifest(name.as_str()))
}

/// Whether a name is that of the manifest.
fn names_manifest(name: &str) -> bool
    ensures { result ≡ bytes_eq (codes "rotor.units") name.now }
{
    MANIFEST == name
}
