//! Whether files have distinct names, which the folders in memory require.
ghost use Rattle.std.specs.Prelude.{◌≡◌, ◌↔◌, map, IsTrue};
ghost use Rattle.std.specs.List.{list_any};
ghost use Rattle.std.specs.Str.{bytes_eq};
ghost use Rattle.tree_io.specs.Store.{HasDistinctNames};

use rotor_base::{SourceFile, Text};

/// Whether no two of these files have the same name. It takes no memory.
pub fn have_distinct_names(files: &[SourceFile]) -> bool
    ensures { IsTrue result ↔ HasDistinctNames files.now }
{
    for (at, file) in files.iter().enumerate() {
        if has_name(&files[at + 1..], &file.name) {
            return false;
        }
    }
    true
}

/// Whether one of these files has this name.
fn has_name(files: &[SourceFile], name: &Text) -> bool
    ensures { result ≡ list_any (λ file. bytes_eq name.now file.name) files.now }
{
    files.iter().any(|file| name.as_str() == file.name.as_str())
}
