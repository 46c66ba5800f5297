//! The files of a project.
ghost use Rattle.std.specs.Prelude.{◌≡◌, ◌≤◌, None, IfOk, IfErr, OnOk, All, length, sum_by};
ghost use Rattle.std.specs.Option.{option_copied, option_map};
ghost use Rattle.rotor_base.specs.Limits.{max_file_bytes, max_sources, max_total_bytes};
ghost use Rattle.rotor_base.specs.Files.{AreSources, IsProject, IsRefusedBy, load_refusal};

use crate::load_checks::{
    check_count, check_manifest, check_manifest_size, check_sizes, check_units,
};
use crate::unit::source_units;
use crate::{LoadError, SourceFile};
use std::alloc::Global;
use std::marker::Model;

/// The sources of a folder, and its manifest if it has one. Their names are those of sources, in strict byte
/// order, all limits on files hold, no two sources of one kind give one unit, and the manifest lists the units.
/// Contracts see the list of the sources and the manifest's bytes.
#[derive(Debug, Drop)]
pub struct Files {
    entries: Vec<SourceFile>,
    manifest: Option<Vec<u8>>,
}

impl Model for Files {
    ghost use Rattle.std.specs.Option.{option_map};
    ghost use Rattle.rotor_base.specs.Files.{FileSet, IsProject};

    ghost Value = { FileSet };

    ghost view = { λ f. record { entries = f.entries.items; manifest = option_map (λ bytes. bytes.items) f.manifest } };

    ghost invariant = { λ f. IsProject (record { entries = f.entries.items; manifest = option_map (λ bytes. bytes.items) f.manifest }) };
}

impl Files {
    /// The files of a project, made of its sources and the bytes of its manifest. It takes no memory.
    pub fn from_parts(entries: Vec<SourceFile>, manifest: Option<Vec<u8>>) -> Self
        requires { IsProject (record { entries = entries.items; manifest = option_map (λ bytes. bytes.items) manifest }) }
        ensures { result ≡ record { entries = entries.items; manifest = option_map (λ bytes. bytes.items) manifest } }
    {
        Files { entries, manifest }
    }

    /// The sources and the bytes of the manifest. It takes no memory.
    pub fn into_parts(self) -> (Vec<SourceFile>, Option<Vec<u8>>)
        ensures entries { result.0.items ≡ self.entries }
        ensures manifest { option_map (λ bytes. bytes.items) result.1 ≡ self.manifest }
        ensures project { IsProject self }
    {
        (self.entries, self.manifest)
    }

    /// The sources, in byte order of their names. It takes no memory.
    pub fn entries(&self) -> &[SourceFile]
        ensures entries { result.now ≡ self.now.entries }
        ensures project { IsProject self.now }
        ensures few { length result.now ≤ max_sources }
        ensures small { All (λ file. length file.bytes ≤ max_file_bytes) result.now }
        ensures total { sum_by (λ file. length file.bytes) result.now ≤ max_total_bytes }
    {
        &self.entries
    }

    /// The bytes of the manifest; if the folder has none, `None`. It takes no memory.
    pub fn manifest(&self) -> Option<&[u8]>
        ensures { option_copied result ≡ self.now.manifest }
    {
        match &self.manifest {
            None => None,
            Some(bytes) => Some(bytes),
        }
    }
}

/// The files of a project, made of sources in strict byte order of their names and of the manifest's bytes.
///
/// # Errors
///
/// The first of these that holds: `TooMany` with the number of the sources; `TooLarge` with the first source that is
/// too large, or with which all so far are; `TooLarge` with `rotor.units`; `DoubleUnit` with the least unit that two
/// sources of one kind give; `BadManifest` with the first line, counted from 1, that names no unit or one of an earlier
/// line, or else, if a unit has no line, with one more than the number of lines. And `Memory`.
pub fn make_files(
    alloc: Global,
    entries: Vec<SourceFile>,
    manifest: Option<Vec<u8>>,
) -> Result<Files, LoadError>
    requires { AreSources entries.items }
    ensures files { IfOk result (λ files. files ≡ record { entries = entries.items; manifest = option_map (λ bytes. bytes.items) manifest }) }
    ensures taken { OnOk result (load_refusal entries.items (option_map (λ bytes. bytes.items) manifest) ≡ None) }
    ensures refused { IfErr result (IsRefusedBy (load_refusal entries.items (option_map (λ bytes. bytes.items) manifest))) }
{
    check_count(&entries)?;
    check_sizes(alloc, &entries)?;
    check_manifest_size(alloc, &manifest)?;
    let units = source_units(alloc, &entries)?;
    check_units(alloc, &units)?;
    check_manifest(units, &manifest)?;
    Ok(Files { entries, manifest })
}
