//! The documents of sources.
ghost use Rattle.std.specs.Prelude.{◌≡◌, IfOk, string_bytes};
ghost use Rattle.std.specs.Option.{option_copied};
ghost use Rattle.document_scene.specs.Scene.{document_at as document_at_of, name_at as name_at_of, uri_at as uri_at_of, version_at as version_at_of, view_scene};

use crate::scene::Scene;
use document_uris::write_uri;
use open_documents::Document;
use rotor_base::{Memory, SourceFile};
use std::alloc::Global;

/// The document that the editor holds for the source of a number, if it holds one.
pub(crate) fn document_at<'a>(scene: Scene<'a>, file: u32) -> Option<&'a Document>
    ensures { option_copied result ≡ document_at_of (view_scene scene.entry) file }
{
    scene.held.get(name_at(scene.sources, file))
}

/// The name of the source of a number; if there is none, no bytes.
fn name_at(sources: &[SourceFile], file: u32) -> &str
    ensures { result.now ≡ name_at_of sources.now file }
{
    match sources.get(file as usize) {
        Some(source) => source.name.as_str(),
        None => "",
    }
}

/// The URI of the document of the source of a number: of one that the editor holds its own, of another the one that is
/// written for the file. The one error is want of memory.
pub(crate) fn uri_at(alloc: Global, scene: Scene<'_>, file: u32) -> Result<String, Memory>
    ensures { IfOk result (λ uri. string_bytes uri ≡ uri_at_of (view_scene scene.entry) file) }
{
    match document_at(scene, file) {
        Some(document) => Ok(String::from_str(alloc, document.uri.as_str())?),
        None => write_uri(alloc, scene.folder, name_at(scene.sources, file)),
    }
}

/// The version of the document of the source of a number, if the editor holds it and said one.
pub(crate) fn version_at(scene: Scene<'_>, file: u32) -> Option<i64>
    ensures { result ≡ version_at_of (view_scene scene.entry) file }
{
    match document_at(scene, file) {
        Some(document) => document.version,
        None => None,
    }
}
