//! The edits of documents.
ghost use Rattle.std.specs.Prelude.{◌≡◌, IfOk, map};
ghost use Rattle.std.specs.Option.{is_some};
ghost use Rattle.document_scene.specs.Changes.{document_of, document_words, documents_of};
ghost use Rattle.document_scene.specs.Scene.{document_at as document_at_of, view_scene};

use crate::scene::Scene;
use crate::uri::{document_at, uri_at, version_at};
use lsp_answers::DocumentEdits;
use renaming_edits::FileEdits;
use rotor_base::Memory;
use std::alloc::Global;

/// The edits of documents, of those of sources in order: first the document of the request, then the other ones that
/// the editor holds, then the rest. A document that the editor holds has its version. The one error is want of memory.
pub fn document_edits(
    alloc: Global,
    scene: Scene<'_>,
    asked: u32,
    list: Vec<FileEdits>,
) -> Result<Vec<DocumentEdits>, Memory>
    ensures { IfOk result (λ documents. map document_words documents.items ≡ documents_of (view_scene scene.entry) asked list.items) }
{
    let mut first = Vec::new(alloc);
    let mut others = Vec::new(alloc);
    let mut rest = Vec::new(alloc);
    for source in list {
        let file = source.file;
        let edits = edits_of(alloc, scene, source)?;
        if file == asked {
            first.push(edits)?;
        } else if is_held(scene, file) {
            others.push(edits)?;
        } else {
            rest.push(edits)?;
        }
    }
    first.append(&mut others)?;
    first.append(&mut rest)?;
    Ok(first)
}

/// Whether the editor holds the source of a number.
fn is_held(scene: Scene<'_>, file: u32) -> bool
    ensures { result ≡ is_some (document_at_of (view_scene scene.entry) file) }
{
    document_at(scene, file).is_some()
}

/// The edits of a source, as those of its document.
fn edits_of(alloc: Global, scene: Scene<'_>, source: FileEdits) -> Result<DocumentEdits, Memory>
    ensures { IfOk result (λ edits. document_words edits ≡ document_of (view_scene scene.entry) source) }
{
    Ok(DocumentEdits {
        uri: uri_at(alloc, scene, source.file)?,
        version: version_at(scene, source.file),
        edits: source.edits,
    })
}
