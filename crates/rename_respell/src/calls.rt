//! The call that respells the sources of a project.

ghost use Rattle.std.specs.Prelude.{◌≡◌, Err, IfErr, IfOk, Ok, List, map as map_list};
ghost use Rattle.value_sites.specs.Each.{Each};
ghost use Rattle.ml_trees.specs.Tree.{UnitTree};
ghost use Rattle.ml_trees.specs.View.{view_project};
ghost use Rattle.ml_lexer.specs.Lexed.{view_tokens};
ghost use Rattle.binding_model.specs.Facts.{facts as facts_of};
ghost use Rattle.binding_model.specs.Renaming.{IsBinder, places};
ghost use Rattle.project_reading.specs.Reads.{Reads};
ghost use Rattle.project_reading.specs.Sources.{AreCut};
ghost use Rattle.rename_project.specs.Steps.{IsRefusedFor};
ghost use Rattle.rename_respell.specs.Respelled.{AreRespelledBytes, Respells, mapped_words};
ghost use Rattle.rename_respell.specs.Tables.{words_in};

use crate::source::respell_source;
use crate::words::{NewWords, goal_table, new_names};
use project_reading::{Read, read_project};
use rename_project::resolve_facts;
use rotor_base::{Facts, Files, Memory, Name, Place, Refusal};
use std::alloc::Global;
use value_places::PlacedProject;

/// The bytes of each source, if the binders of a map take the names that it gives them. A binder that the map gives
/// another name takes it, and so does each reference to it. In a label the word alone changes. All other bytes stay.
/// The caller ensures that each place of the map is a binder. If several entries give it another name, the first one
/// counts.
///
/// # Errors
///
/// The refusals of `read_project`. Else `Heavy` with the first site to end that is too heavy. `Memory`.
pub fn respell(alloc: Global, files: &Files, map: &[(Place, Name)]) -> Result<Vec<Vec<u8>>, Refusal>
    requires binders { (us : List UnitTree) → Reads files.now us → Each (λ e. IsBinder us e.0) map.now }
    ensures respelled { IfOk result (λ sources. Respells files.now map.now (Ok (map_list (λ bytes. bytes.items) sources.items))) }
    ensures refused { IfErr result (IsRefusedFor (λ why. Respells files.now map.now (Err why))) }
{
    let read = read_project(alloc, files)?;
    let resolved = resolve_facts(alloc, &read.project)?;
    let placed = PlacedProject::new(alloc, &read.project)?;
    Ok(respell_read(alloc, files, &read, &placed, &resolved.facts, map)?)
}

/// What [`respell`] returns, of files that are read and resolved, and whose places are listed. `Memory` is the only
/// error.
pub fn respell_read(
    alloc: Global,
    files: &Files,
    read: &Read,
    placed: &PlacedProject<'_>,
    facts: &Facts,
    map: &[(Place, Name)],
) -> Result<Vec<Vec<u8>>, Memory>
    requires placed { placed.now ≡ places (view_project read.now.project) }
    requires cut { AreCut files.now.entries (map_list (λ list. view_tokens list.items) read.now.tokens.items) }
    requires facts { facts.now ≡ facts_of (view_project read.now.project) }
    ensures { IfOk result (λ sources. AreRespelledBytes (mapped_words (view_project read.now.project) map.now) 0 files.now.entries (map_list (λ bytes. bytes.items) sources.items)) }
{
    let words = NewWords {
        names: new_names(alloc, placed, map)?,
        goals: goal_table(alloc, facts.refs.as_slice())?,
    };
    respell_all(alloc, files, read, &words)
}

/// The bytes of each source with new words.
fn respell_all(
    alloc: Global,
    files: &Files,
    read: &Read,
    words: &NewWords,
) -> Result<Vec<Vec<u8>>, Memory>
    requires { AreCut files.now.entries (map_list (λ list. view_tokens list.items) read.now.tokens.items) }
    ensures { IfOk result (λ sources. AreRespelledBytes (words_in words.now.names words.now.goals) 0 files.now.entries (map_list (λ bytes. bytes.items) sources.items)) }
{
    let entries = files.entries();
    let lists = read.tokens.as_slice();
    let mut sources = Vec::new(alloc);
    for at in 0..entries.len() {
        let source = entries[at].bytes.as_slice();
        let tokens = lists[at].as_slice();
        sources.push(respell_source(alloc, source, tokens, at as u32, words)?)?;
    }
    Ok(sources)
}
