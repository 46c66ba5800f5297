//! What is said of a renaming.
ghost use Rattle.std.specs.Prelude.{◌≡◌, ◌++◌, Bool, Err, IfOk, map};
ghost use Rattle.ml_lexer.specs.Lexed.{view_tokens};
ghost use Rattle.ml_trees.specs.View.{view_project};
ghost use Rattle.project_reading.specs.Reads.{Reads};
ghost use Rattle.project_reading.specs.Sources.{AreCut};
ghost use Rattle.refusal_words.specs.Cut.{view_cut};
ghost use Rattle.rename_files.specs.Answer.{Renames};
ghost use Rattle.rename_project.specs.Steps.{IsRefusedFor};
ghost use Rattle.explain.specs.Around.{AreFacts};
ghost use Rattle.explain.specs.Says.{SaysDone, SaysRename, declaration_lines, renamed_line as renamed_line_of};

use crate::diffs::diffs_text;
use crate::ending::Ending;
use crate::explanation::Explanation;
use crate::lines::push_declarations;
use crate::opened::{Opened, open_folder};
use crate::refused::{explain_refusal, is_memory};
use crate::shown::tool_places;
use difference_words::counted_differences;
use messages::{format_count, join_words};
use refusal_words::{CutSource, cut_sources};
use rename_files::rename_in;
use rotor_base::{Files, Memory, Refusal, Renamed, Row, Target};
use std::alloc::Global;

/// What is said of a renaming of the declaration that a target names: the declarations and the diffs of the sources; or
/// the first refusal. If the answer is for tools, it has the declarations and the uses too. The one error is want of
/// memory.
pub fn explain_rename(
    alloc: Global,
    files: &Files,
    target: &Target,
    name: &[u8],
    for_tools: bool,
) -> Result<Explanation, Memory>
    ensures { IfOk result (SaysRename files.now target.now name.now for_tools) }
{
    let opened = match open_folder(alloc, files) {
        Ok(opened) => opened,
        Err(refusal) => return refused_renaming(alloc, files, target, name, &refusal),
    };
    match rename_in(alloc, files, &opened.read, &opened.resolved, target, name) {
        Ok(done) => explain_done_renaming(alloc, files, &opened, &done, for_tools),
        Err(refusal) => refused_renaming(alloc, files, target, name, &refusal),
    }
}

/// What is said of a renaming that is refused.
fn refused_renaming(
    alloc: Global,
    files: &Files,
    target: &Target,
    name: &[u8],
    refusal: &Refusal,
) -> Result<Explanation, Memory>
    requires { IsRefusedFor (λ why. Renames files.now target.now name.now (Err why)) refusal.now }
    ensures { IfOk result (λ explanation. (for_tools : Bool) → SaysRename files.now target.now name.now for_tools explanation) }
{
    if is_memory(refusal) {
        return Err(Memory);
    }
    explain_refusal(alloc, files, target, name, refusal)
}

/// What is said of a renaming that is accepted, over the facts of the folder.
fn explain_done_renaming(
    alloc: Global,
    files: &Files,
    opened: &Opened<'_>,
    done: &Renamed,
    for_tools: bool,
) -> Result<Explanation, Memory>
    requires reads { Reads files.now (view_project opened.now.read.project) }
    requires cut { AreCut files.now.entries (map (λ list. view_tokens list.items) opened.now.read.tokens.items) }
    requires facts { AreFacts files.now opened.now.resolved.facts }
    ensures { IfOk result (SaysDone files.now done.now for_tools) }
{
    let cuts = cut_sources(alloc, files.entries())?;
    let changed = done.changed.as_slice();
    let diffs = diffs_text(alloc, files.entries(), done.files.entries(), changed)?;
    let count = counted_differences(alloc, files, &opened.read)?;
    let facts = &opened.resolved.facts;
    Ok(Explanation {
        ending: Ending::Done,
        messages: Row::new(alloc),
        text: done_text(alloc, &cuts, done, count.as_slice(), &diffs)?,
        places: tool_places(alloc, &cuts, facts, &done.foot, for_tools)?,
    })
}

/// The text of a renaming that is accepted: its line, its declarations, the line that counts warnings, and the diffs.
fn done_text(
    alloc: Global,
    cuts: &[CutSource<'_>],
    done: &Renamed,
    count: &[u8],
    diffs: &[u8],
) -> Result<Row<u8>, Memory>
    ensures { IfOk result (λ text. text ≡ renamed_line_of done.now ++ declaration_lines (map view_cut cuts.now) done.now ++ count.now ++ diffs.now) }
{
    let line = renamed_line(alloc, done)?;
    let mut text = line.as_slice().to_vec(alloc)?;
    push_declarations(alloc, &mut text, cuts, done.foot.decls.as_slice())?;
    text.extend_from_slice(count)?;
    text.extend_from_slice(diffs)?;
    Ok(Row::from_vec(text))
}

/// The first line of a renaming that is accepted.
fn renamed_line(alloc: Global, done: &Renamed) -> Result<Row<u8>, Memory>
    ensures { IfOk result (λ line. line ≡ renamed_line_of done.now) }
{
    let declarations = done.foot.decls.as_slice().len() as u64;
    let declarations = format_count(alloc, declarations, "declaration")?;
    let uses = format_count(alloc, done.refs, "use")?;
    let files = format_count(alloc, done.changed.as_slice().len() as u64, "file")?;
    join_words(
        alloc,
        &[
            b"`",
            done.old.as_bytes(),
            b"` becomes `",
            done.new.as_bytes(),
            b"`: ",
            declarations.as_slice(),
            b", ",
            uses.as_slice(),
            b", ",
            files.as_slice(),
            b"\n",
        ],
    )
}
