//! What is said of a footprint.
ghost use Rattle.std.specs.Prelude.{◌≡◌, ◌++◌, Err, IfOk, Ok, OnOk, map};
ghost use Rattle.ml_lexer.specs.Lexed.{view_tokens};
ghost use Rattle.ml_trees.specs.View.{view_project};
ghost use Rattle.project_reading.specs.Reads.{Reads};
ghost use Rattle.project_reading.specs.Sources.{AreCut};
ghost use Rattle.refusal_words.specs.Cut.{view_cut};
ghost use Rattle.rename_files.specs.Answer.{Shows};
ghost use Rattle.rename_project.specs.Steps.{IsRefusedFor};
ghost use Rattle.explain.specs.Around.{AreFacts};
ghost use Rattle.explain.specs.Says.{AreToolPlaces, SaysFootprint, SaysShown};
ghost use Rattle.explain.specs.Shown.{outside_line, place_lines, place_messages as place_messages_of, shown_line as shown_line_of};

use crate::ending::Ending;
use crate::explanation::Explanation;
use crate::lines::{place_message, place_word, push_place};
use crate::opened::{Opened, open_folder};
use crate::refused::{explain_refusal, is_memory};
use difference_words::counted_differences;
use messages::{Message, format_count, join_words, spot_text};
use refusal_words::{CutSource, cut_sources, place_spot};
use rename_files::foot_in;
use rotor_base::{Facts, Files, Foot, FootReport, Memory, Place, Refusal, Row, Target};
use std::alloc::Global;
use value_at::{ValuePlace, places_of};

/// What is said of the footprint of the declaration that a target names: the declarations and the uses, in order; or
/// the first refusal. The one error is want of memory.
pub fn explain_footprint(
    alloc: Global,
    files: &Files,
    target: &Target,
) -> Result<Explanation, Memory>
    ensures { IfOk result (SaysFootprint files.now target.now) }
{
    let opened = match open_folder(alloc, files) {
        Ok(opened) => opened,
        Err(refusal) => return refused_footprint(alloc, files, target, &refusal),
    };
    match foot_in(alloc, files, &opened.read, &opened.resolved, target) {
        Ok(shown) => shown_footprint(alloc, files, &opened, target, &shown),
        Err(refusal) => refused_footprint(alloc, files, target, &refusal),
    }
}

/// What is said of a footprint that is refused.
fn refused_footprint(
    alloc: Global,
    files: &Files,
    target: &Target,
    refusal: &Refusal,
) -> Result<Explanation, Memory>
    requires { IsRefusedFor (λ why. Shows files.now target.now (Err why)) refusal.now }
    ensures { IfOk result (SaysFootprint files.now target.now) }
{
    if is_memory(refusal) {
        return Err(Memory);
    }
    explain_refusal(alloc, files, target, b"", refusal)
}

/// What is said of a footprint that is shown.
#[tactic(auto, using(crate::proofs::Answering::footprint_shown))]
fn shown_footprint(
    alloc: Global,
    files: &Files,
    opened: &Opened<'_>,
    target: &Target,
    shown: &FootReport,
) -> Result<Explanation, Memory>
    requires reads { Reads files.now (view_project opened.now.read.project) }
    requires cut { AreCut files.now.entries (map (λ list. view_tokens list.items) opened.now.read.tokens.items) }
    requires known { AreFacts files.now opened.now.resolved.facts }
    requires shown { Shows files.now target.now (Ok shown.now) }
    ensures { IfOk result (SaysFootprint files.now target.now) }
{
    explain_shown_footprint(alloc, files, opened, shown)
}

/// What is said of a footprint that is shown, over the facts of the folder.
fn explain_shown_footprint(
    alloc: Global,
    files: &Files,
    opened: &Opened<'_>,
    shown: &FootReport,
) -> Result<Explanation, Memory>
    requires reads { Reads files.now (view_project opened.now.read.project) }
    requires cut { AreCut files.now.entries (map (λ list. view_tokens list.items) opened.now.read.tokens.items) }
    requires facts { AreFacts files.now opened.now.resolved.facts }
    ensures { IfOk result (SaysShown files.now shown.now) }
{
    let cuts = cut_sources(alloc, files.entries())?;
    let places = places_of(alloc, &opened.resolved.facts, &shown.foot)?;
    let count = counted_differences(alloc, files, &opened.read)?;
    let mut text = shown_line(alloc, shown)?.into_vec();
    push_places(alloc, &mut text, &cuts, &places)?;
    push_outside(alloc, &mut text, &cuts, shown.foot.outside)?;
    text.extend_from_slice(count.as_slice())?;
    Ok(Explanation {
        ending: Ending::Done,
        messages: Row::new(alloc),
        text: Row::from_vec(text),
        places: place_messages(alloc, &cuts, &places)?,
    })
}

/// The first line of a footprint.
fn shown_line(alloc: Global, shown: &FootReport) -> Result<Row<u8>, Memory>
    ensures { IfOk result (λ line. line ≡ shown_line_of shown.now) }
{
    let declarations = shown.foot.decls.as_slice().len() as u64;
    let declarations = format_count(alloc, declarations, "declaration")?;
    let uses = format_count(alloc, shown.refs, "use")?;
    join_words(
        alloc,
        &[
            b"`",
            shown.old.as_bytes(),
            b"`: ",
            declarations.as_slice(),
            b", ",
            uses.as_slice(),
            b"\n",
        ],
    )
}

/// Adds a line for each place.
fn push_places(
    alloc: Global,
    text: &mut Vec<u8>,
    cuts: &[CutSource<'_>],
    places: &[ValuePlace],
) -> Result<(), Memory>
    ensures { OnOk result (text.new.items ≡ text.old.items ++ place_lines (map view_cut cuts.now) places.now) }
{
    for place in places {
        push_place(
            alloc,
            text,
            cuts,
            place_word(place.is_declaration),
            place.at,
        )?;
    }
    Ok(())
}

/// Adds what is said of the declaration that is fixed from outside, if there is one.
fn push_outside(
    alloc: Global,
    text: &mut Vec<u8>,
    cuts: &[CutSource<'_>],
    outside: Option<Place>,
) -> Result<(), Memory>
    ensures { OnOk result (text.new.items ≡ text.old.items ++ outside_line (map view_cut cuts.now) outside) }
{
    let Some(place) = outside else {
        return Ok(());
    };
    let spot = place_spot(alloc, cuts, place)?;
    let at = spot_text(alloc, &spot)?;
    let line = join_words(
        alloc,
        &[
            at.as_slice(),
            b": note: fixed from outside the folder, so none of these can be renamed\n",
        ],
    )?;
    text.extend_from_slice(line.as_slice())?;
    Ok(())
}

/// The messages of places.
fn place_messages(
    alloc: Global,
    cuts: &[CutSource<'_>],
    places: &[ValuePlace],
) -> Result<Row<Message>, Memory>
    ensures { IfOk result (λ messages. messages ≡ place_messages_of (map view_cut cuts.now) places.now) }
{
    let mut messages = Vec::new(alloc);
    for place in places {
        let word = place_word(place.is_declaration);
        messages.push(place_message(alloc, cuts, word, place.at)?)?;
    }
    Ok(Row::from_vec(messages))
}

/// The messages of the places of a footprint for tools, over the facts of the folder; if they are not asked for, none.
#[tactic(auto, using(crate::proofs::Answering::tools_asked, crate::proofs::Answering::tools_not_asked))]
pub(crate) fn tool_places(
    alloc: Global,
    cuts: &[CutSource<'_>],
    facts: &Facts,
    foot: &Foot,
    for_tools: bool,
) -> Result<Row<Message>, Memory>
    ensures { IfOk result (AreToolPlaces facts.now (map view_cut cuts.now) foot.now for_tools) }
{
    if !for_tools {
        return Ok(Row::new(alloc));
    }
    let places = places_of(alloc, facts, foot)?;
    place_messages(alloc, cuts, &places)
}
