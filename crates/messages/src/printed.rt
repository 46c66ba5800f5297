//! The text of a message.
ghost use Rattle.std.specs.Prelude.{◌≡◌, ◌++◌, IfOk, OnOk, flat_map, map};
ghost use Rattle.messages.specs.Printed.{bare_line, head_text, help_text, message_text, note_text, placed_line, safe_line, severity_text as severity_text_of, spot_text as spot_text_of};
ghost use Rattle.messages.specs.Excerpt.{excerpt_of};
ghost use Rattle.messages.specs.Kind.{kind_text as kind_text_of};

use crate::excerpt::excerpt;
use crate::kinds::kind_text;
use crate::parts::{Message, Note, Severity, Spot};
use crate::terminal::show_bytes;
use crate::words::join_words;
use report::{number_text, push_line};
use rotor_base::{Memory, Row};
use std::alloc::Global;

/// The place of a stretch, `FILE:LINE:COLUMN`. The one error is want of memory.
pub fn spot_text(alloc: Global, spot: &Spot) -> Result<Row<u8>, Memory>
    ensures { IfOk result (λ text. text ≡ spot_text_of spot.now) }
{
    let line = number_text(alloc, u64::from(spot.line))?;
    let column = number_text(alloc, u64::from(spot.column))?;
    join_words(
        alloc,
        &[
            spot.file.as_slice(),
            b":",
            line.as_slice(),
            b":",
            column.as_slice(),
        ],
    )
}

/// Adds the lines of a message. The one error is want of memory.
pub fn push_message(alloc: Global, text: &mut Vec<u8>, message: &Message) -> Result<(), Memory>
    ensures { OnOk result (text.new.items ≡ text.old.items ++ message_text message.now) }
{
    push_head(alloc, text, message)?;
    push_notes(alloc, text, message.notes.as_slice())?;
    push_help(alloc, text, &message.help)
}

/// Adds the sentence of a message, with its excerpt.
fn push_head(alloc: Global, text: &mut Vec<u8>, message: &Message) -> Result<(), Memory>
    ensures { OnOk result (text.new.items ≡ text.old.items ++ head_text message.now.severity (kind_text_of message.now.kind) message.now.text message.now.at) }
{
    let severity = severity_text(message.severity);
    let kind = kind_text(message.kind);
    let sentence = message.text.as_slice();
    match &message.at {
        None => push_bare(alloc, text, severity, kind, sentence),
        Some(spot) => {
            push_placed(alloc, text, severity, kind, sentence, spot)?;
            push_excerpt(alloc, text, spot)
        }
    }
}

/// Adds the sentence of a message without a place.
fn push_bare<'a>(
    alloc: Global,
    text: &mut Vec<u8>,
    severity: &'a str,
    kind: &'a str,
    sentence: &'a [u8],
) -> Result<(), Memory>
    ensures { OnOk result (text.new.items ≡ text.old.items ++ bare_line severity.entry.now kind.entry.now sentence.entry.now) }
{
    push_safe(
        alloc,
        text,
        &[
            severity.as_bytes(),
            b": ",
            sentence,
            b" [",
            kind.as_bytes(),
            b"]",
        ],
    )
}

/// Adds the sentence of a message at a place.
fn push_placed<'a>(
    alloc: Global,
    text: &mut Vec<u8>,
    severity: &'a str,
    kind: &'a str,
    sentence: &'a [u8],
    spot: &Spot,
) -> Result<(), Memory>
    ensures { OnOk result (text.new.items ≡ text.old.items ++ placed_line severity.entry.now kind.entry.now sentence.entry.now spot.now) }
{
    let place = spot_text(alloc, spot)?;
    push_safe(
        alloc,
        text,
        &[
            place.as_slice(),
            b": ",
            severity.as_bytes(),
            b": ",
            sentence,
            b" [",
            kind.as_bytes(),
            b"]",
        ],
    )
}

/// Adds what is said of other places, with their excerpts.
fn push_notes(alloc: Global, text: &mut Vec<u8>, notes: &[Note]) -> Result<(), Memory>
    ensures { OnOk result (text.new.items ≡ text.old.items ++ flat_map note_text notes.now) }
{
    for note in notes {
        push_note(alloc, text, note)?;
    }
    Ok(())
}

/// Adds what is said of another place, with its excerpt.
fn push_note(alloc: Global, text: &mut Vec<u8>, note: &Note) -> Result<(), Memory>
    ensures { OnOk result (text.new.items ≡ text.old.items ++ note_text note.now) }
{
    let place = spot_text(alloc, &note.at)?;
    push_safe(
        alloc,
        text,
        &[place.as_slice(), b": note: ", note.text.as_slice()],
    )?;
    push_excerpt(alloc, text, &note.at)
}

/// Adds the help, if there is one.
fn push_help(alloc: Global, text: &mut Vec<u8>, help: &Option<Row<u8>>) -> Result<(), Memory>
    ensures { OnOk result (text.new.items ≡ text.old.items ++ help_text help.now) }
{
    match help {
        Some(help) => push_safe(alloc, text, &[b"help: ", help.as_slice()]),
        None => Ok(()),
    }
}

/// Adds the excerpt of a stretch.
fn push_excerpt(alloc: Global, text: &mut Vec<u8>, spot: &Spot) -> Result<(), Memory>
    ensures { OnOk result (text.new.items ≡ text.old.items ++ excerpt_of spot.now) }
{
    let lines = excerpt(alloc, spot)?;
    text.extend_from_slice(lines.as_slice())?;
    Ok(())
}

/// Adds a line as a terminal may get it.
fn push_safe(alloc: Global, text: &mut Vec<u8>, words: &[&[u8]]) -> Result<(), Memory>
    ensures { OnOk result (text.new.items ≡ text.old.items ++ safe_line (map (λ word. word.now) words.now)) }
{
    let line = join_words(alloc, words)?;
    let line = show_bytes(alloc, line.as_slice())?;
    push_line(text, &[line.as_slice()])
}

/// The word of a severity.
pub(crate) fn severity_text(severity: Severity) -> &'static str
    ensures { result.now ≡ severity_text_of severity }
{
    match severity {
        Severity::Error => "error",
        Severity::Warning => "warning",
        Severity::Info => "info",
    }
}
