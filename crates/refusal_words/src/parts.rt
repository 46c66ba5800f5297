//! What messages are made of.
ghost use Rattle.std.specs.Prelude.{◌≡◌, ◌∷◌, [], None, Some, IfOk, map};
ghost use Rattle.refusal_words.specs.Cut.{view_cut};
ghost use Rattle.refusal_words.specs.Parts.{around as around_of, bare as bare_of, note_at as note_for, placed as placed_of};
ghost use Rattle.refusal_words.specs.Stretches.{place_spot as place_spot_of};

use crate::cut::CutSource;
use crate::stretches::place_spot;
use messages::{Kind, Message, Note, Severity, Spot, join_words};
use rotor_base::{Memory, Place, Row};
use std::alloc::Global;

/// An error at a stretch of a source.
pub(crate) fn make_error_at(
    kind: Kind,
    text: Row<u8>,
    at: Spot,
    notes: Row<Note>,
    help: Option<Row<u8>>,
) -> Message
    ensures { result ≡ placed_of kind text at notes help }
{
    Message {
        severity: Severity::Error,
        kind,
        text,
        at: Some(at),
        notes,
        help,
    }
}

/// An error without a place.
pub fn make_error(alloc: Global, kind: Kind, text: Row<u8>, help: Option<Row<u8>>) -> Message
    ensures { result ≡ bare_of kind text help }
{
    Message {
        severity: Severity::Error,
        kind,
        text,
        at: None,
        notes: Row::new(alloc),
        help,
    }
}

/// A text of a message.
pub(crate) fn text(alloc: Global, words: &str) -> Result<Row<u8>, Memory>
    ensures { IfOk result (λ text. text ≡ words.now) }
{
    Ok(Row::from_vec(words.as_bytes().to_vec(alloc)?))
}

/// A help of a message.
pub(crate) fn help(alloc: Global, words: &str) -> Result<Option<Row<u8>>, Memory>
    ensures { IfOk result (λ help. help ≡ Some words.now) }
{
    Ok(Some(text(alloc, words)?))
}

/// What is said of one other place.
pub(crate) fn note_at(
    alloc: Global,
    cuts: &[CutSource<'_>],
    place: Place,
    words: &str,
) -> Result<Note, Memory>
    ensures { IfOk result (λ note. note ≡ note_for (map view_cut cuts.now) place words.now) }
{
    let text = text(alloc, words)?;
    let at = place_spot(alloc, cuts, place)?;
    Ok(Note { at, text })
}

/// What is said of one other place, alone.
pub(crate) fn one_note(
    alloc: Global,
    cuts: &[CutSource<'_>],
    place: Place,
    words: &str,
) -> Result<Row<Note>, Memory>
    ensures { IfOk result (λ notes. notes ≡ note_for (map view_cut cuts.now) place words.now ∷ []) }
{
    let mut notes = Row::new(alloc);
    notes.push(note_at(alloc, cuts, place, words)?)?;
    Ok(notes)
}

/// A word with a text before it and one behind it.
pub(crate) fn wrap_word<'a>(
    alloc: Global,
    before: &'a str,
    word: &'a [u8],
    behind: &'a str,
) -> Result<Row<u8>, Memory>
    ensures { IfOk result (λ text. text ≡ around_of before.entry.now word.entry.now behind.entry.now) }
{
    join_words(alloc, &[before.as_bytes(), word, behind.as_bytes()])
}

/// A message of a sentence at a place alone.
pub(crate) fn explain_place(
    alloc: Global,
    cuts: &[CutSource<'_>],
    kind: Kind,
    sentence: &str,
    at: Place,
) -> Result<Message, Memory>
    ensures { IfOk result (λ message. message ≡ placed_of kind sentence.now (place_spot_of (map view_cut cuts.now) at) [] None) }
{
    let text = text(alloc, sentence)?;
    let at = place_spot(alloc, cuts, at)?;
    Ok(make_error_at(kind, text, at, Row::new(alloc), None))
}

/// A message of a sentence and a help at a place.
pub(crate) fn explain_with_help(
    alloc: Global,
    cuts: &[CutSource<'_>],
    kind: Kind,
    sentence: Row<u8>,
    at: Place,
    advice: &str,
) -> Result<Message, Memory>
    ensures { IfOk result (λ message. message ≡ placed_of kind sentence (place_spot_of (map view_cut cuts.now) at) [] (Some advice.now)) }
{
    let at = place_spot(alloc, cuts, at)?;
    let help = help(alloc, advice)?;
    Ok(make_error_at(kind, sentence, at, Row::new(alloc), help))
}
