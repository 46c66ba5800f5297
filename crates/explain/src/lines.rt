//! Places as lines and as messages.
ghost use Rattle.std.specs.Prelude.{◌≡◌, ◌++◌, IfOk, OnOk, flat_map, map, true};
ghost use Rattle.refusal_words.specs.Cut.{view_cut};
ghost use Rattle.explain.specs.Lines.{place_line as place_line_of, place_message as place_message_of, place_word as place_word_of};

use messages::{Kind, Message, Severity, join_words, spot_text};
use refusal_words::{CutSource, place_spot};
use rotor_base::{Memory, Place, Row};
use std::alloc::Global;

/// What a place is in a footprint.
pub fn place_word(is_declaration: bool) -> &'static str
    ensures { result.now ≡ place_word_of is_declaration }
{
    if is_declaration { "declaration" } else { "use" }
}

/// Adds the lines of declarations.
pub(crate) fn push_declarations(
    alloc: Global,
    text: &mut Vec<u8>,
    cuts: &[CutSource<'_>],
    places: &[Place],
) -> Result<(), Memory>
    ensures { OnOk result (text.new.items ≡ text.old.items ++ flat_map (λ p. place_line_of (map view_cut cuts.now) (place_word_of true) p) places.now) }
{
    for place in places {
        push_place(alloc, text, cuts, place_word(true), *place)?;
    }
    Ok(())
}

/// Adds the line of a place, with what it is.
pub(crate) fn push_place(
    alloc: Global,
    text: &mut Vec<u8>,
    cuts: &[CutSource<'_>],
    word: &str,
    place: Place,
) -> Result<(), Memory>
    ensures { OnOk result (text.new.items ≡ text.old.items ++ place_line_of (map view_cut cuts.now) word.now place) }
{
    let spot = place_spot(alloc, cuts, place)?;
    let at = spot_text(alloc, &spot)?;
    let line = join_words(alloc, &[at.as_slice(), b": ", word.as_bytes(), b"\n"])?;
    text.extend_from_slice(line.as_slice())?;
    Ok(())
}

/// The message of a place, with what it is. The one error is want of memory.
pub fn place_message(
    alloc: Global,
    cuts: &[CutSource<'_>],
    word: &str,
    place: Place,
) -> Result<Message, Memory>
    ensures { IfOk result (λ message. message ≡ place_message_of (map view_cut cuts.now) word.now place) }
{
    let text = Row::from_vec(word.as_bytes().to_vec(alloc)?);
    let spot = place_spot(alloc, cuts, place)?;
    Ok(Message {
        severity: Severity::Info,
        kind: Kind::Place,
        text,
        at: Some(spot),
        notes: Row::new(alloc),
        help: None,
    })
}
