//! The message of units that need each other in a circle.
ghost use Rattle.std.specs.Prelude.{◌≡◌, ◌≤◌, ◌++◌, ◌∷◌, ◌&&◌, All, IfOk, None, OnOk, flat_map, length, map};
ghost use Rattle.std.specs.Str.{bytes_eq};
ghost use Rattle.rotor_base.specs.Limits.{max_file_bytes};
ghost use Rattle.need_chains.specs.Chains.{IsCircle};
ghost use Rattle.refusal_words.specs.Cut.{view_cut};
ghost use Rattle.refusal_words.specs.Stretches.{no_spot as no_spot_of};
ghost use Rattle.unit_heads.specs.Heads.{is_among};
ghost use Rattle.refusal_places.specs.Circle.{AreNeedNotes, IsHeadSpot, IsNeedNote, IsNeedSpot, SaysCircle, arrow, circle_message as circle_message_of, circle_text as circle_text_of, need_text as need_text_of};
ghost use Rattle.refusal_places.specs.Heads.{cut_heads};
ghost use Rattle.refusal_places.specs.Unread.{whole_spot};

use crate::blanks::first_head;
use crate::heads::all_heads;
use crate::unread::{kind_of, lexeme_spot};
use messages::{Kind, Message, Note, Severity, Spot, join_words, spot_in};
use need_chains::{UnitHeads, circle};
use refusal_words::{CutSource, on_cycle};
use rotor_base::{Memory, Name, Row};
use std::alloc::Global;

/// The message of a unit that needs itself through others: the shortest chain of needs back to it, with the place of
/// each need. The one error is want of memory.
pub(crate) fn cycle_message(
    alloc: Global,
    cuts: &[CutSource<'_>],
    unit: &[u8],
) -> Result<Message, Memory>
    requires { All (λ cut. length cut.tokens.items ≤ max_file_bytes) cuts.now }
    ensures { IfOk result (SaysCircle (map view_cut cuts.now) unit.now) }
{
    let sources = all_heads(alloc, cuts)?;
    match circle(alloc, &sources, unit)? {
        Some(names) => match names.as_slice() {
            [first, rest @ ..] => chain_message(alloc, cuts, &sources, unit, first, rest),
            [] => unreachable!(),
        },
        None => on_cycle(alloc, unit),
    }
}

/// The message of a chain from a unit back to it.
fn chain_message(
    alloc: Global,
    cuts: &[CutSource<'_>],
    sources: &[UnitHeads],
    unit: &[u8],
    first: &Name,
    rest: &[Name],
) -> Result<Message, Memory>
    requires short { All (λ cut. length cut.tokens.items ≤ max_file_bytes) cuts.now }
    requires heads { sources.now ≡ map cut_heads (map view_cut cuts.now) }
    requires circle { IsCircle sources.now unit.now (first.now ∷ rest.now) }
    ensures { IfOk result (SaysCircle (map view_cut cuts.now) unit.now) }
{
    let at = need_spot(alloc, cuts, sources, unit, first.as_bytes())?;
    let notes = need_notes(alloc, cuts, sources, first.as_bytes(), rest)?;
    circle_message(alloc, unit, first, rest, at, notes)
}

/// The message of a chain from a unit back to it, by the places of its needs.
fn circle_message(
    alloc: Global,
    unit: &[u8],
    first: &Name,
    rest: &[Name],
    at: Spot,
    notes: Row<Note>,
) -> Result<Message, Memory>
    ensures { IfOk result (λ message. message ≡ circle_message_of unit.now (first.now ∷ rest.now) at notes) }
{
    let text = circle_text(alloc, unit, first, rest)?;
    let help = b"write the link order into rotor.units, one unit a line".to_vec(alloc)?;
    Ok(Message {
        severity: Severity::Error,
        kind: Kind::Cycle,
        text,
        at: Some(at),
        notes,
        help: Some(Row::from_vec(help)),
    })
}

/// The units of a chain.
fn circle_text(alloc: Global, unit: &[u8], first: &Name, rest: &[Name]) -> Result<Row<u8>, Memory>
    ensures { IfOk result (λ text. text ≡ circle_text_of unit.now (first.now ∷ rest.now)) }
{
    let mut text = join_words(
        alloc,
        &[b"the units need each other in a circle: ", unit],
    )?.into_vec();
    push_arrow(&mut text, first)?;
    push_arrows(&mut text, rest)?;
    Ok(Row::from_vec(text))
}

/// Adds units.
fn push_arrows(text: &mut Vec<u8>, names: &[Name]) -> Result<(), Memory>
    ensures { OnOk result (text.new.items ≡ text.old.items ++ flat_map arrow names.now) }
{
    for name in names {
        push_arrow(text, name)?;
    }
    Ok(())
}

/// Adds a unit behind an arrow.
fn push_arrow(text: &mut Vec<u8>, name: &Name) -> Result<(), Memory>
    ensures { OnOk result (text.new.items ≡ text.old.items ++ arrow name.now) }
{
    text.extend_from_slice(b" -> ")?;
    text.extend_from_slice(name.as_bytes())?;
    Ok(())
}

/// A note on each need of a chain that begins at a unit.
fn need_notes(
    alloc: Global,
    cuts: &[CutSource<'_>],
    sources: &[UnitHeads],
    unit: &[u8],
    names: &[Name],
) -> Result<Row<Note>, Memory>
    requires short { All (λ cut. length cut.tokens.items ≤ max_file_bytes) cuts.now }
    requires heads { sources.now ≡ map cut_heads (map view_cut cuts.now) }
    ensures { IfOk result (AreNeedNotes (map view_cut cuts.now) unit.now names.now) }
{
    let mut notes = Vec::new(alloc);
    let mut user = unit;
    for name in names {
        notes.push(need_note(alloc, cuts, sources, user, name.as_bytes())?)?;
        user = name.as_bytes();
    }
    Ok(Row::from_vec(notes))
}

/// A note on where a unit needs another.
fn need_note(
    alloc: Global,
    cuts: &[CutSource<'_>],
    sources: &[UnitHeads],
    unit: &[u8],
    name: &[u8],
) -> Result<Note, Memory>
    requires short { All (λ cut. length cut.tokens.items ≤ max_file_bytes) cuts.now }
    requires heads { sources.now ≡ map cut_heads (map view_cut cuts.now) }
    ensures { IfOk result (IsNeedNote (map view_cut cuts.now) unit.now name.now) }
{
    let at = need_spot(alloc, cuts, sources, unit, name)?;
    let text = join_words(alloc, &[b"`", unit, b"` needs `", name, b"` here"])?;
    Ok(Note { at, text })
}

/// The stretch of the place where a unit needs another.
fn need_spot(
    alloc: Global,
    cuts: &[CutSource<'_>],
    sources: &[UnitHeads],
    unit: &[u8],
    name: &[u8],
) -> Result<Spot, Memory>
    requires short { All (λ cut. length cut.tokens.items ≤ max_file_bytes) cuts.now }
    requires heads { sources.now ≡ map cut_heads (map view_cut cuts.now) }
    ensures { IfOk result (IsNeedSpot (map view_cut cuts.now) unit.now name.now) }
{
    let mut left = sources;
    for cut in cuts {
        match left {
            [] => return no_spot(alloc),
            [source, rest @ ..] => {
                if has_head(source, unit, name) {
                    return head_spot(alloc, cut, name);
                }
                left = rest;
            }
        }
    }
    no_spot(alloc)
}

/// Whether a source is one of a unit and has this head.
fn has_head(source: &UnitHeads, unit: &[u8], name: &[u8]) -> bool
    ensures { result ≡ (bytes_eq source.now.unit unit.now && is_among source.now.heads name.now) }
{
    source.unit.as_bytes() == unit && is_among_heads(source.heads.as_slice(), name)
}

/// Whether a name is one of these.
fn is_among_heads(heads: &[Name], name: &[u8]) -> bool
    ensures { result ≡ is_among heads.now name.now }
{
    heads.iter().any(|head| head.as_bytes() == name)
}

/// The stretch of the first head of a name in a source, or of the end of the source.
fn head_spot(alloc: Global, cut: &CutSource<'_>, name: &[u8]) -> Result<Spot, Memory>
    requires { length cut.now.tokens.items ≤ max_file_bytes }
    ensures { IfOk result (IsHeadSpot (view_cut cut.now) name.now) }
{
    match first_head(alloc, &cut.tokens, kind_of(cut.name), name)? {
        Some(at) => lexeme_spot(alloc, cut, at),
        None => end_spot(alloc, cut),
    }
}

/// The stretch of the end of a source.
fn end_spot(alloc: Global, cut: &CutSource<'_>) -> Result<Spot, Memory>
    ensures { IfOk result (λ spot. spot ≡ whole_spot (view_cut cut.now) None) }
{
    let end = cut.bytes.len() as u32;
    spot_in(alloc, cut.name, cut.bytes, end, end)
}

/// The stretch of no source.
fn no_spot(alloc: Global) -> Result<Spot, Memory>
    ensures { IfOk result (λ spot. spot ≡ no_spot_of) }
{
    spot_in(alloc, b"", b"", 0, 0)
}
