//! The message of a source that is not read.
ghost use Rattle.std.specs.Prelude.{◌≡◌, ◌≤◌, IfOk, None, Some, length};
ghost use Rattle.rotor_base.specs.Limits.{max_file_bytes};
ghost use Rattle.project_reading.specs.Source.{kind_of_source};
ghost use Rattle.refusal_words.specs.Cut.{view_cut};
ghost use Rattle.refusal_places.specs.Forms.{form_near as form_near_of};
ghost use Rattle.refusal_places.specs.Unread.{SaysUnread, advice as advice_of, item_start_notes as item_start_notes_of, lexeme_spot as lexeme_spot_of, sentence as sentence_of, told_at as told_at_of, unread_at as unread_at_of};

use crate::forms::form_near;
use crate::front::front_of;
use messages::{Kind, Message, Note, Severity, Spot, join_words, spot_in};
use parse_module::FileKind;
use reading_stop::{ends_inside, stop_of};
use refusal_words::CutSource;
use rotor_base::{Memory, Row, is_body};
use std::alloc::Global;

/// The message of a source that is not read: where the reading stops, and where the item begins that is not read. The
/// one error is want of memory.
pub(crate) fn unread_message(alloc: Global, cut: &CutSource<'_>) -> Result<Message, Memory>
    requires { length cut.now.tokens.items ≤ max_file_bytes }
    ensures { IfOk result (SaysUnread (view_cut cut.now)) }
{
    let kind = kind_of(cut.name);
    let front = front_of(alloc, &cut.tokens, kind)?;
    let stop = stop_of(alloc, &cut.tokens, kind, front)?;
    let ends = ends_inside(alloc, &cut.tokens, kind, stop)?;
    explain_stop(alloc, cut, front, stop, ends)
}

/// What a source is, by the ending of its name.
pub(crate) fn kind_of(name: &[u8]) -> FileKind
    ensures { result ≡ kind_of_source name.now }
{
    if is_body(name) {
        FileKind::Body
    } else {
        FileKind::Face
    }
}

/// The message of a source whose item at the front is not read, by the place where the reading stops, and whether the
/// file ends inside the item.
fn explain_stop(
    alloc: Global,
    cut: &CutSource<'_>,
    front: usize,
    stop: usize,
    ends: bool,
) -> Result<Message, Memory>
    ensures { IfOk result (λ message. message ≡ unread_at_of (view_cut cut.now) front stop ends) }
{
    let at = choose_place(cut, stop, ends);
    let text = Row::from_vec(sentence(ends).as_bytes().to_vec(alloc)?);
    let spot = lexeme_spot(alloc, cut, at)?;
    let notes = item_start_notes(alloc, cut, front, at)?;
    let help = advice(alloc, cut, front, stop)?;
    Ok(Message {
        severity: Severity::Error,
        kind: Kind::Syntax,
        text,
        at: Some(spot),
        notes,
        help: Some(help),
    })
}

/// The place that the message is about.
fn choose_place(cut: &CutSource<'_>, stop: usize, ends: bool) -> usize
    ensures { result ≡ told_at_of (view_cut cut.now) stop ends }
{
    if ends {
        cut.tokens.len().saturating_sub(1)
    } else {
        stop
    }
}

/// What is said of the place.
fn sentence(ends: bool) -> &'static str
    ensures { result.now ≡ sentence_of ends }
{
    if ends {
        "the file ends inside an item"
    } else {
        "this is no OCaml, or OCaml that rotor does not read; the reading stops at or just before this place"
    }
}

/// The stretch of the token at a place, from 0; behind the last one, the end of the source.
pub(crate) fn lexeme_spot(alloc: Global, cut: &CutSource<'_>, at: usize) -> Result<Spot, Memory>
    ensures { IfOk result (λ spot. spot ≡ lexeme_spot_of (view_cut cut.now) at) }
{
    match cut.tokens.get(at) {
        Some(token) => spot_in(alloc, cut.name, cut.bytes, token.start, token.end),
        None => {
            let end = cut.bytes.len() as u32;
            spot_in(alloc, cut.name, cut.bytes, end, end)
        }
    }
}

/// The note on the place where the item begins, if it is another one.
fn item_start_notes(
    alloc: Global,
    cut: &CutSource<'_>,
    front: usize,
    at: usize,
) -> Result<Row<Note>, Memory>
    ensures { IfOk result (λ notes. notes ≡ item_start_notes_of (view_cut cut.now) front at) }
{
    let mut notes = Row::new(alloc);
    if front != at {
        let spot = lexeme_spot(alloc, cut, front)?;
        let text = Row::from_vec(b"in the item that begins here".to_vec(alloc)?);
        notes.push(Note { at: spot, text })?;
    }
    Ok(notes)
}

/// What can be done, by the form that the lexemes show where the reading stops.
fn advice(alloc: Global, cut: &CutSource<'_>, front: usize, stop: usize) -> Result<Row<u8>, Memory>
    ensures { IfOk result (λ text. text ≡ advice_of (form_near_of (view_cut cut.now).lexemes front stop)) }
{
    match form_near(&cut.tokens, front, stop) {
        Some(form) => say_not_read(alloc, form),
        None => usual_advice(alloc),
    }
}

/// That a form is not read.
fn say_not_read(alloc: Global, form: &str) -> Result<Row<u8>, Memory>
    ensures { IfOk result (λ text. text ≡ advice_of (Some form.now)) }
{
    join_words(alloc, &[form.as_bytes(), b" is not read"])
}

/// What can be done if the lexemes show no form.
fn usual_advice(alloc: Global) -> Result<Row<u8>, Memory>
    ensures { IfOk result (λ text. text ≡ advice_of None) }
{
    let usual =
        "if OCaml accepts this file, it uses a form that rotor does not read (USING, `syntax`)";
    Ok(Row::from_vec(usual.as_bytes().to_vec(alloc)?))
}
