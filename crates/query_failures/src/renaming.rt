//! The failures of renamings that are refused.
ghost use Rattle.std.specs.Prelude.{◌≡◌, IfOk, map, option_map};
ghost use Rattle.refusal_words.specs.Cut.{view_cut};
ghost use Rattle.refusal_words.specs.Stretches.{place_spot as place_spot_of};
ghost use Rattle.query_failures.specs.Renaming.{IsRenamingFailure, IsValuelessFailure, first_sentence, valueless, word_there};

use crate::failure::noted_failure;
use crate::folder::names_of;
use crate::sentence::message_sentence;
use explain::{explain_rename, valueless_text};
use lsp_answers::Failure;
use messages::{Kind, Message, Severity, Spot, join_words};
use refusal_words::{CutSource, place_spot, word_at};
use report::refusal_data;
use rotor_base::{Files, Memory, Place, Refusal, Row, Target};
use std::alloc::Global;
use value_at::ValueAt;

/// The failure of a renaming that is refused. The one error is want of memory.
pub fn renaming_failure(
    alloc: Global,
    files: &Files,
    target: &Target,
    name: &[u8],
    why: &Refusal,
) -> Result<Failure, Memory>
    ensures { IfOk result (IsRenamingFailure files.now target.now name.now why.now) }
{
    let explanation = explain_rename(alloc, files, target, name, false)?;
    let text = first_sentence(alloc, explanation.messages.as_slice())?;
    let names = names_of(alloc, files.entries())?;
    noted_failure(alloc, text.as_slice(), refusal_data(alloc, &names, why)?)
}

/// The sentence of the first message; if there is none, that the renaming is refused.
fn first_sentence(alloc: Global, messages: &[Message]) -> Result<Row<u8>, Memory>
    ensures { IfOk result (λ text. text ≡ first_sentence messages.now) }
{
    match messages {
        [message, ..] => message_sentence(alloc, message),
        [] => join_words(alloc, &[b"this renaming is refused"]),
    }
}

/// The failure of a renaming at a token that declares and uses no value of the folder, or at a byte outside of
/// all tokens. The one error is want of memory.
pub fn valueless_failure(
    alloc: Global,
    cuts: &[CutSource<'_>],
    place: Option<Place>,
    found: ValueAt,
) -> Result<Failure, Memory>
    ensures { IfOk result (IsValuelessFailure (map view_cut cuts.now) place found) }
{
    let message = explain_valueless(alloc, cuts, place, found)?;
    let text = message_sentence(alloc, &message)?;
    let note = refusal_data(alloc, &[], &Refusal::NoTarget)?;
    noted_failure(alloc, text.as_slice(), note)
}

/// The message of a token that declares and uses no value of the folder, or of a byte outside of all tokens.
fn explain_valueless(
    alloc: Global,
    cuts: &[CutSource<'_>],
    place: Option<Place>,
    found: ValueAt,
) -> Result<Message, Memory>
    ensures { IfOk result (λ message. message ≡ valueless (map view_cut cuts.now) place found) }
{
    let text = valueless_text(alloc, word_there(cuts, place), found)?;
    Ok(Message {
        severity: Severity::Error,
        kind: Kind::NoTarget,
        text,
        at: spot_there(alloc, cuts, place)?,
        notes: Row::new(alloc),
        help: None,
    })
}

/// The word at a place, if there is one.
fn word_there<'a>(cuts: &[CutSource<'a>], place: Option<Place>) -> &'a [u8]
    ensures { result.now ≡ word_there (map view_cut cuts.now) place }
{
    match place {
        Some(place) => word_at(cuts, place),
        None => b"",
    }
}

/// The stretch of a place, if there is one.
fn spot_there(
    alloc: Global,
    cuts: &[CutSource<'_>],
    place: Option<Place>,
) -> Result<Option<Spot>, Memory>
    ensures { IfOk result (λ spot. spot ≡ option_map (place_spot_of (map view_cut cuts.now)) place) }
{
    let Some(place) = place else {
        return Ok(None);
    };
    Ok(Some(place_spot(alloc, cuts, place)?))
}
