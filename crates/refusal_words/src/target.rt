//! The sentences of targets that declare no value that can be renamed.
ghost use Rattle.std.specs.Prelude.{◌≡◌, IfOk, map};
ghost use Rattle.refusal_words.specs.Cut.{view_cut};
ghost use Rattle.refusal_words.specs.Target.{a_use as a_use_of, foreign_value as foreign_value_of, no_value as no_value_of, operator as operator_of, target_help as target_help_of, the_value as the_value_of, nameless as nameless_of};

use crate::cut::CutSource;
use crate::parts::{
    explain_place, explain_with_help, help, make_error, make_error_at, one_note, text, wrap_word,
};
use crate::stretches::{place_spot, word_at};
use messages::{Kind, Message, join_words, spot_text};
use report::number_text;
use rotor_base::{Memory, Place, Row};
use std::alloc::Global;

/// What a target is.
const A_TARGET: &str =
    "a target is a place that declares a value: FILE:LINE:COLUMN, FILE#N or Unit.name";

/// A declaration by its name and its place, behind a text.
pub(crate) fn the_value<'a>(
    alloc: Global,
    cuts: &[CutSource<'_>],
    before: &'a str,
    place: Place,
) -> Result<Row<u8>, Memory>
    ensures { IfOk result (λ text. text ≡ the_value_of (map view_cut cuts.now) before.entry.now place) }
{
    let spot = place_spot(alloc, cuts, place)?;
    let at = spot_text(alloc, &spot)?;
    join_words(
        alloc,
        &[
            before.as_bytes(),
            b"`",
            word_at(cuts, place),
            b"` of ",
            at.as_slice(),
        ],
    )
}

/// The message of a target that is a use of a declaration. The one error is want of memory.
pub fn a_use(
    alloc: Global,
    cuts: &[CutSource<'_>],
    at: Place,
    declared: Place,
) -> Result<Message, Memory>
    ensures { IfOk result (λ message. message ≡ a_use_of (map view_cut cuts.now) at declared) }
{
    let begin = the_value(alloc, cuts, "this is a use of the ", declared)?;
    let text = wrap_word(
        alloc,
        "",
        begin.as_slice(),
        "; the target is its declaration",
    )?;
    let spot = place_spot(alloc, cuts, at)?;
    let notes = one_note(alloc, cuts, declared, "declared here")?;
    let help = target_help(alloc, cuts, declared)?;
    Ok(make_error_at(Kind::NoTarget, text, spot, notes, Some(help)))
}

/// The help that gives the target of a declaration.
fn target_help(alloc: Global, cuts: &[CutSource<'_>], declared: Place) -> Result<Row<u8>, Memory>
    ensures { IfOk result (λ text. text ≡ target_help_of (map view_cut cuts.now) declared) }
{
    let spot = place_spot(alloc, cuts, declared)?;
    let number = number_text(alloc, u64::from(declared.token))?;
    join_words(
        alloc,
        &[
            b"give the target ",
            spot.file.as_slice(),
            b"#",
            number.as_slice(),
        ],
    )
}

/// The message of a token that declares no value and is no use of one. The one error is want of memory.
pub fn no_value(alloc: Global, cuts: &[CutSource<'_>], at: Place) -> Result<Message, Memory>
    ensures { IfOk result (λ message. message ≡ no_value_of (map view_cut cuts.now) at) }
{
    let text = text(alloc, "no value is declared here")?;
    explain_with_help(alloc, cuts, Kind::NoTarget, text, at, A_TARGET)
}

/// The message of a use of a value that the folder does not declare. The one error is want of memory.
pub fn foreign_value(alloc: Global, cuts: &[CutSource<'_>], at: Place) -> Result<Message, Memory>
    ensures { IfOk result (λ message. message ≡ foreign_value_of (map view_cut cuts.now) at) }
{
    let end = "` is no value that this folder declares";
    let text = wrap_word(alloc, "this `", word_at(cuts, at), end)?;
    explain_with_help(alloc, cuts, Kind::NoTarget, text, at, A_TARGET)
}

/// The message of a target that names no token, of its sentence. The one error is want of memory.
pub fn explain_nameless(alloc: Global, sentence: Row<u8>) -> Result<Message, Memory>
    ensures { IfOk result (λ message. message ≡ nameless_of sentence) }
{
    let help = help(alloc, A_TARGET)?;
    Ok(make_error(alloc, Kind::NoTarget, sentence, help))
}

/// The message of a target that declares an operator. The one error is want of memory.
pub fn operator(alloc: Global, cuts: &[CutSource<'_>], at: Place) -> Result<Message, Memory>
    ensures { IfOk result (λ message. message ≡ operator_of (map view_cut cuts.now) at) }
{
    explain_place(alloc, cuts, Kind::Operator, "operators are not renamed", at)
}
