//! The warning of a place.
ghost use Rattle.std.specs.Prelude.{◌≡◌, IfOk, map};
ghost use Rattle.refusal_words.specs.Cut.{view_cut};
ghost use Rattle.difference_words.specs.Warning.{applied as applied_of, commented as commented_of, index_help as index_help_of, index_text as index_text_of, indexed as indexed_of, late as late_of, form_of, opened as opened_of, opened_note as opened_note_of, opened_text as opened_text_of, standard as standard_of, warned, warning_of as warning_for};

use messages::{Kind, Message, Note, Severity, Spot, join_words, spot_text};
use reading_differences::{Difference, Indexed, Parting, module_name};
use refusal_words::{CutSource, byte_spot, place_spot};
use rotor_base::{Memory, Place, Row};
use std::alloc::Global;

/// The warning of a place at which OCaml may read a folder otherwise. The one error is want of memory.
pub(crate) fn warning_of(
    alloc: Global,
    cuts: &[CutSource<'_>],
    difference: &Difference,
) -> Result<Message, Memory>
    ensures { IfOk result (λ message. message ≡ warning_for (map view_cut cuts.now) difference.now) }
{
    let at = difference.at;
    match &difference.how {
        Parting::Indexing(form) => warn_indexed(alloc, cuts, at, *form),
        Parting::Opened { name, by } => warn_opened(alloc, cuts, at, name.as_bytes(), *by),
        Parting::Types(argument) => warn_applied(alloc, cuts, at, argument.as_bytes()),
        Parting::Comment(offset) => warn_commented(alloc, cuts, at, *offset),
        Parting::Order { unit, needed } => {
            warn_late(alloc, cuts, at, unit.as_bytes(), needed.as_bytes())
        }
        Parting::Standard => warn_standard(alloc, cuts, at),
    }
}

/// A warning at a stretch of a source.
fn warning_at(alloc: Global, kind: Kind, text: Row<u8>, at: Spot, help: Option<Row<u8>>) -> Message
    ensures { result ≡ warned kind text at help }
{
    Message {
        severity: Severity::Warning,
        kind,
        text,
        at: Some(at),
        notes: Row::new(alloc),
        help,
    }
}

/// The warning of a form that reads an element.
fn warn_indexed(
    alloc: Global,
    cuts: &[CutSource<'_>],
    at: Place,
    form: Indexed,
) -> Result<Message, Memory>
    ensures { IfOk result (λ message. message ≡ indexed_of (map view_cut cuts.now) at form) }
{
    let text = index_text(alloc, form_text(form), module_name(form))?;
    let help = index_help(alloc, module_name(form))?;
    let at = place_spot(alloc, cuts, at)?;
    Ok(warning_at(alloc, Kind::Indexing, text, at, Some(help)))
}

/// The sentence of a form, as it is written, and its module.
fn index_text<'a>(alloc: Global, form: &'a [u8], name: &'a [u8]) -> Result<Row<u8>, Memory>
    ensures { IfOk result (λ text. text ≡ index_text_of form.entry.now name.entry.now) }
{
    join_words(
        alloc,
        &[
            b"in OCaml `",
            form,
            b"` means `",
            name,
            b".get` or `.set` of the module in scope, here the folder's `",
            name,
            b"`; rotor sees no use there",
        ],
    )
}

/// The help of a form that reads this module.
fn index_help(alloc: Global, name: &[u8]) -> Result<Row<u8>, Memory>
    ensures { IfOk result (λ text. text ≡ index_help_of name.now) }
{
    join_words(
        alloc,
        &[b"do not rename `get` or `set` of that `", name, b"`"],
    )
}

/// A form, as it is written.
fn form_text(form: Indexed) -> &'static [u8]
    ensures { result.now ≡ form_of form }
{
    match form {
        Indexed::Array => b"a.(i)",
        Indexed::String => b"s.[i]",
    }
}

/// The warning of a module that is used behind the opening of a module from outside.
fn warn_opened(
    alloc: Global,
    cuts: &[CutSource<'_>],
    at: Place,
    name: &[u8],
    by: Place,
) -> Result<Message, Memory>
    ensures { IfOk result (λ message. message ≡ opened_of (map view_cut cuts.now) at name.now by) }
{
    let opening = place_spot(alloc, cuts, by)?;
    let opening = spot_text(alloc, &opening)?;
    let mut notes = Row::new(alloc);
    notes.push(opened_note(alloc, cuts, by)?)?;
    Ok(Message {
        severity: Severity::Warning,
        kind: Kind::Opened,
        text: opened_text(alloc, opening.as_slice(), name)?,
        at: Some(place_spot(alloc, cuts, at)?),
        notes,
        help: None,
    })
}

/// The sentence of an opening and the name of a module.
fn opened_text<'a>(alloc: Global, by: &'a [u8], name: &'a [u8]) -> Result<Row<u8>, Memory>
    ensures { IfOk result (λ text. text ≡ opened_text_of by.entry.now name.entry.now) }
{
    join_words(
        alloc,
        &[
            b"if the module opened at ",
            by,
            b" has a module `",
            name,
            b"` of its own, OCaml means that one",
        ],
    )
}

/// The note on the place of an opening.
fn opened_note(alloc: Global, cuts: &[CutSource<'_>], by: Place) -> Result<Note, Memory>
    ensures { IfOk result (λ note. note ≡ opened_note_of (map view_cut cuts.now) by) }
{
    let at = place_spot(alloc, cuts, by)?;
    let text = Row::from_vec(b"opened here, from outside the folder".to_vec(alloc)?);
    Ok(Note { at, text })
}

/// The warning of a functor that is applied in a type.
fn warn_applied(
    alloc: Global,
    cuts: &[CutSource<'_>],
    at: Place,
    argument: &[u8],
) -> Result<Message, Memory>
    ensures { IfOk result (λ message. message ≡ applied_of (map view_cut cuts.now) at argument.now) }
{
    let text = join_words(
        alloc,
        &[
            b"a functor is applied in a type; OCaml matches `",
            argument,
            b"` with its parameter, rotor does not",
        ],
    )?;
    let help = join_words(
        alloc,
        &[b"after a renaming in `", argument, b"`, compile the folder"],
    )?;
    let at = place_spot(alloc, cuts, at)?;
    Ok(warning_at(alloc, Kind::Types, text, at, Some(help)))
}

/// The warning of a quote behind a name, in a comment.
fn warn_commented(
    alloc: Global,
    cuts: &[CutSource<'_>],
    at: Place,
    offset: u32,
) -> Result<Message, Memory>
    ensures { IfOk result (λ message. message ≡ commented_of (map view_cut cuts.now) at offset) }
{
    let text = join_words(
        alloc,
        &[
            b"OCaml reads the name before this quote with it; rotor reads a character here, so the two may end this comment",
            b" at different places",
        ],
    )?;
    let at = byte_spot(alloc, cuts, at.file, offset)?;
    Ok(warning_at(alloc, Kind::Comment, text, at, None))
}

/// The warning of a unit that is linked behind a unit that needs it.
fn warn_late<'a>(
    alloc: Global,
    cuts: &[CutSource<'_>],
    at: Place,
    unit: &'a [u8],
    needed: &'a [u8],
) -> Result<Message, Memory>
    ensures { IfOk result (λ message. message ≡ late_of (map view_cut cuts.now) at unit.entry.now needed.entry.now) }
{
    let text = join_words(
        alloc,
        &[
            b"rotor.units puts `",
            needed,
            b"` after `",
            unit,
            b"`, so this `",
            needed,
            b"` is outside the folder here; no linker takes that order",
        ],
    )?;
    let at = place_spot(alloc, cuts, at)?;
    Ok(warning_at(alloc, Kind::Order, text, at, None))
}

/// The warning of a unit with the name of OCaml's standard library.
fn warn_standard(alloc: Global, cuts: &[CutSource<'_>], at: Place) -> Result<Message, Memory>
    ensures { IfOk result (λ message. message ≡ standard_of (map view_cut cuts.now) at) }
{
    let text =
        b"OCaml opens this unit first in every other unit, and rotor does not; a name there may mean one of its values or modules";
    let help = b"give this unit another name, and open it in each unit that uses it";
    let text = Row::from_vec(text.to_vec(alloc)?);
    let help = Row::from_vec(help.to_vec(alloc)?);
    let at = place_spot(alloc, cuts, at)?;
    Ok(warning_at(alloc, Kind::Opened, text, at, Some(help)))
}
