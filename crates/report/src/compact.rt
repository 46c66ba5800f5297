//! The JSON of a report.
ghost use Rattle.std.specs.Prelude.{◌≡◌, [], ◌∷◌, IfOk, false, map, string_bytes};
ghost use Rattle.serde_json.specs.Data.{member, no_members, object as object_of};
ghost use Rattle.serde_json.specs.View.{view};
ghost use Rattle.serde_json.specs.Written.{has_float};
ghost use Rattle.rotor_base.specs.declared.report.Outcome.TheVariants as outcome;
ghost use Rattle.report.specs.Pieces.{file_of, place_text as place_text_of};
ghost use Rattle.report.specs.Notice.{value_of};
ghost use Rattle.report.specs.Json.{data_of, done_data, done_members, json_of, lines_data, notice_data, notice_json as notice_json_of, text_data, texts as texts_of};

use crate::lines::lines;
use crate::notice::{Notice, Part, load_notice, refusal_notice};
use crate::pieces::{file_name, join_words, place_text};
use rotor_base::{LoadError, Memory, Outcome, Place, Refusal, Renamed, Row};
use serde_json::{Map, Value, json};
use std::alloc::{AllocError, Global};

/// The JSON of an outcome: one object in compact form with its keys in byte order, and LF. `names` are as in
/// [`crate::text`]. Bytes of a name that are no UTF-8 are U+FFFD in it. The one error is want of memory.
pub fn json(alloc: Global, names: &[String], outcome: &Outcome) -> Result<Vec<u8>, Memory>
    ensures { IfOk result (λ text. text.items ≡ json_of (map string_bytes names.now) outcome.now) }
{
    let value = outcome_value(alloc, names, outcome)?;
    let mut text = value.to_vec(alloc)?;
    text.push(b'\n')?;
    Ok(text)
}

/// The JSON of a notice.
pub(crate) fn notice_json(alloc: Global, notice: Option<Notice>) -> Result<Vec<u8>, Memory>
    ensures { IfOk result (λ text. text.items ≡ notice_json_of notice) }
{
    let value = notice_value(alloc, notice)?;
    let mut text = value.to_vec(alloc)?;
    text.push(b'\n')?;
    Ok(text)
}

/// The object of an outcome.
fn outcome_value(alloc: Global, names: &[String], outcome: &Outcome) -> Result<Value, Memory>
    ensures { IfOk result (λ value. view value ≡ data_of (map string_bytes names.now) outcome.now) }
{
    match outcome {
        Outcome::Done(done) => done_value(alloc, names, done),
        Outcome::Refused(refusal) => refusal_data(alloc, names, refusal),
        Outcome::NotLoaded(error) => load_data(alloc, error),
        Outcome::Checked(_) | Outcome::Shown(_) | Outcome::Sampled(_) | Outcome::BadWords => {
            let lines = lines(alloc, names, outcome)?;
            lines_value(alloc, lines.as_slice())
        }
    }
}

/// The object that the report of a refusal has in JSON. `names` are as in [`crate::text`]. It has no number. The one
/// error is want of memory.
pub fn refusal_data(alloc: Global, names: &[String], refusal: &Refusal) -> Result<Value, Memory>
    ensures data { IfOk result (λ value. view value ≡ data_of (map string_bytes names.now) (outcome.Refused refusal.now)) }
    ensures plain { IfOk result (λ value. has_float (view value) ≡ false) }
{
    let notice = refusal_notice(alloc, names, refusal)?;
    notice_value(alloc, notice)
}

/// The object that the report of a folder that is not loaded has in JSON. It has no number. The one error is want of
/// memory.
pub fn load_data(alloc: Global, error: &LoadError) -> Result<Value, Memory>
    ensures data { IfOk result (λ value. view value ≡ data_of [] (outcome.NotLoaded error.now)) }
    ensures plain { IfOk result (λ value. has_float (view value) ≡ false) }
{
    let notice = load_notice(alloc, error)?;
    notice_value(alloc, notice)
}

/// The object of a renaming that is done.
fn done_value(alloc: Global, names: &[String], done: &Renamed) -> Result<Value, Memory>
    ensures { IfOk result (λ value. view value ≡ done_data (map string_bytes names.now) done.now) }
{
    let changed = files(alloc, names, done.changed.as_slice())?;
    let declarations = places(alloc, names, done.foot.decls.as_slice())?;
    let names_told = pair(alloc, done.old.as_bytes(), done.new.as_bytes())?;
    let at = place_text(alloc, names, done.undo_at)?;
    let undo = pair(alloc, at.as_slice(), done.old.as_bytes())?;
    Ok(done_object(
        alloc,
        texts(alloc, changed.as_slice())?,
        texts(alloc, declarations.as_slice())?,
        done.refs,
        names_told,
        undo,
    )?)
}

/// The object of a renaming, of its members' values.
fn done_object(
    alloc: Global,
    changed: Value,
    declarations: Value,
    references: u64,
    rename: Value,
    undo: Value,
) -> Result<Value, AllocError>
    ensures { IfOk result (λ value. view value ≡ done_members (view changed) (view declarations) references (view rename) (view undo)) }
{
    json!(in alloc; {
        "changed": changed,
        "declarations": declarations,
        "references": references,
        "rename": rename,
        "undo": undo
    })
}

/// The object of a notice: the kind and the values under the subject. If there is no notice, it has no lines.
fn notice_value(alloc: Global, notice: Option<Notice>) -> Result<Value, Memory>
    ensures { IfOk result (λ value. view value ≡ notice_data notice) }
{
    match notice {
        Some(notice) => {
            let values = values(alloc, notice.parts.as_slice())?;
            let values = texts(alloc, values.as_slice())?;
            object(alloc, notice.subject(), values)
        }
        None => lines_value(alloc, &[]),
    }
}

/// The object of lines.
fn lines_value(alloc: Global, lines: &[Row<u8>]) -> Result<Value, Memory>
    ensures { IfOk result (λ value. view value ≡ lines_data lines.now) }
{
    let lines = texts(alloc, lines)?;
    object(alloc, "lines", lines)
}

/// An object with one member.
fn object(alloc: Global, key: &str, value: Value) -> Result<Value, Memory>
    ensures { IfOk result (λ object. view object ≡ object_of (member key.now (view value) no_members)) }
{
    let mut members = Map::new(alloc);
    serde_json::put(&mut members, alloc, key, value)?;
    Ok(Value::Object(members))
}

/// A list of two texts.
fn pair(alloc: Global, first: &[u8], second: &[u8]) -> Result<Value, Memory>
    ensures { IfOk result (λ value. view value ≡ texts_of (first.now ∷ second.now ∷ [])) }
{
    let words = vec![in alloc; join_words(alloc, &[first])?, join_words(alloc, &[second])?]?;
    texts(alloc, &words)
}

/// A list of texts.
fn texts(alloc: Global, words: &[Row<u8>]) -> Result<Value, Memory>
    ensures { IfOk result (λ value. view value ≡ texts_of words.now) }
{
    let mut items = Vec::new(alloc);
    for word in words {
        items.push(text_value(alloc, word.as_slice())?)?;
    }
    Ok(Value::Array(items))
}

/// The values of parts.
fn values(alloc: Global, parts: &[Part]) -> Result<Row<Row<u8>>, Memory>
    ensures { IfOk result (λ values. values ≡ map value_of parts.now) }
{
    let mut values = Row::new(alloc);
    for part in parts {
        values.push(join_words(alloc, &[part.value()])?)?;
    }
    Ok(values)
}

/// The names of sources.
fn files(alloc: Global, names: &[String], files: &[u32]) -> Result<Row<Row<u8>>, Memory>
    ensures { IfOk result (λ told. told ≡ map (file_of (map string_bytes names.now)) files.now) }
{
    let mut told = Row::new(alloc);
    for file in files {
        told.push(join_words(alloc, &[file_name(names, *file)])?)?;
    }
    Ok(told)
}

/// The texts of places.
fn places(alloc: Global, names: &[String], places: &[Place]) -> Result<Row<Row<u8>>, Memory>
    ensures { IfOk result (λ told. told ≡ map (place_text_of (map string_bytes names.now)) places.now) }
{
    let mut told = Row::new(alloc);
    for at in places {
        told.push(place_text(alloc, names, *at)?)?;
    }
    Ok(told)
}

/// A text; bytes that are no UTF-8 are U+FFFD in it.
fn text_value(alloc: Global, bytes: &[u8]) -> Result<Value, Memory>
    ensures { IfOk result (λ value. view value ≡ text_data bytes.now) }
{
    Ok(Value::String(String::from_utf8_lossy(alloc, bytes)?))
}
