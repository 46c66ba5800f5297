//! The lines of a report, without their ends.
ghost use Rattle.std.specs.Prelude.{◌≡◌, ◌++◌, [], ◌∷◌, IfOk, OnOk, map, string_bytes};
ghost use Rattle.report.specs.Lines.{checked_lines as checked_lines_of, declaration_line as declaration_line_of, declaration_lines, done_lines as done_lines_of, files_line as files_line_of, lines_of, notice_lines as notice_lines_of, number_line as number_line_of, outside_line as outside_line_of, rename_line as rename_line_of, undo_line as undo_line_of, footprint_line as footprint_line_of, sampled_line as sampled_line_of, shown_lines as shown_lines_of, undone_text};

use crate::notice::{Notice, load_notice, refusal_notice};
use crate::pieces::{join_words, number_text, place_text, placed_name};
use rotor_base::{
    Counts, Foot, FootReport, Memory, Name, Outcome, Place, Renamed, Row, SampleReport,
};
use std::alloc::Global;

/// The usage line, with the forms that have a command.
const USAGE: &str =
    "usage: rotor check | footprint TARGET | rename TARGET NAME [--write | --safe] [--json] | sample N | verify OLDLIST NEWLIST | batch FILE [--write] | recover";

/// The lines of an outcome.
pub(crate) fn lines(
    alloc: Global,
    names: &[String],
    outcome: &Outcome,
) -> Result<Row<Row<u8>>, Memory>
    ensures { IfOk result (λ lines. lines ≡ lines_of (map string_bytes names.now) outcome.now) }
{
    match outcome {
        Outcome::Done(done) => done_lines(alloc, names, done),
        Outcome::Checked(counts) => checked_lines(alloc, counts),
        Outcome::Shown(shown) => shown_lines(alloc, names, shown),
        Outcome::Sampled(sampled) => sampled_lines(alloc, sampled),
        Outcome::Refused(refusal) => {
            let notice = refusal_notice(alloc, names, refusal)?;
            notice_lines(alloc, notice)
        }
        Outcome::NotLoaded(error) => {
            let notice = load_notice(alloc, error)?;
            notice_lines(alloc, notice)
        }
        Outcome::BadWords => list_one(alloc, join_words(alloc, &[USAGE.as_bytes()])?),
    }
}

/// The lines of a renaming that is done.
fn done_lines(alloc: Global, names: &[String], done: &Renamed) -> Result<Row<Row<u8>>, Memory>
    ensures { IfOk result (λ lines. lines ≡ done_lines_of (map string_bytes names.now) done.now) }
{
    let changed = done.changed.as_slice().len() as u64;
    let mut lines = list_one(alloc, rename_line(alloc, &done.old, &done.new)?)?;
    add_declarations(alloc, names, &done.foot, &mut lines)?;
    lines.push(number_line(alloc, "references", done.refs)?)?;
    lines.push(files_line(alloc, changed)?)?;
    lines.push(undo_line(alloc, names, done.undo_at, &done.old)?)?;
    Ok(lines)
}

/// The line of the old name and the new one.
pub(crate) fn rename_line(alloc: Global, old: &Name, new: &Name) -> Result<Row<u8>, Memory>
    ensures { IfOk result (λ line. line ≡ rename_line_of old.now new.now) }
{
    join_words(
        alloc,
        &[b"rename ", old.as_bytes(), b" to ", new.as_bytes()],
    )
}

/// The line of an undo, `undo P OLD`: the place, and the name that it had. `names` are as in [`crate::text`]. The one
/// error is want of memory.
pub fn undo_line(alloc: Global, names: &[String], at: Place, old: &Name) -> Result<Row<u8>, Memory>
    ensures { IfOk result (λ line. line ≡ undo_line_of (map string_bytes names.now) at old.now) }
{
    let words = placed_name(alloc, names, at, old)?;
    join_words(alloc, &[b"undo ", words.as_slice()])
}

/// The line of the number of changed files, `files N`. The one error is want of memory.
pub fn files_line(alloc: Global, count: u64) -> Result<Row<u8>, Memory>
    ensures { IfOk result (λ line. line ≡ files_line_of count) }
{
    number_line(alloc, "files", count)
}

/// The lines of what was counted.
fn checked_lines(alloc: Global, counts: &Counts) -> Result<Row<Row<u8>>, Memory>
    ensures { IfOk result (λ lines. lines ≡ checked_lines_of counts.now) }
{
    let mut lines = list_one(alloc, files_line(alloc, counts.files)?)?;
    lines.push(number_line(alloc, "units", counts.units)?)?;
    lines.push(number_line(alloc, "declarations", counts.declarations)?)?;
    lines.push(number_line(alloc, "references", counts.references)?)?;
    lines.push(number_line(alloc, "links", counts.links)?)?;
    Ok(lines)
}

/// The lines of a footprint.
fn shown_lines(alloc: Global, names: &[String], shown: &FootReport) -> Result<Row<Row<u8>>, Memory>
    ensures { IfOk result (λ lines. lines ≡ shown_lines_of (map string_bytes names.now) shown.now) }
{
    let mut lines = list_one(alloc, footprint_line(alloc, shown)?)?;
    add_declarations(alloc, names, &shown.foot, &mut lines)?;
    lines.push(number_line(alloc, "references", shown.refs)?)?;
    lines.push(outside_line(alloc, names, shown.foot.outside)?)?;
    Ok(lines)
}

/// The line of the name.
fn footprint_line(alloc: Global, shown: &FootReport) -> Result<Row<u8>, Memory>
    ensures { IfOk result (λ line. line ≡ footprint_line_of shown.now) }
{
    join_words(alloc, &[b"footprint ", shown.old.as_bytes()])
}

/// The line of the place that is linked with the outside.
fn outside_line(alloc: Global, names: &[String], at: Option<Place>) -> Result<Row<u8>, Memory>
    ensures { IfOk result (λ line. line ≡ outside_line_of (map string_bytes names.now) at) }
{
    match at {
        Some(at) => {
            let at = place_text(alloc, names, at)?;
            join_words(alloc, &[b"outside ", at.as_slice()])
        }
        None => join_words(alloc, &[b"outside ", b"none"]),
    }
}

/// The line of a sample.
fn sampled_lines(alloc: Global, sampled: &SampleReport) -> Result<Row<Row<u8>>, Memory>
    ensures { IfOk result (λ lines. lines ≡ sampled_line_of sampled.now ∷ []) }
{
    let units = number_text(alloc, u64::from(sampled.units))?;
    let footprint = number_text(alloc, sampled.footprint)?;
    let references = number_text(alloc, sampled.references)?;
    let line = join_words(
        alloc,
        &[
            b"units ",
            units.as_slice(),
            b" footprint ",
            footprint.as_slice(),
            b" references ",
            references.as_slice(),
            b" undone ",
            yes_or_no(sampled.undone).as_bytes(),
        ],
    )?;
    list_one(alloc, line)
}

/// Whether all was undone.
fn yes_or_no(undone: bool) -> &'static str
    ensures { result.now ≡ undone_text undone }
{
    if undone { "yes" } else { "no" }
}

/// The line of a notice, if there is one.
pub(crate) fn notice_lines(alloc: Global, notice: Option<Notice>) -> Result<Row<Row<u8>>, Memory>
    ensures { IfOk result (λ lines. lines ≡ notice_lines_of notice) }
{
    match notice {
        Some(notice) => list_one(alloc, notice.line(alloc)?),
        None => Ok(Row::new(alloc)),
    }
}

/// A word and a number.
pub(crate) fn number_line(alloc: Global, word: &str, number: u64) -> Result<Row<u8>, Memory>
    ensures { IfOk result (λ line. line ≡ number_line_of word.now number) }
{
    let number = number_text(alloc, number)?;
    join_words(alloc, &[word.as_bytes(), b" ", number.as_slice()])
}

/// Adds a line for each declaration.
fn add_declarations(
    alloc: Global,
    names: &[String],
    foot: &Foot,
    lines: &mut Row<Row<u8>>,
) -> Result<(), Memory>
    ensures { OnOk result (lines.new ≡ lines.old ++ declaration_lines (map string_bytes names.now) foot.now.decls) }
{
    let places = foot.decls.as_slice();
    for at in places {
        lines.push(declaration_line(alloc, names, *at)?)?;
    }
    Ok(())
}

/// The line of a declaration.
fn declaration_line(alloc: Global, names: &[String], at: Place) -> Result<Row<u8>, Memory>
    ensures { IfOk result (λ line. line ≡ declaration_line_of (map string_bytes names.now) at) }
{
    let at = place_text(alloc, names, at)?;
    join_words(alloc, &[b"declaration ", at.as_slice()])
}

/// One line.
fn list_one(alloc: Global, line: Row<u8>) -> Result<Row<Row<u8>>, Memory>
    ensures { IfOk result (λ lines. lines ≡ line ∷ []) }
{
    let mut lines = Row::new(alloc);
    lines.push(line)?;
    Ok(lines)
}
