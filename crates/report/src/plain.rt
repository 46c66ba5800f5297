//! The text of a report.
ghost use Rattle.std.specs.Prelude.{◌≡◌, IfOk, flat_map, map, string_bytes};
ghost use Rattle.report.specs.Pieces.{join};
ghost use Rattle.report.specs.Text.{ended, notice_text as notice_text_of, text_of};

use crate::lines::{lines, notice_lines};
use crate::notice::Notice;
use crate::pieces::push_line;
use rotor_base::{Memory, Outcome, Row};
use std::alloc::Global;

/// The text of an outcome: its lines, each ended by LF. `names` are the names of the sources by their numbers; a
/// number past them has the empty name. Want of memory and a failed read have no line. The one error is want of
/// memory.
pub fn text(alloc: Global, names: &[String], outcome: &Outcome) -> Result<Vec<u8>, Memory>
    ensures { IfOk result (λ text. text.items ≡ text_of (map string_bytes names.now) outcome.now) }
{
    let lines = lines(alloc, names, outcome)?;
    lines_text(alloc, lines.as_slice())
}

/// The text of a notice: its line, if there is one.
pub(crate) fn notice_text(alloc: Global, notice: Option<Notice>) -> Result<Vec<u8>, Memory>
    ensures { IfOk result (λ text. text.items ≡ notice_text_of notice) }
{
    let lines = notice_lines(alloc, notice)?;
    lines_text(alloc, lines.as_slice())
}

/// The text of these lines.
fn lines_text(alloc: Global, lines: &[Row<u8>]) -> Result<Vec<u8>, Memory>
    ensures { IfOk result (λ text. text.items ≡ flat_map ended lines.now) }
{
    let mut text = Vec::new(alloc);
    for line in lines {
        push_line(&mut text, &[line.as_slice()])?;
    }
    Ok(text)
}

/// The text of one line: some words, one directly behind the other.
pub(crate) fn line_text(alloc: Global, words: &[&[u8]]) -> Result<Vec<u8>, Memory>
    ensures { IfOk result (λ text. text.items ≡ ended (join (map (λ word. word.now) words.now))) }
{
    let mut text = Vec::new(alloc);
    push_line(&mut text, words)?;
    Ok(text)
}
