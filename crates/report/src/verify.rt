//! The lines of `verify`.
ghost use Rattle.std.specs.Prelude.{◌≡◌, IfOk, map, string_bytes};
ghost use Rattle.report.specs.Verify.{bad_list_text as bad_list_text_of, changed_line as changed_line_of, fixed_text as fixed_text_of, other_byte_text as other_byte_text_of, other_sources_text as other_sources_text_of, verified_line as verified_line_of};

use crate::lines::number_line;
use crate::notice::{Part, Subject, make_notice, place};
use crate::pieces::{join_words, number_text, offset_text, placed_name};
use crate::plain::{line_text, notice_text};
use rotor_base::{Memory, Name, Place, Row};
use std::alloc::Global;

/// The line of the number of binders that take other names, `verified N`. The one error is want of memory.
pub fn verified_line(alloc: Global, changes: u64) -> Result<Row<u8>, Memory>
    ensures { IfOk result (λ line. line ≡ verified_line_of changes) }
{
    number_line(alloc, "verified", changes)
}

/// The line of a binder that takes another name, `P OLD NEW`. `names` are as in [`crate::text`]. The one error is want
/// of memory.
pub fn changed_line(
    alloc: Global,
    names: &[String],
    at: Place,
    old: &Name,
    new: &Name,
) -> Result<Row<u8>, Memory>
    ensures { IfOk result (λ line. line ≡ changed_line_of (map string_bytes names.now) at old.now new.now) }
{
    let old = placed_name(alloc, names, at, old)?;
    join_words(alloc, &[old.as_slice(), b" ", new.as_bytes()])
}

/// The text of two lists of other sources, `different sources NAME`. The one error is want of memory.
pub fn other_sources_text(alloc: Global, name: &Name) -> Result<Vec<u8>, Memory>
    ensures { IfOk result (λ text. text.items ≡ other_sources_text_of name.now) }
{
    line_text(alloc, &[b"different sources ", name.as_bytes()])
}

/// The text of two sources with other bytes, `different FILE@OFFSET`. Offsets count bytes from 0. `names` are as in
/// [`crate::text`]. The one error is want of memory.
pub fn other_byte_text(
    alloc: Global,
    names: &[String],
    file: u32,
    offset: u32,
) -> Result<Vec<u8>, Memory>
    ensures { IfOk result (λ text. text.items ≡ other_byte_text_of (map string_bytes names.now) file offset) }
{
    let at = offset_text(alloc, names, file, offset)?;
    line_text(alloc, &[b"different ", at.as_slice()])
}

/// The text of a binder that takes another name and may not, `refused: fixed P`. `names` are as in [`crate::text`]. The
/// one error is want of memory.
pub fn fixed_text(alloc: Global, names: &[String], at: Place) -> Result<Vec<u8>, Memory>
    ensures { IfOk result (λ text. text.items ≡ fixed_text_of (map string_bytes names.now) at) }
{
    let notice = place(alloc, names, Subject::Renaming, "fixed", at)?;
    notice_text(alloc, notice)
}

/// The text of a list with a bad line, `project: badlist LIST N`. Lines count from 1; 0 is for a list that the folder
/// lacks. The one error is want of memory.
pub fn bad_list_text(alloc: Global, list: &str, number: u32) -> Result<Vec<u8>, Memory>
    ensures { IfOk result (λ text. text.items ≡ bad_list_text_of list.now number) }
{
    let list = Part::Plain(join_words(alloc, &[list.as_bytes()])?);
    let number = Part::Plain(number_text(alloc, u64::from(number))?);
    let values = vec![in alloc; list, number]?;
    let notice = make_notice(alloc, Subject::Project, "badlist", values)?;
    notice_text(alloc, notice)
}
