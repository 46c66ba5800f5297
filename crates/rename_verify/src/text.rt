//! The text of a verdict.

ghost use Rattle.std.specs.Prelude.{◌≡◌, IfOk, map, string_bytes};
ghost use Rattle.rename_verify.specs.Text.{verdict_text, why_text, yes_text};

use crate::verdict::{Change, Verdict, Why};
use rename_parts::refusal_of_fault;
use report::{
    changed_line, fixed_text, other_byte_text, other_sources_text, push_line, text, verified_line,
};
use rotor_base::{Memory, Outcome};
use std::alloc::Global;

/// The text of a verdict: `verified N` and a line for each changed binder, or the line that says why not. `names` are
/// those of the old sources, by their numbers; a number past them has the empty name. `Memory` is the only error.
pub fn verdict_text(alloc: Global, names: &[String], verdict: &Verdict) -> Result<Vec<u8>, Memory>
    ensures { IfOk result (λ bytes. bytes.items ≡ verdict_text (map string_bytes names.now) verdict.now) }
{
    match verdict {
        Verdict::Yes(changes) => yes_text(alloc, names, changes.as_slice()),
        Verdict::No(why) => why_text(alloc, names, why),
    }
}

/// The lines of the binders that take other names.
fn yes_text(alloc: Global, names: &[String], changes: &[Change]) -> Result<Vec<u8>, Memory>
    ensures { IfOk result (λ bytes. bytes.items ≡ yes_text (map string_bytes names.now) changes.now) }
{
    let mut bytes = Vec::new(alloc);
    let count = verified_line(alloc, changes.len() as u64)?;
    push_line(&mut bytes, &[count.as_slice()])?;
    for change in changes {
        let line = changed_line(alloc, names, change.0, &change.1, &change.2)?;
        push_line(&mut bytes, &[line.as_slice()])?;
    }
    Ok(bytes)
}

/// The line that says why a project is no valid respelling.
fn why_text(alloc: Global, names: &[String], why: &Why) -> Result<Vec<u8>, Memory>
    ensures { IfOk result (λ bytes. bytes.items ≡ why_text (map string_bytes names.now) why.now) }
{
    match why {
        Why::Sources { name } => other_sources_text(alloc, name),
        Why::Bytes { file, offset } => other_byte_text(alloc, names, *file, *offset),
        Why::Fixed { at } => fixed_text(alloc, names, *at),
        Why::Broken(fault) => text(alloc, names, &Outcome::Refused(refusal_of_fault(*fault))),
    }
}
