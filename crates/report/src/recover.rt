//! The lines of `recover`, and of a command that an open gate stops.
ghost use Rattle.std.specs.Prelude.{◌≡◌, IfOk};
ghost use Rattle.report.specs.Recover.{bad_plan_text as bad_plan_text_of, nothing_text as nothing_text_of, pending_text as pending_text_of, recovered_text as recovered_text_of};

use crate::compact::notice_json;
use crate::lines::number_line;
use crate::notice::{Subject, make_notice};
use crate::plain::{line_text, notice_text};
use rotor_base::Memory;
use std::alloc::Global;

/// The text of a recovery that writes so many files, `recovered N`. The one error is want of memory.
pub fn recovered_text(alloc: Global, files: u64) -> Result<Vec<u8>, Memory>
    ensures { IfOk result (λ text. text.items ≡ recovered_text_of files) }
{
    let line = number_line(alloc, "recovered", files)?;
    line_text(alloc, &[line.as_slice()])
}

/// The text of a recovery with the gate not open, `nothing to recover`. The one error is want of memory.
pub fn nothing_text(alloc: Global) -> Result<Vec<u8>, Memory>
    ensures { IfOk result (λ text. text.items ≡ nothing_text_of) }
{
    line_text(alloc, &[b"nothing to recover"])
}

/// The text of a recovery without a plan, `project: badplan`. The one error is want of memory.
pub fn bad_plan_text(alloc: Global) -> Result<Vec<u8>, Memory>
    ensures { IfOk result (λ text. text.items ≡ bad_plan_text_of) }
{
    let notice = make_notice(alloc, Subject::Project, "badplan", Vec::new(alloc))?;
    notice_text(alloc, notice)
}

/// The text of a command that may not write, since the gate is open: `project: pending`, or its JSON. The one error is
/// want of memory.
pub fn pending_text(alloc: Global, as_json: bool) -> Result<Vec<u8>, Memory>
    ensures { IfOk result (λ text. text.items ≡ pending_text_of as_json) }
{
    let notice = make_notice(alloc, Subject::Project, "pending", Vec::new(alloc))?;
    if as_json {
        notice_json(alloc, notice)
    } else {
        notice_text(alloc, notice)
    }
}
