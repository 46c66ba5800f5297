//! The messages of targets, names, renamings, lists, batches and plans.
ghost use Rattle.std.specs.Prelude.{◌≤◌, length};

use crate::sentences::row::Row;
use messages::Message;
use refusal_words::{
    CutSource, a_use, bad_name, bad_plan, batch_line, blurred_link, blurred_use, capture, clash,
    explain_fixed, explain_grown, explain_nameless, explain_outside, foreign_value, list_line,
    long_batch, mislink, no_batch, no_line, no_list, no_member, no_path, no_source, no_token,
    no_token_at, no_value, operator, other_bytes, other_sources, pun_refused, same_name,
};
use rotor_base::{Memory, SourceFile};
use std::alloc::Global;

pub fn target_message(
    alloc: Global,
    name: &str,
    cuts: &[CutSource<'_>],
    row: &Row,
) -> Result<Option<Message>, Memory> {
    let message = match name {
        "use" => a_use(alloc, cuts, row.place(0), row.place(1))?,
        "novalue" => no_value(alloc, cuts, row.place(0))?,
        "foreign" => foreign_value(alloc, cuts, row.place(0))?,
        "operator" => operator(alloc, cuts, row.place(0))?,
        "nomember" => explain_nameless(alloc, no_member(alloc, row.word(0), row.word(1))?)?,
        "nopath" => explain_nameless(alloc, no_path(alloc, row.word(0))?)?,
        "nosource" => explain_nameless(alloc, no_source(alloc, row.word(0))?)?,
        "noline" => explain_nameless(alloc, no_line(alloc, row.word(0), row.number(0))?)?,
        "notoken" => {
            let count = u64::from(row.number(1));
            explain_nameless(alloc, no_token(alloc, row.word(0), row.number(0), count)?)?
        }
        "notokenat" => {
            let sentence = no_token_at(alloc, row.word(0), row.number(0), row.number(1))?;
            explain_nameless(alloc, sentence)?
        }
        "badname" => bad_name(alloc, row.word(0))?,
        "samename" => same_name(alloc, row.word(0))?,
        _ => return Ok(None),
    };
    Ok(Some(message))
}

/// The first number is the place of the message, and the last that of the renamed declaration.
pub fn renaming_message(
    alloc: Global,
    name: &str,
    cuts: &[CutSource<'_>],
    row: &Row,
) -> Result<Option<Message>, Memory> {
    let at = row.place(0);
    let decls = [row.place(4)];
    let message = match name {
        "outside" => explain_outside(alloc, cuts, at)?,
        "pun" => pun_refused(alloc, cuts, at)?,
        "blurreduse" => blurred_use(alloc, cuts, at, row.place(1))?,
        "blurredlink" => blurred_link(alloc, cuts, at, row.place(1))?,
        "grown" => explain_grown(alloc, cuts, 0)?,
        "clash" => clash(alloc, cuts, at, row.place(1), row.word(0))?,
        "capture" => capture(alloc, cuts, &decls, at, row.goal(0), row.goal(1))?,
        "mislink" => mislink(alloc, cuts, &decls, at, row.goal(0), row.goal(1))?,
        _ => return Ok(None),
    };
    Ok(Some(message))
}

pub fn command_message(
    alloc: Global,
    name: &str,
    source: &SourceFile,
    cuts: &[CutSource<'_>],
    row: &Row,
) -> Result<Option<Message>, Memory>
    requires { length source.now.bytes ≤ 10000 }
{
    let file = source.name.as_str().as_bytes();
    let bytes = source.bytes.as_slice();
    let message = match name {
        "badplan" => bad_plan(alloc)?,
        "nolist" => no_list(alloc, row.word(0))?,
        "listline" => list_line(alloc, file, bytes, row.number(0), row.number(1))?,
        "nobatch" => no_batch(alloc, row.word(0))?,
        "longbatch" => long_batch(alloc, row.word(0))?,
        "batchline" => batch_line(alloc, file, bytes, row.number(0), row.number(1))?,
        "sources" => other_sources(alloc, row.word(0))?,
        "bytes" => other_bytes(alloc, cuts, 0, row.number(0))?,
        "fixed" => explain_fixed(alloc, cuts, row.place(0))?,
        _ => return Ok(None),
    };
    Ok(Some(message))
}
