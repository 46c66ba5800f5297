//! The messages of folders and sources.
ghost use Rattle.std.specs.Prelude.{◌≤◌, length};

use crate::sentences::row::Row;
use messages::Message;
use refusal_words::{
    CutSource, double_unit, duplicate, explain_heavy, explain_unmatched, explain_unread,
    form_refused, large_file, large_sum, lex_refused, long_name, missing_unit, on_cycle,
    repeated_unit, too_deep, too_many, unknown_unit,
};
use rotor_base::{FormKind, Memory};
use std::alloc::Global;

pub fn folder_message(
    alloc: Global,
    name: &str,
    bytes: &[u8],
    row: &Row,
) -> Result<Option<Message>, Memory>
    requires { length bytes.now ≤ 10000 }
{
    let message = match name {
        "toomany" => too_many(alloc, u64::from(row.number(0)))?,
        "largefile" => large_file(alloc, row.word(0))?,
        "largesum" => large_sum(alloc, row.word(0))?,
        "doubleunit" => double_unit(alloc, row.word(0), row.word(1), row.word(2))?,
        "unknownunit" => unknown_unit(alloc, bytes, row.number(0), row.number(1))?,
        "repeatedunit" => repeated_unit(alloc, bytes, row.number(0), row.number(1))?,
        "missingunit" => missing_unit(alloc, row.word(0))?,
        _ => return Ok(None),
    };
    Ok(Some(message))
}

pub fn source_message(
    alloc: Global,
    name: &str,
    cuts: &[CutSource<'_>],
    row: &Row,
) -> Result<Option<Message>, Memory> {
    let message = match name {
        "lex" => lex_refused(alloc, cuts, 0, row.number(0))?,
        "longname" => long_name(alloc, cuts, 0, row.number(0))?,
        "form" => form_refused(alloc, cuts, row.place(0), form_of(row.number(1)))?,
        "deep" => too_deep(alloc, cuts, row.place(0))?,
        "unread" => explain_unread(alloc, cuts, 0)?,
        "oncycle" => on_cycle(alloc, row.word(0))?,
        "duplicate" => duplicate(alloc, cuts, row.place(0), row.place(1))?,
        "heavy" => explain_heavy(alloc, cuts, row.place(0))?,
        "unmatched" => explain_unmatched(alloc, cuts, row.place(0))?,
        _ => return Ok(None),
    };
    Ok(Some(message))
}

fn form_of(number: u32) -> FormKind {
    match number {
        0 => FormKind::Object,
        1 => FormKind::Package,
        2 => FormKind::RecModule,
        3 => FormKind::AbsModType,
        4 => FormKind::WithModule,
        5 => FormKind::LocalModule,
        6 => FormKind::OpenStruct,
        7 => FormKind::Extension,
        8 => FormKind::BindOp,
        9 => FormKind::Hash,
        _ => FormKind::AmpOr,
    }
}
