//! The reply to a command, and the replies that several commands share.
ghost use Rattle.std.specs.Prelude.{◌≡◌, ◌≢◌, [], IfOk, OnOk, map, string_bytes};
ghost use Rattle.rotor_base.specs.Files.{names_of};
ghost use Rattle.command_replies.specs.Said.{outcome_text, pending_reply, reply_of, silent_reply, unloaded_reply, usage_reply};

use crate::status::{Status, status_of};
use report::{json, pending_text, text};
use rotor_base::{LoadError, Memory, Outcome, Refusal, Row, SourceFile};
use std::alloc::Global;

/// An answer, before anything is written: the status, the writes in their order, and the text.
#[derive(Debug, Drop)]
pub struct Reply {
    pub status: Status,
    pub writes: Row<SourceFile>,
    pub text: Row<u8>,
}

/// A reply that writes nothing.
pub fn reply_of(alloc: Global, status: Status, text: Vec<u8>) -> Reply
    ensures { result ≡ reply_of status [] text.items }
{
    Reply {
        status,
        writes: Row::new(alloc),
        text: Row::from_vec(text),
    }
}

/// The reply with the status and the text of an outcome, in files of these names, which writes nothing. `Memory` is the
/// only error.
pub fn silent_reply(
    alloc: Global,
    as_json: bool,
    names: &[String],
    outcome: &Outcome,
) -> Result<Reply, Memory>
    ensures { IfOk result (λ reply. reply ≡ silent_reply as_json (map string_bytes names.now) outcome.now) }
{
    let text = outcome_text(alloc, as_json, names, outcome)?;
    Ok(reply_of(alloc, status_of(outcome), text))
}

/// The reply to a refusal, in files of these names. Want of memory has none, and is the only error.
pub fn refused_reply(
    alloc: Global,
    as_json: bool,
    names: &[String],
    refusal: Refusal,
) -> Result<Reply, Memory>
    ensures reply { IfOk result (λ reply. reply ≡ silent_reply as_json (map string_bytes names.now) (Outcome.Refused refusal)) }
    ensures other { OnOk result (refusal ≢ Refusal.Memory) }
{
    match refusal {
        Refusal::Memory => Err(Memory),
        other => silent_reply(alloc, as_json, names, &Outcome::Refused(other)),
    }
}

/// The reply to a folder or a list that is not taken as a project's files. `Memory` is the only error.
pub fn unloaded_reply(alloc: Global, as_json: bool, error: LoadError) -> Result<Reply, Memory>
    ensures { IfOk result (λ reply. reply ≡ unloaded_reply as_json error) }
{
    silent_reply(alloc, as_json, &[], &Outcome::NotLoaded(error))
}

/// The reply to a command that may not write, since the gate is open. `Memory` is the only error.
pub fn pending_reply(alloc: Global, as_json: bool) -> Result<Reply, Memory>
    ensures { IfOk result (λ reply. reply ≡ pending_reply as_json) }
{
    let text = pending_text(alloc, as_json)?;
    Ok(reply_of(alloc, Status::Project, text))
}

/// The reply to words of no form. `Memory` is the only error.
pub fn usage(alloc: Global) -> Result<Reply, Memory>
    ensures { IfOk result (λ reply. reply ≡ usage_reply) }
{
    silent_reply(alloc, false, &[], &Outcome::BadWords)
}

/// The text of an outcome, as lines or as JSON. `Memory` is the only error.
pub fn outcome_text(
    alloc: Global,
    as_json: bool,
    names: &[String],
    outcome: &Outcome,
) -> Result<Vec<u8>, Memory>
    ensures { IfOk result (λ text. text.items ≡ outcome_text as_json (map string_bytes names.now) outcome.now) }
{
    if as_json {
        json(alloc, names, outcome)
    } else {
        text(alloc, names, outcome)
    }
}

/// The names of the sources, which places number. `Memory` is the only error.
pub fn source_names(alloc: Global, files: &[SourceFile]) -> Result<Vec<String>, Memory>
    ensures { IfOk result (λ names. map string_bytes names.items ≡ names_of files.now) }
{
    let mut names = Vec::new(alloc);
    for file in files {
        names.push(String::from_str(alloc, file.name.as_str())?)?;
    }
    Ok(names)
}
