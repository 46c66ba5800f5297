//! What follows from a message.
ghost use Rattle.std.specs.Prelude.{◌≡◌, None, IfOk};
ghost use Rattle.std.specs.Option.{option_map};
ghost use Rattle.serde_json.specs.View.{view};
ghost use Rattle.requests.specs.Json.{Writes};
ghost use Rattle.requests.specs.Message.{id_words, message_words};
ghost use Rattle.lsp_server.specs.Does.{one_text};
ghost use Rattle.lsp_server.specs.Follows.{FollowsFrom, asked_id, starved_texts};

use crate::answers::Answers;
use crate::task::{Turn, do_task, starve};
use lsp_session::Session;
use requests::{Id, Message, message_of, read_json};
use rotor_base::Memory;
use serde_json::Value;
use std::alloc::Global;

/// Takes the body of a message. If there is no memory for it, the texts of the editor are lost, since it may have
/// changed them.
pub(crate) fn take_message<A: Answers>(
    alloc: Global,
    answers: &mut A,
    session: &mut Session,
    body: &[u8],
) -> Result<Turn, Memory>
    ensures follows { IfOk result (λ turn. FollowsFrom A.replies (A.content answers.old) session.old body.now (one_text turn.response) turn.status session.new) }
    ensures kept { A.content answers.new ≡ A.content answers.old }
{
    match read_json(alloc, body) {
        Ok(Some(value)) => take_value(alloc, answers, session, body, &value),
        Ok(None) => {
            let task = session.lose();
            do_task(alloc, answers, session, task)
        }
        Err(_) => {
            let _task = session.lose();
            starve(alloc, None)
        }
    }
}

/// Takes the value that the body of a message writes.
fn take_value<A: Answers>(
    alloc: Global,
    answers: &mut A,
    session: &mut Session,
    body: &[u8],
    value: &Value,
) -> Result<Turn, Memory>
    requires { Writes body.now (view value.now) }
    ensures follows { IfOk result (λ turn. FollowsFrom A.replies (A.content answers.old) session.old body.now (one_text turn.response) turn.status session.new) }
    ensures kept { A.content answers.new ≡ A.content answers.old }
{
    let _written = body;
    match session.take(alloc, value) {
        Ok(task) => do_task(alloc, answers, session, task),
        Err(_) => {
            let _task = session.lose();
            starve_message(alloc, message_of(value))
        }
    }
}

/// Responds to a message that there is no memory, if it is to have a response.
fn starve_message(alloc: Global, message: Message<&str>) -> Result<Turn, Memory>
    ensures response { IfOk result (λ turn. one_text turn.response ≡ starved_texts (asked_id (message_words message.entry))) }
    ensures open { IfOk result (λ turn. turn.status ≡ None) }
{
    match asked_id(message) {
        Some(id) => starve(alloc, id),
        None => Ok(Turn {
            response: None,
            status: None,
        }),
    }
}

/// The id of the response that a message is to have, if it is to have one.
fn asked_id(message: Message<&str>) -> Option<Option<Id<&str>>>
    ensures { option_map (option_map id_words) result ≡ asked_id (message_words message.entry) }
{
    match message {
        Message::Request { id, .. } => Some(Some(id)),
        Message::Invalid { id } => Some(id),
        Message::Notification(_) | Message::Response => None,
    }
}
