//! What follows from a task: the response, and the end of the process.
ghost use Rattle.std.specs.Prelude.{◌≡◌, [], ◌∷◌, None, Some, IfOk};
ghost use Rattle.std.specs.Option.{option_map};
ghost use Rattle.lsp_session.specs.Session.{state_of};
ghost use Rattle.lsp_session.specs.Task.{task_words};
ghost use Rattle.requests.specs.Asked.{query_words};
ghost use Rattle.requests.specs.Message.{id_words};
ghost use Rattle.requests.specs.Spot.{spot_words};
ghost use Rattle.lsp_server.specs.Does.{AsksWhenReady, Does, IsAnswered, IsReady, IsResponse, one_text};
ghost use Rattle.lsp_server.specs.Texts.{said_text, starved_text};

use crate::answers::Answers;
use crate::texts::{answered_text, failed_text, said_text};
use lsp_answers::ErrorCode;
use lsp_session::{Reply, Session, State, Task};
use requests::{Client, Id, Query, Spot};
use rotor_base::Memory;
use std::alloc::Global;

/// What follows from a message.
#[derive(Drop)]
pub(crate) struct Turn {
    /// The one response, if there is one.
    pub response: Option<Vec<u8>>,
    /// The status of the process, if it ends.
    pub status: Option<u8>,
}

/// Does a task.
pub(crate) fn do_task<A: Answers>(
    alloc: Global,
    answers: &mut A,
    session: &Session,
    task: Task<&str>,
) -> Result<Turn, Memory>
    requires { AsksWhenReady (state_of session.now) (task_words task) }
    ensures done { IfOk result (λ turn. Does A.replies (A.content answers.old) session.now (task_words task.entry) (one_text turn.response) turn.status) }
    ensures kept { A.content answers.new ≡ A.content answers.old }
{
    match task {
        Task::Silence => Ok(Turn {
            response: None,
            status: None,
        }),
        Task::Respond { id, reply } => respond(alloc, id, reply),
        Task::Answer { id, spot, query } => answer(alloc, answers, session, id, spot, query),
        Task::Exit { status } => Ok(Turn {
            response: None,
            status: Some(status),
        }),
    }
}

/// Responds what a session replies.
fn respond(alloc: Global, id: Option<Id<&str>>, reply: Reply) -> Result<Turn, Memory>
    ensures response { IfOk result (λ turn. IsResponse (option_map id_words id.entry) (said_text (option_map id_words id.entry) reply) (one_text turn.response)) }
    ensures open { IfOk result (λ turn. turn.status ≡ None) }
{
    match said_text(alloc, id, reply) {
        Ok(text) => Ok(go_on(text)),
        Err(_) => starve(alloc, id),
    }
}

/// Responds to a query.
fn answer<A: Answers>(
    alloc: Global,
    answers: &mut A,
    session: &Session,
    id: Id<&str>,
    spot: Spot<&str>,
    query: Query<&str>,
) -> Result<Turn, Memory>
    requires { IsReady (state_of session.now) }
    ensures response { IfOk result (λ turn. IsAnswered A.replies (A.content answers.old) session.now (id_words id.entry) (spot_words spot.entry) (query_words query.entry) (one_text turn.response)) }
    ensures open { IfOk result (λ turn. turn.status ≡ None) }
    ensures kept { A.content answers.new ≡ A.content answers.old }
{
    let client = client_of(session.state());
    let Ok(reply) = answers.answer(alloc, client, session.workspace(), spot, query) else {
        return starve(alloc, Some(id));
    };
    match answered_text(alloc, Some(id), &reply) {
        Ok(text) => Ok(go_on(text)),
        Err(_) => starve(alloc, Some(id)),
    }
}

/// The client of a session that is ready.
fn client_of(state: State) -> Client
    requires { IsReady state }
    ensures { state ≡ State.Ready result }
{
    match state {
        State::Ready(client) => client,
        State::New | State::Shut => unreachable!(),
    }
}

/// Responds that there is no memory.
pub(crate) fn starve(alloc: Global, id: Option<Id<&str>>) -> Result<Turn, Memory>
    ensures response { IfOk result (λ turn. one_text turn.response ≡ starved_text (option_map id_words id.entry) ∷ []) }
    ensures open { IfOk result (λ turn. turn.status ≡ None) }
{
    let text = failed_text(alloc, id, ErrorCode::Internal, "out of memory")?;
    Ok(go_on(text))
}

/// The turn of a response behind which the session goes on.
fn go_on(text: Vec<u8>) -> Turn
    ensures response { one_text result.response ≡ text.items ∷ [] }
    ensures open { result.status ≡ None }
{
    Turn {
        response: Some(text),
        status: None,
    }
}
