//! What is to be done about a message.
ghost use Rattle.std.specs.Prelude.{◌≡◌};
ghost use Rattle.requests.specs.Asked.{query_words, result_words};
ghost use Rattle.requests.specs.Spot.{spot_words};
ghost use Rattle.requests.specs.Message.{id_words, message_words};
ghost use Rattle.lsp_session.specs.Task.{document_task, reply_before, reply_when_ready, request_task, task_of, task_words};

use crate::state::State;
use requests::{Client, Id, Message, Notification, Query, Request, RequestError, Spot};

/// Why a message is answered with an error.
#[derive(Clone, Copy, Debug, PartialEq, Eq)]
pub enum Fault {
    /// It is no JSON: -32700.
    NotJson,
    /// It is no request, or none that may be made now: -32600.
    Invalid,
    /// It is a request before `initialize`: -32002.
    NotStarted,
    /// Its method is none that the server answers: -32601.
    UnknownMethod,
    /// Its parameters are not those of its method: -32602.
    BadParameters,
    /// An earlier message could not be read, so the texts of the editor are not known: -32803.
    TextsLost,
}

/// An answer.
#[derive(Clone, Copy, Debug, PartialEq, Eq)]
pub enum Reply {
    /// What the server can do for this client.
    Started(Client),
    Null,
    Failed(Fault),
}

/// What is to be done about a message.
#[derive(Clone, Copy, Debug)]
pub enum Task<T> {
    Silence,
    /// One response, with this id.
    Respond {
        id: Option<Id<T>>,
        reply: Reply,
    },
    /// One response with this id, to what is asked at a place of a document.
    Answer {
        id: Id<T>,
        spot: Spot<T>,
        query: Query<T>,
    },
    /// The process ends, with 0 after `shutdown` and else with 1.
    Exit {
        status: u8,
    },
}

/// What is to be done about a message in a state. `is_lost`: an earlier message could not be read.
pub(crate) fn task_of<'a>(state: State, is_lost: bool, message: Message<&'a str>) -> Task<&'a str>
    ensures { task_words result ≡ task_of state is_lost (message_words message.entry) }
{
    match message {
        Message::Response => Task::Silence,
        Message::Invalid { id } => Task::Respond {
            id,
            reply: Reply::Failed(Fault::Invalid),
        },
        Message::Notification(Notification::Exit) => Task::Exit {
            status: if state == State::Shut { 0 } else { 1 },
        },
        Message::Notification(_) => Task::Silence,
        Message::Request { id, request } => request_task(state, is_lost, id, request),
    }
}

/// What is to be done about a request.
fn request_task<'a>(
    state: State,
    is_lost: bool,
    id: Id<&'a str>,
    request: Result<Request<&'a str>, RequestError>,
) -> Task<&'a str>
    ensures { task_words result ≡ request_task state is_lost (id_words id.entry) (result_words request.entry) }
{
    match (state, request) {
        (State::Ready(_), Ok(Request::Document { spot, query })) => {
            document_task(is_lost, id, spot, query)
        }
        (State::Ready(_), request) => Task::Respond {
            id: Some(id),
            reply: reply_when_ready(request),
        },
        (State::New, request) => Task::Respond {
            id: Some(id),
            reply: reply_before(request),
        },
        (State::Shut, _) => Task::Respond {
            id: Some(id),
            reply: Reply::Failed(Fault::Invalid),
        },
    }
}

/// What is to be done about a query. If the texts are lost, it is not answered, and highlights are null.
fn document_task<'a>(
    is_lost: bool,
    id: Id<&'a str>,
    spot: Spot<&'a str>,
    query: Query<&'a str>,
) -> Task<&'a str>
    ensures { task_words result ≡ document_task is_lost (id_words id.entry) (spot_words spot.entry) (query_words query.entry) }
{
    if !is_lost {
        return Task::Answer { id, spot, query };
    }
    let reply = match query {
        Query::DocumentHighlight => Reply::Null,
        _ => Reply::Failed(Fault::TextsLost),
    };
    Task::Respond {
        id: Some(id),
        reply,
    }
}

/// The answer to a request before `initialize`.
fn reply_before(request: Result<Request<&str>, RequestError>) -> Reply
    ensures { result ≡ reply_before (result_words request.entry) }
{
    match request {
        Ok(Request::Initialize(client)) => Reply::Started(client),
        Err(RequestError::BadClient) => Reply::Failed(Fault::BadParameters),
        _ => Reply::Failed(Fault::NotStarted),
    }
}

/// The answer to a request after `initialize` that asks nothing at a place.
fn reply_when_ready(request: Result<Request<&str>, RequestError>) -> Reply
    ensures { result ≡ reply_when_ready (result_words request.entry) }
{
    match request {
        Ok(Request::Shutdown) => Reply::Null,
        Err(RequestError::UnknownMethod) => Reply::Failed(Fault::UnknownMethod),
        Err(RequestError::BadParameters) => Reply::Failed(Fault::BadParameters),
        _ => Reply::Failed(Fault::Invalid),
    }
}
