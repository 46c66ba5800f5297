//! How far a session is.
ghost use Rattle.std.specs.Prelude.{◌≡◌};
ghost use Rattle.requests.specs.Message.{message_words};
ghost use Rattle.lsp_session.specs.State.{state_after};

use requests::{Client, Message, Request};

/// How far a session is.
#[derive(Clone, Copy, Debug, PartialEq, Eq)]
pub enum State {
    /// No `initialize` was answered.
    New,
    /// `initialize` was answered to this client.
    Ready(Client),
    /// `shutdown` was answered.
    Shut,
}

/// The state after a message.
pub(crate) fn state_after(state: State, message: Message<&str>) -> State
    ensures { result ≡ state_after state (message_words message.entry) }
{
    let Message::Request { request, .. } = message else {
        return state;
    };
    match (state, request) {
        (State::New, Ok(Request::Initialize(client))) => State::Ready(client),
        (State::Ready(_), Ok(Request::Shutdown)) => State::Shut,
        _ => state,
    }
}
