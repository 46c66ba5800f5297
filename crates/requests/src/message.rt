//! Messages.
ghost use Rattle.std.specs.Prelude.{◌≡◌, option_map};
ghost use Rattle.std.specs.Option.{option_copied};
ghost use Rattle.serde_json.specs.View.{view};
ghost use Rattle.requests.specs.Message.{given_id, has_answer, id_of, id_words, is_response, lacks_method, message_of, message_words, method_of, named_message};

use crate::asked::{Request, RequestError, request_of};
use crate::notice::{Notification, notification_of};
use serde_json::Value;

/// The id of a request.
#[derive(Clone, Copy, Debug)]
pub enum Id<T> {
    Number(i64),
    Text(T),
}

/// A message of an editor.
#[derive(Clone, Copy, Debug)]
pub enum Message<T> {
    Request {
        id: Id<T>,
        request: Result<Request<T>, RequestError>,
    },
    Notification(Notification<T>),
    /// The answer to a request of the server, which asks nothing.
    Response,
    /// None of these. It has the id, if that is one of a request.
    Invalid {
        id: Option<Id<T>>,
    },
}

/// The message that a value writes.
pub fn message_of(value: &Value) -> Message<&str>
    ensures { message_words result ≡ message_of (view value.now) }
{
    if is_response(value) {
        return Message::Response;
    }
    match method_of(value) {
        Some(method) => named_message(method, value),
        None => Message::Invalid {
            id: given_id(value),
        },
    }
}

/// The message with this method.
fn named_message<'a>(method: &str, value: &'a Value) -> Message<&'a str>
    ensures { message_words result ≡ named_message method.now (view value.now) }
{
    let Some(id) = value.get("id") else {
        return Message::Notification(notification_of(method, value));
    };
    match id_of(id) {
        Some(id) => Message::Request {
            id,
            request: request_of(method, value),
        },
        None => Message::Invalid { id: None },
    }
}

/// Whether a message has no method, and a result or an error.
fn is_response(value: &Value) -> bool
    ensures { result ≡ is_response (view value.now) }
{
    lacks_method(value) && has_answer(value)
}

fn has_answer(value: &Value) -> bool
    ensures { result ≡ has_answer (view value.now) }
{
    value.get("result").is_some() || value.get("error").is_some()
}

/// Whether a message has no method, or null in its place.
fn lacks_method(value: &Value) -> bool
    ensures { result ≡ lacks_method (view value.now) }
{
    match value.get("method") {
        Some(method) => method.is_null(),
        None => true,
    }
}

fn method_of(value: &Value) -> Option<&str>
    ensures { option_copied result ≡ method_of (view value.now) }
{
    value.get("method")?.as_str()
}

/// The id of a message, if it has one that a request may have.
fn given_id(value: &Value) -> Option<Id<&str>>
    ensures { option_map id_words result ≡ given_id (view value.now) }
{
    id_of(value.get("id")?)
}

/// The id that a value writes.
fn id_of(value: &Value) -> Option<Id<&str>>
    ensures { option_map id_words result ≡ id_of (view value.now) }
{
    match value.as_str() {
        Some(text) => Some(Id::Text(text)),
        None => {
            let number = value.as_i64()?;
            Some(Id::Number(number))
        }
    }
}
