//! Requests.
ghost use Rattle.std.specs.Prelude.{◌≡◌, option_map};
ghost use Rattle.std.specs.Option.{option_copied};
ghost use Rattle.serde_json.specs.View.{view};
ghost use Rattle.requests.specs.Asked.{asked_spot, asked_there, bad_parameters, declarations_of, name_of, query_words, request_for, request_of, request_words, result_words, says_declarations};
ghost use Rattle.requests.specs.Spot.{spot_words};

use crate::client::{Client, client_of};
use crate::method::{Method, method_named};
use crate::spot::{Spot, spot_of};
use serde_json::Value;

/// A request that the server answers.
#[derive(Clone, Copy, Debug)]
pub enum Request<T> {
    Initialize(Client),
    Shutdown,
    /// What is asked at a place of a document.
    Document { spot: Spot<T>, query: Query<T> },
}

/// What is asked at a place of a document.
#[derive(Clone, Copy, Debug)]
pub enum Query<T> {
    PrepareRename,
    /// The new name is `None` if the request has none.
    Rename { name: Option<T> },
    References { with_declarations: bool },
    Definition,
    DocumentHighlight,
}

/// Why a request is not one of them.
#[derive(Clone, Copy, Debug, PartialEq, Eq)]
pub enum RequestError {
    /// Its method is none that the server answers.
    UnknownMethod,
    /// It is `initialize`, and its parameters are no object.
    BadClient,
    /// Its parameters name no place of a document.
    BadParameters,
}

/// What a request with this method asks.
pub(crate) fn request_of<'a>(
    method: &str,
    message: &'a Value,
) -> Result<Request<&'a str>, RequestError>
    ensures { result_words result ≡ request_of method.now (view message.now) }
{
    match method_named(method) {
        None => Err(RequestError::UnknownMethod),
        Some(method) => match request_for(method, message) {
            None => Err(bad_parameters(method)),
            Some(request) => Ok(request),
        },
    }
}

/// Why a request with this method is none.
fn bad_parameters(method: Method) -> RequestError
    ensures { result ≡ bad_parameters method }
{
    match method {
        Method::Initialize => RequestError::BadClient,
        _ => RequestError::BadParameters,
    }
}

/// What a request asks; `None` if its parameters are not those of its method.
fn request_for(method: Method, message: &Value) -> Option<Request<&str>>
    ensures { option_map request_words result ≡ request_for method (view message.now) }
{
    match method {
        Method::Initialize => {
            let client = client_of(message.get("params")?)?;
            Some(Request::Initialize(client))
        }
        Method::Shutdown => Some(Request::Shutdown),
        Method::PrepareRename => place_query(message, Query::PrepareRename),
        Method::Rename => {
            let name = name_of(message);
            place_query(message, Query::Rename { name })
        }
        Method::References => {
            let with_declarations = declarations_of(message);
            place_query(message, Query::References { with_declarations })
        }
        Method::Definition => place_query(message, Query::Definition),
        Method::DocumentHighlight => place_query(message, Query::DocumentHighlight),
    }
}

/// A query at the place that a request names; `None` if it names none.
fn place_query<'a>(message: &'a Value, query: Query<&'a str>) -> Option<Request<&'a str>>
    ensures { option_map request_words result ≡ asked_there (view message.now) (query_words query.entry) }
{
    let spot = read_spot(message)?;
    Some(Request::Document { spot, query })
}

/// The place that a request names.
fn read_spot(message: &Value) -> Option<Spot<&str>>
    ensures { option_map spot_words result ≡ asked_spot (view message.now) }
{
    spot_of(message.get("params")?)
}

/// The new name of a renaming.
fn name_of(message: &Value) -> Option<&str>
    ensures { option_copied result ≡ name_of (view message.now) }
{
    message.get("params")?.get("newName")?.as_str()
}

/// Whether references are asked with the declarations: if the request does not say so, they are.
fn declarations_of(message: &Value) -> bool
    ensures { result ≡ declarations_of (view message.now) }
{
    says_declarations(message).unwrap_or(true)
}

/// What a request says of the declarations.
fn says_declarations(message: &Value) -> Option<bool>
    ensures { result ≡ says_declarations (view message.now) }
{
    let context = message.get("params")?.get("context")?;
    context.get("includeDeclaration")?.as_bool()
}
