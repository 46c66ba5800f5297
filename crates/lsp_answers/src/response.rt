//! The JSON of a response.

ghost use Rattle.std.specs.Prelude.{◌≡◌, IfOk};
ghost use Rattle.std.specs.Option.{option_copied};
ghost use Rattle.serde_json.specs.View.{view};
ghost use Rattle.lsp_answers.specs.Json.{answer_data, code_number, failed_of, failure_data, failure_of, id_data, noted_of, optional_id_data, response_data, response_text, succeeded_of};
ghost use Rattle.lsp_answers.specs.Plain.{IsPlain};

use crate::answer::{Answer, ErrorCode, Failure, Id, Reply};
use crate::changes::{changes_value, versioned_value, word_value};
use crate::places::{highlights_value, location_value, locations_value, string_value};
use crate::started::started_value;
use rotor_base::Memory;
use serde_json::{Value, json};
use std::alloc::{AllocError, Global};

/// The JSON of a response, in compact form with its keys in byte order. A message whose id cannot be read has the id
/// `null`. The numbers of a failure's data are integers. `Memory` is the only error.
pub fn response_text(alloc: Global, id: Option<&Id>, reply: &Reply) -> Result<Vec<u8>, Memory>
    requires { IsPlain reply.now }
    ensures { IfOk result (λ text. text.items ≡ response_text (option_copied id.entry) reply.now) }
{
    let value = response_value(alloc, id, reply)?;
    Ok(value.to_vec(alloc)?)
}

/// The object of a response.
fn response_value(alloc: Global, id: Option<&Id>, reply: &Reply) -> Result<Value, Memory>
    ensures { IfOk result (λ value. view value ≡ response_data (option_copied id.entry) reply.now) }
{
    let id = optional_id_value(alloc, id)?;
    match reply {
        Ok(answer) => {
            let answer = answer_value(alloc, answer)?;
            Ok(succeeded_object(alloc, id, answer)?)
        }
        Err(failure) => {
            let error = failure_value(alloc, failure)?;
            Ok(failed_object(alloc, error, id)?)
        }
    }
}

/// The object of a response with an answer.
fn succeeded_object(alloc: Global, id: Value, answer: Value) -> Result<Value, AllocError>
    ensures { IfOk result (λ value. view value ≡ succeeded_of (view id) (view answer)) }
{
    json!(in alloc; { "id": id, "jsonrpc": "2.0", "result": answer })
}

/// The object of a response with an error.
fn failed_object(alloc: Global, error: Value, id: Value) -> Result<Value, AllocError>
    ensures { IfOk result (λ value. view value ≡ failed_of (view error) (view id)) }
{
    json!(in alloc; { "error": error, "id": id, "jsonrpc": "2.0" })
}

/// The id of a response.
fn optional_id_value(alloc: Global, id: Option<&Id>) -> Result<Value, Memory>
    ensures { IfOk result (λ value. view value ≡ optional_id_data (option_copied id.entry)) }
{
    match id {
        Some(id) => id_value(alloc, id),
        None => Ok(Value::Null),
    }
}

/// The JSON of an id: a number or a string.
fn id_value(alloc: Global, id: &Id) -> Result<Value, Memory>
    ensures { IfOk result (λ value. view value ≡ id_data id.now) }
{
    match id {
        Id::Number(number) => Ok(Value::from(*number)),
        Id::Text(text) => string_value(alloc, text.as_str()),
    }
}

/// The value of an answer.
fn answer_value(alloc: Global, answer: &Answer) -> Result<Value, Memory>
    ensures { IfOk result (λ value. view value ≡ answer_data answer.now) }
{
    match answer {
        Answer::Nothing => Ok(Value::Null),
        Answer::Started { encoding, prepares } => started_value(alloc, *encoding, *prepares),
        Answer::Word { range, word } => word_value(alloc, *range, word.as_bytes()),
        Answer::Changes(documents) => changes_value(alloc, documents),
        Answer::VersionedChanges(documents) => versioned_value(alloc, documents),
        Answer::Definition(location) => location_value(alloc, location),
        Answer::References(locations) => locations_value(alloc, locations),
        Answer::Highlights(highlights) => highlights_value(alloc, highlights),
    }
}

/// The object of a failure.
fn failure_value(alloc: Global, failure: &Failure) -> Result<Value, Memory>
    ensures { IfOk result (λ value. view value ≡ failure_data failure.now) }
{
    let message = string_value(alloc, failure.message.as_str())?;
    let code = code_number(failure.code);
    match &failure.data {
        Some(data) => {
            let noted = data.clone()?;
            Ok(noted_object(alloc, code, noted, message)?)
        }
        None => Ok(failure_object(alloc, code, message)?),
    }
}

/// The object of an error with data.
fn noted_object(alloc: Global, code: i64, noted: Value, message: Value) -> Result<Value, AllocError>
    ensures { IfOk result (λ value. view value ≡ noted_of code (view noted) (view message)) }
{
    json!(in alloc; { "code": code, "data": noted, "message": message })
}

/// The object of an error without data.
fn failure_object(alloc: Global, code: i64, message: Value) -> Result<Value, AllocError>
    ensures { IfOk result (λ value. view value ≡ failure_of code (view message)) }
{
    json!(in alloc; { "code": code, "message": message })
}

/// The number of an error code.
fn code_number(code: ErrorCode) -> i64
    ensures { result ≡ code_number code }
{
    match code {
        ErrorCode::Parse => -32700,
        ErrorCode::InvalidRequest => -32600,
        ErrorCode::UnknownMethod => -32601,
        ErrorCode::BadParameters => -32602,
        ErrorCode::Internal => -32603,
        ErrorCode::NotInitialized => -32002,
        ErrorCode::Refused => -32803,
    }
}
