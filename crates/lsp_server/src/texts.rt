//! The texts of responses.
ghost use Rattle.std.specs.Prelude.{◌≡◌, IfOk, Some};
ghost use Rattle.std.specs.Option.{option_map};
ghost use Rattle.requests.specs.Message.{id_words};
ghost use Rattle.lsp_answers.specs.Json.{id_data};
ghost use Rattle.lsp_answers.specs.Plain.{IsPlain};
ghost use Rattle.lsp_server.specs.Texts.{answered_text, code_for, encoding_for, failed_text, id_value, said_text, sentence_for};

use lsp_answers::{Answer, ErrorCode, Failure, response_text};
use lsp_session::{Fault, Reply};
use requests::Id;
use rotor_base::Memory;
use std::alloc::Global;

/// The response with an id that says what a session replies.
pub(crate) fn said_text(
    alloc: Global,
    id: Option<Id<&str>>,
    reply: Reply,
) -> Result<Vec<u8>, Memory>
    ensures { IfOk result (λ text. text.items ≡ said_text (option_map id_words id.entry) reply) }
{
    match reply {
        Reply::Started(client) => {
            let started = Answer::Started {
                encoding: encoding_for(client.encoding),
                prepares: client.prepare_support,
            };
            answered_text(alloc, id, &Ok(started))
        }
        Reply::Null => answered_text(alloc, id, &Ok(Answer::Nothing)),
        Reply::Failed(fault) => failed_text(alloc, id, code_for(fault), sentence_for(fault)),
    }
}

/// The response with an id that fails with a sentence alone.
pub(crate) fn failed_text(
    alloc: Global,
    id: Option<Id<&str>>,
    code: ErrorCode,
    sentence: &str,
) -> Result<Vec<u8>, Memory>
    ensures { IfOk result (λ text. text.items ≡ failed_text (option_map id_words id.entry) code sentence.now) }
{
    let failure = Failure {
        code,
        message: String::from_str(alloc, sentence)?,
        data: None,
    };
    answered_text(alloc, id, &Err(failure))
}

/// The response with an id that gives a reply.
pub(crate) fn answered_text(
    alloc: Global,
    id: Option<Id<&str>>,
    reply: &lsp_answers::Reply,
) -> Result<Vec<u8>, Memory>
    requires { IsPlain reply.now }
    ensures { IfOk result (λ text. text.items ≡ answered_text (option_map id_words id.entry) reply.now) }
{
    match id {
        Some(id) => {
            let id = response_id(alloc, id)?;
            response_text(alloc, Some(&id), reply)
        }
        None => response_text(alloc, None, reply),
    }
}

/// The id of a request, as the id of its response.
fn response_id(alloc: Global, id: Id<&str>) -> Result<lsp_answers::Id, Memory>
    ensures { IfOk result (λ own. id_data own ≡ id_value (Some (id_words id.entry))) }
{
    match id {
        Id::Number(number) => Ok(lsp_answers::Id::Number(number)),
        Id::Text(text) => Ok(lsp_answers::Id::Text(String::from_str(alloc, text)?)),
    }
}

/// How columns count, as the server says it.
fn encoding_for(encoding: requests::Encoding) -> lsp_answers::Encoding
    ensures { result ≡ encoding_for encoding }
{
    match encoding {
        requests::Encoding::Utf8 => lsp_answers::Encoding::Utf8,
        requests::Encoding::Utf16 => lsp_answers::Encoding::Utf16,
    }
}

/// The code of a fault.
fn code_for(fault: Fault) -> ErrorCode
    ensures { result ≡ code_for fault }
{
    match fault {
        Fault::NotJson => ErrorCode::Parse,
        Fault::Invalid => ErrorCode::InvalidRequest,
        Fault::NotStarted => ErrorCode::NotInitialized,
        Fault::UnknownMethod => ErrorCode::UnknownMethod,
        Fault::BadParameters => ErrorCode::BadParameters,
        Fault::TextsLost => ErrorCode::Refused,
    }
}

/// The sentence of a fault, for a person.
fn sentence_for(fault: Fault) -> &'static str
    ensures { result.now ≡ sentence_for fault }
{
    match fault {
        Fault::NotJson => "the message is no JSON",
        Fault::Invalid => "the message is no request that can be made now",
        Fault::NotStarted => "the request is made before initialize",
        Fault::UnknownMethod => "the server does not answer this method",
        Fault::BadParameters => "the parameters are not those of the method",
        Fault::TextsLost =>
            "an earlier message could not be read, so the texts of the editor are not known here; restart the server",
    }
}
