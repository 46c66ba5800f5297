//! Failures.
ghost use Rattle.std.specs.Prelude.{◌≡◌, IfOk, false, map};
ghost use Rattle.serde_json.specs.View.{view};
ghost use Rattle.serde_json.specs.Written.{has_float};
ghost use Rattle.lsp_answers.specs.Json.{noted_data};
ghost use Rattle.lsp_answers.specs.Plain.{IsPlainNote};
ghost use Rattle.report.specs.Pieces.{join};
ghost use Rattle.query_failures.specs.Failure.{IsFailure, IsNoted, IsSaid};

use lsp_answers::{ErrorCode, Failure};
use messages::join_words;
use rotor_base::Memory;
use serde_json::Value;
use std::alloc::Global;

/// The failure of a request that is refused, with a sentence of some words. Bytes that are no UTF-8 are U+FFFD in it.
/// The one error is want of memory.
pub fn plain_failure(alloc: Global, words: &[&[u8]]) -> Result<Failure, Memory>
    ensures { IfOk result (IsSaid ErrorCode.Refused (join (map (λ word. word.now) words.now))) }
{
    let text = join_words(alloc, words)?;
    failure(alloc, ErrorCode::Refused, text.as_slice(), None)
}

/// The failure of a request whose parameters are bad. The one error is want of memory.
pub fn parameter_failure(alloc: Global, text: &[u8]) -> Result<Failure, Memory>
    ensures { IfOk result (IsSaid ErrorCode.BadParameters text.now) }
{
    failure(alloc, ErrorCode::BadParameters, text, None)
}

/// The failure of a request that is refused, with what a program reads, which has no number that is no integer.
pub(crate) fn noted_failure(alloc: Global, text: &[u8], note: Value) -> Result<Failure, Memory>
    requires { has_float (view note) ≡ false }
    ensures { IfOk result (IsNoted text.now (view note)) }
{
    failure(alloc, ErrorCode::Refused, text, Some(note))
}

/// A failure.
fn failure(
    alloc: Global,
    code: ErrorCode,
    text: &[u8],
    note: Option<Value>,
) -> Result<Failure, Memory>
    requires { IsPlainNote note }
    ensures { IfOk result (IsFailure code text.now (noted_data note)) }
{
    Ok(Failure {
        code,
        message: String::from_utf8_lossy(alloc, text)?,
        data: note,
    })
}
