//! Queries that are refused.
ghost use Rattle.std.specs.Prelude.{◌≡◌};
ghost use Rattle.lsp_answers.specs.Plain.{IsPlain, IsPlainNote};
ghost use Rattle.requests.specs.Asked.{query_words};
ghost use Rattle.document_answers.specs.Refused.{IsRefused};

use lsp_answers::{Answer, Failure, Reply};
use requests::Query;

/// The reply to a query that is refused: the failure. An editor asks for highlights by itself, so of them there is
/// none.
pub(crate) fn refused_reply(query: Query<&str>, failure: Failure) -> Reply
    requires { IsPlainNote failure.«data» }
    ensures refused { IsRefused (query_words query.entry) (λ given. given ≡ failure) result }
    ensures plain { IsPlain result }
{
    match query {
        Query::DocumentHighlight => Ok(Answer::Nothing),
        _ => Err(failure),
    }
}
