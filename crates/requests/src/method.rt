//! The methods of requests.
ghost use Rattle.std.specs.Prelude.{◌≡◌};
ghost use Rattle.requests.specs.Method.{method_named};

/// A method of a request that the server answers.
#[derive(Clone, Copy, Debug, PartialEq, Eq)]
pub(crate) enum Method {
    Initialize,
    Shutdown,
    PrepareRename,
    Rename,
    References,
    Definition,
    DocumentHighlight,
}

/// The method of this name; `None` for every other name.
pub(crate) fn method_named(name: &str) -> Option<Method>
    ensures { result ≡ method_named name.now }
{
    match name {
        "initialize" => Some(Method::Initialize),
        "shutdown" => Some(Method::Shutdown),
        "textDocument/prepareRename" => Some(Method::PrepareRename),
        "textDocument/rename" => Some(Method::Rename),
        "textDocument/references" => Some(Method::References),
        "textDocument/definition" => Some(Method::Definition),
        "textDocument/documentHighlight" => Some(Method::DocumentHighlight),
        _ => None,
    }
}
