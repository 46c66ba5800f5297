//! What a client can do.
ghost use Rattle.std.specs.Prelude.{◌≡◌, option_map};
ghost use Rattle.serde_json.specs.View.{items_view, view};
ghost use Rattle.requests.specs.Client.{capability, client_of, encoding_of, encodings, first_encoding, is_set, known_encoding};

use serde_json::Value;

/// How the columns of positions are counted.
#[derive(Clone, Copy, Debug, PartialEq, Eq)]
pub enum Encoding {
    Utf8,
    Utf16,
}

/// What a client can do, of what the server asks.
#[derive(Clone, Copy, Debug, PartialEq, Eq)]
pub struct Client {
    /// The first of the client's encodings that the server has; UTF-16 if there is none.
    pub encoding: Encoding,
    /// It takes edits of documents with their versions.
    pub document_changes: bool,
    /// It asks before a renaming what would be renamed.
    pub prepare_support: bool,
}

/// What the client of some parameters can do; `None` if they are no object.
pub(crate) fn client_of(params: &Value) -> Option<Client>
    ensures { result ≡ client_of (view params.now) }
{
    if !params.is_object() {
        return None;
    }
    Some(Client {
        encoding: encoding_of(params),
        document_changes: is_set(params, "workspace", "workspaceEdit", "documentChanges"),
        prepare_support: is_set(params, "textDocument", "rename", "prepareSupport"),
    })
}

/// Whether a capability of the client is `true`.
fn is_set(params: &Value, part: &str, group: &str, name: &str) -> bool
    ensures { result ≡ is_set (view params.now) part.now group.now name.now }
{
    capability(params, part, group, name) == Some(true)
}

/// A capability of the client that is `true` or `false`.
fn capability(params: &Value, part: &str, group: &str, name: &str) -> Option<bool>
    ensures { result ≡ capability (view params.now) part.now group.now name.now }
{
    let capabilities = params.get("capabilities")?;
    capabilities.get(part)?.get(group)?.get(name)?.as_bool()
}

/// The first of the client's encodings that the server has; UTF-16 if there is none.
fn encoding_of(params: &Value) -> Encoding
    ensures { result ≡ encoding_of (view params.now) }
{
    match encodings(params) {
        Some(list) => first_encoding(list),
        None => Encoding::Utf16,
    }
}

/// The list of the client's encodings.
fn encodings(params: &Value) -> Option<&Vec<Value>>
    ensures { option_map (λ list. items_view list.now.items) result ≡ encodings (view params.now) }
{
    let capabilities = params.get("capabilities")?;
    capabilities
        .get("general")?
        .get("positionEncodings")?
        .as_array()
}

/// The first encoding of a list that the server has; UTF-16 if there is none.
fn first_encoding(list: &[Value]) -> Encoding
    ensures { result ≡ first_encoding (items_view list.now) }
{
    for value in list {
        if let Some(encoding) = known_encoding(value) {
            return encoding;
        }
    }
    Encoding::Utf16
}

/// The encoding that a value names, if the server has it.
fn known_encoding(value: &Value) -> Option<Encoding>
    ensures { result ≡ known_encoding (view value.now) }
{
    match value.as_str()? {
        "utf-8" => Some(Encoding::Utf8),
        "utf-16" => Some(Encoding::Utf16),
        _ => None,
    }
}
