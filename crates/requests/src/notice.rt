//! Notifications.
ghost use Rattle.std.specs.Prelude.{◌≡◌, option_map};
ghost use Rattle.std.specs.Option.{option_copied};
ghost use Rattle.serde_json.specs.View.{items_view, view};
ghost use Rattle.requests.specs.Notice.{change_of, change_words, last_change, notification_of, notification_words, text_of, version_of};
ghost use Rattle.requests.specs.Notice.{changed, closed, has_range, last_item, opened, whole_text};

use crate::spot::uri_of;
use serde_json::Value;

/// A change of a document.
#[derive(Clone, Copy, Debug)]
pub enum Change<T> {
    /// The whole new text.
    Full(T),
    /// A part of the text, or no text.
    Part,
}

/// A notification. A document's URI is spelled as the editor does; a version is `None` if the editor said none.
#[derive(Clone, Copy, Debug)]
pub enum Notification<T> {
    Exit,
    /// A document was opened. Its text is `None` if the editor said none.
    Open {
        uri: T,
        version: Option<i64>,
        text: Option<T>,
    },
    /// A document was changed. Only the last change counts.
    Change {
        uri: T,
        version: Option<i64>,
        last: Option<Change<T>>,
    },
    Close {
        uri: T,
    },
    /// Another one, or one without the URI of a document.
    Other,
}

/// The notification with this method.
pub(crate) fn notification_of<'a>(method: &str, message: &'a Value) -> Notification<&'a str>
    ensures { notification_words result ≡ notification_of method.now (view message.now) }
{
    match method {
        "exit" => Notification::Exit,
        "textDocument/didOpen" => read_opened(message).unwrap_or(Notification::Other),
        "textDocument/didChange" => read_changed(message).unwrap_or(Notification::Other),
        "textDocument/didClose" => read_closed(message).unwrap_or(Notification::Other),
        _ => Notification::Other,
    }
}

fn read_opened(message: &Value) -> Option<Notification<&str>>
    ensures { option_map notification_words result ≡ opened (view message.now) }
{
    let params = message.get("params")?;
    let uri = uri_of(params)?;
    let version = version_of(params);
    let text = text_of(params);
    Some(Notification::Open { uri, version, text })
}

fn read_changed(message: &Value) -> Option<Notification<&str>>
    ensures { option_map notification_words result ≡ changed (view message.now) }
{
    let params = message.get("params")?;
    let uri = uri_of(params)?;
    let version = version_of(params);
    let last = last_change(params);
    Some(Notification::Change { uri, version, last })
}

fn read_closed(message: &Value) -> Option<Notification<&str>>
    ensures { option_map notification_words result ≡ closed (view message.now) }
{
    let uri = uri_of(message.get("params")?)?;
    Some(Notification::Close { uri })
}

/// The version of the document.
fn version_of(params: &Value) -> Option<i64>
    ensures { result ≡ version_of (view params.now) }
{
    params.get("textDocument")?.get("version")?.as_i64()
}

/// The text of the document.
fn text_of(params: &Value) -> Option<&str>
    ensures { option_copied result ≡ text_of (view params.now) }
{
    params.get("textDocument")?.get("text")?.as_str()
}

/// The last change of a document.
fn last_change(params: &Value) -> Option<Change<&str>>
    ensures { option_map change_words result ≡ last_change (view params.now) }
{
    let changes = params.get("contentChanges")?.as_array()?;
    let last = last_item(changes)?;
    Some(change_of(last))
}

/// The last item of a list.
fn last_item(list: &[Value]) -> Option<&Value>
    ensures { option_map (λ value. view value.now) result ≡ last_item (items_view list.now) }
{
    list.last()
}

/// A change: the whole text, if it has a text and no range.
fn change_of(value: &Value) -> Change<&str>
    ensures { change_words result ≡ change_of (view value.now) }
{
    match whole_text(value) {
        Some(text) => Change::Full(text),
        None => Change::Part,
    }
}

/// The text of a change, if it has no range.
fn whole_text(value: &Value) -> Option<&str>
    ensures { option_copied result ≡ whole_text (view value.now) }
{
    if has_range(value) {
        return None;
    }
    value.get("text")?.as_str()
}

/// Whether a change has a range that is not null.
fn has_range(value: &Value) -> bool
    ensures { result ≡ has_range (view value.now) }
{
    match value.get("range") {
        Some(range) => !range.is_null(),
        None => false,
    }
}
