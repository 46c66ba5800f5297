//! The JSON of what the server can do.

ghost use Rattle.std.specs.Prelude.{◌≡◌, IfOk};
ghost use Rattle.serde_json.specs.View.{view};
ghost use Rattle.lsp_answers.specs.Json.{capabilities_data, encoding_text, rename_data, server_data, started_data, started_of, sync_data};

use crate::answer::Encoding;
use crate::places::string_value;
use rotor_base::Memory;
use serde_json::{Value, json};
use std::alloc::{AllocError, Global};

/// The answer to `initialize`: what the server can do in this encoding, and its name.
pub(crate) fn started_value(
    alloc: Global,
    encoding: Encoding,
    prepares: bool,
) -> Result<Value, Memory>
    ensures { IfOk result (λ value. view value ≡ started_data encoding prepares) }
{
    let encoding = string_value(alloc, encoding_text(encoding))?;
    let rename = rename_value(alloc, prepares)?;
    let sync = sync_object(alloc)?;
    let capabilities = capabilities_object(alloc, encoding, rename, sync)?;
    let server = server_object(alloc)?;
    Ok(started_object(alloc, capabilities, server)?)
}

/// The name of an encoding of positions.
fn encoding_text(encoding: Encoding) -> &'static str
    ensures { result.now ≡ encoding_text encoding }
{
    match encoding {
        Encoding::Utf8 => "utf-8",
        Encoding::Utf16 => "utf-16",
    }
}

/// What says that the server renames.
fn rename_value(alloc: Global, prepares: bool) -> Result<Value, AllocError>
    ensures { IfOk result (λ value. view value ≡ rename_data prepares) }
{
    if prepares {
        json!(in alloc; { "prepareProvider": true })
    } else {
        Ok(Value::Bool(true))
    }
}

/// What says that the server takes whole texts.
fn sync_object(alloc: Global) -> Result<Value, AllocError>
    ensures { IfOk result (λ value. view value ≡ sync_data) }
{
    json!(in alloc; { "change": 1, "openClose": true })
}

/// The object of what the server can do.
fn capabilities_object(
    alloc: Global,
    encoding: Value,
    rename: Value,
    sync: Value,
) -> Result<Value, AllocError>
    ensures { IfOk result (λ value. view value ≡ capabilities_data (view encoding) (view rename) (view sync)) }
{
    json!(in alloc; {
        "definitionProvider": true,
        "documentHighlightProvider": true,
        "positionEncoding": encoding,
        "referencesProvider": true,
        "renameProvider": rename,
        "textDocumentSync": sync
    })
}

/// The name and the version of the server.
fn server_object(alloc: Global) -> Result<Value, AllocError>
    ensures { IfOk result (λ value. view value ≡ server_data) }
{
    json!(in alloc; { "name": "rotor_lsp", "version": "1" })
}

/// The object of what the server can do and of its name.
fn started_object(alloc: Global, capabilities: Value, server: Value) -> Result<Value, AllocError>
    ensures { IfOk result (λ value. view value ≡ started_of (view capabilities) (view server)) }
{
    json!(in alloc; { "capabilities": capabilities, "serverInfo": server })
}
