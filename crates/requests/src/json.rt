//! JSON, as the bytes of a message write it.
ghost use Rattle.std.specs.Prelude.{IfNone, IfOk, IfSome};
ghost use Rattle.serde_json.specs.Data.{Data};
ghost use Rattle.serde_json.specs.View.{view};
ghost use Rattle.requests.specs.Json.{Writes};

use rotor_base::Memory;
use serde_json::Value;
use std::alloc::Global;
use std::str;

/// The value that bytes write; `None` if they write none: they are no UTF-8 or no JSON, or nest deeper than 127 levels.
///
/// # Errors
///
/// `Memory` alone.
pub fn read_json(alloc: Global, bytes: &[u8]) -> Result<Option<Value>, Memory>
    ensures value { IfOk result (λ found. IfSome found (λ value. Writes bytes.now (view value))) }
    ensures none { IfOk result (λ found. IfNone found ((value : Data) → ¬ (Writes bytes.now value))) }
{
    let Ok(text) = str::from_utf8(bytes) else {
        return Ok(None);
    };
    match Value::from_str(alloc, text) {
        Ok(value) => Ok(Some(value)),
        Err(error) if error.is_memory() => Err(Memory),
        Err(_) => Ok(None),
    }
}
