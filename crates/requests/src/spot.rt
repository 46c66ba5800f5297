//! A place of a document that a request names.
ghost use Rattle.std.specs.Prelude.{◌≡◌, option_map};
ghost use Rattle.serde_json.specs.View.{view};
ghost use Rattle.requests.specs.Spot.{count_at, position_of, spot_of, spot_words, uri_of};
ghost use Rattle.std.specs.Option.{option_copied};

use serde_json::Value;
use text_places::Position;

/// A place of a document: the document's URI, as the editor spells it, and a line and a column there.
#[derive(Clone, Copy, Debug)]
pub struct Spot<T> {
    pub uri: T,
    pub position: Position,
}

/// A line or a column is below this.
const COUNT_LIMIT: u64 = 1 << 31;

/// The place that a request's parameters name.
pub(crate) fn spot_of(params: &Value) -> Option<Spot<&str>>
    ensures { option_map spot_words result ≡ spot_of (view params.now) }
{
    let uri = uri_of(params)?;
    let position = position_of(params.get("position")?)?;
    Some(Spot { uri, position })
}

/// The URI of the document that parameters name.
pub(crate) fn uri_of(params: &Value) -> Option<&str>
    ensures { option_copied result ≡ uri_of (view params.now) }
{
    params.get("textDocument")?.get("uri")?.as_str()
}

/// A position that a value writes.
fn position_of(value: &Value) -> Option<Position>
    ensures { result ≡ position_of (view value.now) }
{
    let line = count_at(value, "line")?;
    let column = count_at(value, "character")?;
    Some(Position { line, column })
}

/// A line or a column, below 2 ^ 31.
fn count_at(position: &Value, name: &str) -> Option<u32>
    ensures { result ≡ count_at (view position.now) name.now }
{
    let count = position.get(name)?.as_u64()?;
    if count < COUNT_LIMIT {
        Some(count as u32)
    } else {
        None
    }
}
