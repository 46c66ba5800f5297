//! The rows of the kind `sentence`. Each prints the message that it names, as lines and as JSON. A row is
//! `MESSAGE|FILE|TEXT|PLACES|WORDS`: a source with its text, percent-encoded; numbers of its tokens, or offsets, or
//! lines and columns; and percent-encoded words, separated by blanks.

mod row;
mod sources;
mod targets;

ghost use Rattle.std.specs.Prelude.{◌≤◌, length};

use crate::texts::MOST;
use messages::{Message, json_text, push_message};
use refusal_words::cut_source;
use rotor_base::{Memory, SourceFile};
use row::Row;
use row_pieces::decode_source;
use sources::{folder_message, source_message};
use std::alloc::Global;
use targets::{command_message, renaming_message, target_message};

/// What a row prints.
pub fn answer_row(alloc: Global, row: &[&str]) -> Result<String, Memory> {
    let [name, file, text, places, words] = row else {
        return Ok(String::from_str(alloc, "no row\n")?);
    };
    let source = decode_source(alloc, file, text)?;
    if source.bytes.as_slice().len() > MOST {
        return Ok(String::from_str(alloc, "too long\n")?);
    }
    let row = Row::new(alloc, places, words)?;
    match find_message(alloc, name, &source, &row)? {
        Some(message) => message_answer(alloc, message),
        None => Ok(String::from_str(alloc, "no message\n")?),
    }
}

/// The message of a name over a source.
fn find_message(
    alloc: Global,
    name: &str,
    source: &SourceFile,
    row: &Row,
) -> Result<Option<Message>, Memory>
    requires { length source.now.bytes ≤ 10000 }
{
    let mut cuts = Vec::new(alloc);
    cuts.push(cut_source(alloc, source)?)?;
    if let Some(message) = folder_message(alloc, name, source.bytes.as_slice(), row)? {
        return Ok(Some(message));
    }
    if let Some(message) = source_message(alloc, name, &cuts, row)? {
        return Ok(Some(message));
    }
    if let Some(message) = target_message(alloc, name, &cuts, row)? {
        return Ok(Some(message));
    }
    if let Some(message) = renaming_message(alloc, name, &cuts, row)? {
        return Ok(Some(message));
    }
    command_message(alloc, name, source, &cuts, row)
}

/// A message as lines, and as JSON.
pub fn message_answer(alloc: Global, message: Message) -> Result<String, Memory> {
    let mut messages = Vec::new(alloc);
    messages.push(message)?;
    let mut text = Vec::new(alloc);
    for message in &messages {
        push_message(alloc, &mut text, message)?;
    }
    text.extend_from_slice(&json_text(alloc, &messages)?)?;
    Ok(String::from_utf8_lossy(alloc, &text)?)
}
