//! What is said.
ghost use Rattle.std.specs.Prelude.{◌≡◌, ◌++◌, IfOk, OnOk, flat_map};
ghost use Rattle.messages.specs.Json.{json_of};
ghost use Rattle.messages.specs.Printed.{message_text};
ghost use Rattle.explain.specs.Explanation.{explanation_of_message, explanation_of_messages, explanation_of_text, explanation_text as explanation_text_of, lines_text as lines_text_of};

use crate::ending::Ending;
use messages::{Message, json_text, push_message};
use rotor_base::{Memory, Row};
use std::alloc::Global;

/// What is said, and how the explanation ends: messages, the text behind them for people, and the places behind them
/// for tools.
#[derive(Drop)]
pub struct Explanation {
    pub ending: Ending,
    pub messages: Row<Message>,
    pub text: Row<u8>,
    pub places: Row<Message>,
}

/// Messages alone.
pub(crate) fn explain_by_messages(
    alloc: Global,
    ending: Ending,
    messages: Row<Message>,
) -> Explanation
    ensures { result ≡ explanation_of_messages ending messages }
{
    Explanation {
        ending,
        messages,
        text: Row::new(alloc),
        places: Row::new(alloc),
    }
}

/// What is said of one message, if there is one. The one error is want of memory.
pub fn explain_by_message(
    alloc: Global,
    ending: Ending,
    message: Option<Message>,
) -> Result<Explanation, Memory>
    ensures { IfOk result (λ explanation. explanation ≡ explanation_of_message ending message) }
{
    let mut messages = Row::new(alloc);
    if let Some(message) = message {
        messages.push(message)?;
    }
    Ok(explain_by_messages(alloc, ending, messages))
}

/// What is said of a folder that is not loaded. The one error is want of memory.
pub fn explain_unloaded(alloc: Global, message: Option<Message>) -> Result<Explanation, Memory>
    ensures { IfOk result (λ explanation. explanation ≡ explanation_of_message Ending.Project message) }
{
    explain_by_message(alloc, Ending::Project, message)
}

/// A text for people alone.
pub fn explain_by_text(alloc: Global, ending: Ending, text: Row<u8>) -> Explanation
    ensures { result ≡ explanation_of_text ending text }
{
    Explanation {
        ending,
        messages: Row::new(alloc),
        text,
        places: Row::new(alloc),
    }
}

/// What is said, as lines for people, or as JSON for tools. The one error is want of memory.
pub fn explanation_text(
    alloc: Global,
    explanation: Explanation,
    as_json: bool,
) -> Result<Vec<u8>, Memory>
    ensures { IfOk result (λ text. text.items ≡ explanation_text_of as_json explanation) }
{
    if as_json {
        let mut messages = explanation.messages.into_vec();
        let mut places = explanation.places.into_vec();
        messages.append(&mut places)?;
        json_text(alloc, &messages)
    } else {
        lines_text(
            alloc,
            explanation.messages.as_slice(),
            explanation.text.as_slice(),
        )
    }
}

/// Messages as lines, and a text behind them.
fn lines_text(alloc: Global, messages: &[Message], behind: &[u8]) -> Result<Vec<u8>, Memory>
    ensures { IfOk result (λ text. text.items ≡ lines_text_of messages.now behind.now) }
{
    let mut text = Vec::new(alloc);
    for message in messages {
        push_message(alloc, &mut text, message)?;
    }
    text.extend_from_slice(behind)?;
    Ok(text)
}
