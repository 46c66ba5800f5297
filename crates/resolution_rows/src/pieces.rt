//! The pieces of JSON that the answers are made of. No name in them has a byte that JSON escapes.

use report::text;
use rotor_base::{Goal, Memory, Outcome, Place, SourceFile};
use std::alloc::{AllocError, Global};

/// A place, as `FILE#N`.
fn place_text(alloc: Global, sources: &[SourceFile], place: Place) -> Result<String, AllocError> {
    let name = sources
        .get(place.file as usize)
        .map_or("", |source| source.name.as_str());
    format!(in alloc; "{name}#{}", place.token)
}

/// A goal: a place, a word, or a blur with the number of outside modules that were passed.
fn goal_text(alloc: Global, sources: &[SourceFile], goal: Goal) -> Result<String, AllocError> {
    match goal {
        Goal::Decl(place) => place_text(alloc, sources, place),
        Goal::Outside => String::from_str(alloc, "outside"),
        Goal::Missing => String::from_str(alloc, "missing"),
        Goal::Hidden => String::from_str(alloc, "hidden"),
        Goal::Blur { by, passed, behind } => {
            let by = place_text(alloc, sources, by)?;
            let behind = match behind {
                Some(place) => place_text(alloc, sources, place)?,
                None => String::from_str(alloc, "none")?,
            };
            format!(in alloc; "blur:{by}:{passed}:{behind}")
        }
    }
}

/// A place, quoted.
pub fn place(alloc: Global, sources: &[SourceFile], place: Place) -> Result<String, AllocError> {
    let text = place_text(alloc, sources, place)?;
    format!(in alloc; "\"{text}\"")
}

/// A text of ASCII, quoted. Of the bytes that JSON escapes it has the quote, the backslash and the line feed alone.
pub fn quote(alloc: Global, bytes: &[u8]) -> Result<String, AllocError> {
    let mut text = String::from_str(alloc, "\"")?;
    for byte in bytes {
        match byte {
            b'\n' => text.push_str("\\n")?,
            b'"' => text.push_str("\\\"")?,
            b'\\' => text.push_str("\\\\")?,
            _ => text.push(*byte as char)?,
        }
    }
    text.push('"')?;
    Ok(text)
}

/// A place, quoted, or `null`.
pub fn place_or_null(
    alloc: Global,
    sources: &[SourceFile],
    found: Option<Place>,
) -> Result<String, AllocError> {
    match found {
        Some(found) => place(alloc, sources, found),
        None => String::from_str(alloc, "null"),
    }
}

/// A goal, quoted.
pub fn goal(alloc: Global, sources: &[SourceFile], goal: Goal) -> Result<String, AllocError> {
    let text = goal_text(alloc, sources, goal)?;
    format!(in alloc; "\"{text}\"")
}

/// A list of values.
pub fn list(alloc: Global, values: &[String]) -> Result<String, AllocError> {
    let mut text = String::from_str(alloc, "[")?;
    let mut before = "";
    for value in values {
        text.push_str(before)?;
        text.push_str(value.as_str())?;
        before = ", ";
    }
    text.push_str("]")?;
    Ok(text)
}

/// An object that is being written.
#[derive(Drop)]
pub struct Object {
    text: String,
    before: &'static str,
}

impl Object {
    /// The object without members.
    pub fn new(alloc: Global) -> Self {
        Object {
            text: String::new(alloc),
            before: "{",
        }
    }

    /// Adds a member whose value is JSON.
    pub fn add(&mut self, name: &str, value: &str) -> Result<(), AllocError> {
        write!(self.text, "{}\"{name}\": {value}", self.before)?;
        self.before = ", ";
        Ok(())
    }

    /// Adds a member that is a number.
    pub fn add_number(&mut self, name: &str, value: u64) -> Result<(), AllocError> {
        write!(self.text, "{}\"{name}\": {value}", self.before)?;
        self.before = ", ";
        Ok(())
    }

    /// Adds a member that is true or false.
    pub fn add_flag(&mut self, name: &str, value: bool) -> Result<(), AllocError> {
        self.add(name, if value { "true" } else { "false" })
    }

    /// The text of the object.
    pub fn end(self) -> Result<String, AllocError> {
        let Object { text, .. } = self;
        let mut text = text;
        text.push_str("}")?;
        Ok(text)
    }
}

/// The line of a refusal, quoted.
pub fn line(alloc: Global, sources: &[SourceFile], outcome: &Outcome) -> Result<String, Memory> {
    let mut names = Vec::new(alloc);
    for source in sources {
        names.push(String::from_str(alloc, source.name.as_str())?)?;
    }
    let bytes = text(alloc, &names, outcome)?;
    let line = str::from_utf8(&bytes).unwrap_or("bytes that are no text");
    Ok(format!(in alloc; "\"{}\"", line.trim_end())?)
}

/// The object of a refusal, if a request is refused.
pub fn make_stopped(
    alloc: Global,
    sources: &[SourceFile],
    outcome: &Outcome,
) -> Result<String, Memory> {
    let line = line(alloc, sources, outcome)?;
    let mut object = Object::new(alloc);
    object.add("stopped", line.as_str())?;
    Ok(object.end()?)
}
