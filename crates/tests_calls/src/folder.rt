//! A folder of two sources, and the answer to its reading as a text.
ghost use Rattle.std.specs.Prelude.{◌≡◌, IfOk};

use project_reading::{Read, read_project};
use rotor_base::{FormKind, Memory, Name, Refusal, Row, SourceFile, Text, make_files};
use std::alloc::Global;
use std::fmt::Write;
use std::test::Fail;

/// The source of this name with this text.
fn source(alloc: Global, name: &str, text: &str) -> Result<SourceFile, Memory>
    ensures name { IfOk result (λ file. file.name ≡ name.now) }
    ensures bytes { IfOk result (λ file. file.bytes ≡ text.now) }
{
    Ok(SourceFile {
        name: Text::from_string(String::from_str(alloc, name)?),
        bytes: Row::from_vec(text.as_bytes().to_vec(alloc)?),
    })
}

/// What the sources `a.ml` and `b.ml` with these texts are read as.
pub fn read_pair(
    alloc: Global,
    first: &str,
    second: &str,
    manifest: Option<&str>,
) -> Result<String, Fail> {
    let a = source(alloc, "a.ml", first)?;
    let b = source(alloc, "b.ml", second)?;
    let manifest = match manifest {
        Some(lines) => Some(lines.as_bytes().to_vec(alloc)?),
        None => None,
    };
    let files = make_files(alloc, vec![in alloc; a, b]?, manifest)?;
    match read_project(alloc, &files) {
        Ok(read) => units(alloc, &read),
        Err(why) => describe_refusal(alloc, &why),
    }
}

/// The units in their order, and the number of tokens of each source.
fn units(alloc: Global, read: &Read<'_>) -> Result<String, Fail> {
    let mut text = String::new(alloc);
    for unit in &read.project.units {
        add_word(&mut text, &unit.name)?;
        text.push(' ')?;
    }
    text.push('|')?;
    for tokens in &read.tokens {
        write!(text, " {}", tokens.len())?;
    }
    Ok(text)
}

fn add_word(text: &mut String, word: &Name) -> Result<(), Fail> {
    for byte in word.as_bytes() {
        text.push(*byte as char)?;
    }
    Ok(())
}

/// A refusal by its kind and its places.
pub fn describe_refusal(alloc: Global, why: &Refusal) -> Result<String, Fail> {
    let mut text = String::new(alloc);
    match why {
        Refusal::Lex { file, offset } => write!(text, "lex {file}@{offset}")?,
        Refusal::LongName { file, offset } => write!(text, "longname {file}@{offset}")?,
        Refusal::Form { at, kind } => {
            let word = if *kind == FormKind::Object {
                "object"
            } else {
                "other"
            };
            write!(text, "form {}#{} {word}", at.file, at.token)?;
        }
        Refusal::Deep { at } => write!(text, "deep {}#{}", at.file, at.token)?,
        Refusal::Syntax { file } => write!(text, "syntax {file}")?,
        Refusal::Cycle { unit } => {
            text.push_str("cycle ")?;
            add_word(&mut text, unit)?;
        }
        _ => text.push_str("another refusal")?,
    }
    Ok(text)
}
