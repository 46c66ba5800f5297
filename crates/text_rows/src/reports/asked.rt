//! Words, and the commands and targets that they are.

use cli_words::{Command, WordsError, read_target, read_words};
use rotor_base::{Memory, Name, Target};
use std::alloc::{AllocError, Global};

/// The command of some words.
pub fn words_answer(alloc: Global, words: &[&str]) -> Result<String, Memory> {
    let mut list = Vec::new(alloc);
    for word in words {
        list.push(String::from_str(alloc, word)?)?;
    }
    match read_words(alloc, &list) {
        Ok(command) => Ok(command_text(alloc, &command)?),
        Err(WordsError::Usage) => Ok(String::from_str(alloc, "usage\n")?),
        Err(WordsError::Memory) => Err(Memory),
    }
}

/// The target of a word.
pub fn target_answer(alloc: Global, word: &str) -> Result<String, Memory> {
    let target = read_target(alloc, word)?;
    let target = target_text(alloc, &target)?;
    Ok(format!(in alloc; "{target}\n")?)
}

fn command_text(alloc: Global, command: &Command) -> Result<String, AllocError> {
    match command {
        Command::Check => String::from_str(alloc, "check\n"),
        Command::Shape(target) => {
            let target = target_text(alloc, target)?;
            format!(in alloc; "footprint {target}\n")
        }
        Command::Rename {
            target,
            name,
            write,
            safe,
            json,
        } => {
            let target = target_text(alloc, target)?;
            let name = name_text(name);
            format!(in alloc; "rename {target} to {name} {write} {safe} {json}\n")
        }
        Command::Sample(units) => format!(in alloc; "sample {units}\n"),
        Command::Verify { old, new } => {
            let (old, new) = (old.as_str(), new.as_str());
            format!(in alloc; "verify {old} {new}\n")
        }
        Command::Batch { file, write } => {
            let file = file.as_str();
            format!(in alloc; "batch {file} {write}\n")
        }
        Command::Recover => String::from_str(alloc, "recover\n"),
    }
}

fn target_text(alloc: Global, target: &Target) -> Result<String, AllocError> {
    match target {
        Target::At { file, token } => {
            let file = name_text(file);
            format!(in alloc; "at {file} {token}")
        }
        Target::Spot { file, line, column } => {
            let file = name_text(file);
            format!(in alloc; "spot {file} {line} {column}")
        }
        Target::Dotted(names) => {
            let mut text = String::from_str(alloc, "dotted")?;
            for name in names.as_slice() {
                text.push(' ')?;
                text.push_str(name_text(name))?;
                text.push(';')?;
            }
            Ok(text)
        }
    }
}

fn name_text(name: &Name) -> &str {
    str::from_utf8(name.as_bytes()).unwrap_or("?")
}
