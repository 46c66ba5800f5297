//! The words of the program: `at`, and those of `rotor` that write nothing, each with or without `--json` behind.
ghost use Rattle.std.specs.Prelude.{◌≡◌, Err, IfOk, None, Some, length, map, option_map, string_bytes};
ghost use Rattle.cli_words.specs.Words.{command_of, is_value as is_value_of};
ghost use Rattle.explain_main.specs.Words.{asked_as as asked_as_of, asked_by as asked_for, asked_in, batch_of, ends_with_json as ends_with_json_of, place_word as place_word_of, question_of as question_for, renaming_of};

use cli_words::{Command, WordsError, read_words};
use rotor_base::{Memory, Name, Target, Text};
use std::alloc::Global;

/// What the words ask, and whether the output is JSON.
#[derive(Debug, Drop)]
pub struct Asked {
    pub question: Question,
    pub as_json: bool,
}

/// What the words ask: over the files of the folder, or of the folder itself.
#[derive(Debug, Drop)]
pub enum Question {
    /// A question over the files of the folder.
    Files(FilesQuestion),
    /// `verify OLDLIST NEWLIST`
    Verify { old: Text, new: Text },
    /// `batch FILE`
    Batch(Text),
    /// `recover`
    Recover,
}

/// What the words ask over the files of the folder.
#[derive(Debug, Drop)]
pub enum FilesQuestion {
    /// `check`
    Check,
    /// `footprint TARGET`
    Footprint(Target),
    /// `rename TARGET NAME`
    Rename { target: Target, name: Name },
    /// `at FILE:LINE:COLUMN`
    At(Text),
}

/// What the words ask.
///
/// # Errors
///
/// `Usage` exactly if the words have none of the forms, and `Memory`, which is always possible.
pub fn read_asked(alloc: Global, words: &[String]) -> Result<Asked, WordsError>
    ensures ok { IfOk result (λ asked. asked_in words.now ≡ Some asked) }
    ensures usage { result ≡ Err WordsError.Usage → asked_in words.now ≡ None }
{
    if ends_with_json(words) {
        read_question(alloc, &words[..words.len().saturating_sub(1)], true)
    } else {
        read_question(alloc, words, false)
    }
}

/// What the words before `--json` ask.
fn read_question(alloc: Global, words: &[String], as_json: bool) -> Result<Asked, WordsError>
    ensures ok { IfOk result (λ asked. asked_as_of as_json words.now ≡ Some asked) }
    ensures usage { result ≡ Err WordsError.Usage → asked_as_of as_json words.now ≡ None }
{
    match place_word(words) {
        Some(place) => Ok(Asked {
            question: Question::Files(FilesQuestion::At(text_from(alloc, place)?)),
            as_json,
        }),
        None => ask_command(read_words(alloc, words)?, as_json),
    }
}

/// The word behind `at`, if the words are `at` and a value.
fn place_word(words: &[String]) -> Option<&str>
    ensures { option_map (λ word. word.now) result ≡ place_word_of (map string_bytes words.now) }
{
    let [name, place] = words else {
        return None;
    };
    if name.as_str() == "at" && is_value(place.as_str()) {
        Some(place.as_str())
    } else {
        None
    }
}

/// Whether a word is not empty and does not begin with `-`.
fn is_value(word: &str) -> bool
    ensures { result ≡ is_value_of word.now }
{
    match word.as_bytes().first() {
        Some(byte) => *byte != b'-',
        None => false,
    }
}

/// A text of its own.
fn text_from(alloc: Global, word: &str) -> Result<Text, Memory>
    ensures { IfOk result (λ text. text ≡ word.now) }
{
    Ok(Text::from_string(String::from_str(alloc, word)?))
}

/// Whether the last word is `--json`.
fn ends_with_json(words: &[String]) -> bool
    ensures { result ≡ ends_with_json_of words.now }
{
    match words.last() {
        Some(word) => word.as_str() == "--json",
        None => false,
    }
}

/// What a command of `rotor` asks.
fn ask_command(command: Command, as_json: bool) -> Result<Asked, WordsError>
    ensures ok { IfOk result (λ asked. asked_for as_json (Some command) ≡ Some asked) }
    ensures usage { result ≡ Err WordsError.Usage → asked_for as_json (Some command) ≡ None }
{
    match find_question(command) {
        Some(question) => Ok(Asked { question, as_json }),
        None => Err(WordsError::Usage),
    }
}

/// The question of a command of `rotor`, if it is one that is explained.
fn find_question(command: Command) -> Option<Question>
    ensures { result ≡ question_for command }
{
    match command {
        Command::Check => Some(Question::Files(FilesQuestion::Check)),
        Command::Shape(target) => Some(Question::Files(FilesQuestion::Footprint(target))),
        Command::Rename {
            target,
            name,
            write,
            safe,
            json,
        } => ask_renaming(target, name, write || safe || json),
        Command::Sample(_) => None,
        Command::Verify { old, new } => Some(Question::Verify { old, new }),
        Command::Batch { file, write } => ask_batch(file, write),
        Command::Recover => Some(Question::Recover),
    }
}

/// The question of a renaming, if it has no flag.
fn ask_renaming(target: Target, name: Name, has_flag: bool) -> Option<Question>
    ensures { result ≡ renaming_of target name has_flag }
{
    if has_flag {
        None
    } else {
        Some(Question::Files(FilesQuestion::Rename { target, name }))
    }
}

/// The question of a batch, if it does not write.
fn ask_batch(file: Text, write: bool) -> Option<Question>
    ensures { result ≡ batch_of file write }
{
    if write {
        None
    } else {
        Some(Question::Batch(file))
    }
}
