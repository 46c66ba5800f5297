//! The commands of the program.
ghost use Rattle.std.specs.Prelude.{◌≡◌, ◌≢◌, Err, IfOk, None, Some, false, map, option_and_then, string_bytes};
ghost use Rattle.clap.specs.Words.{kind_of, subcommand_rows_of};
ghost use Rattle.cli_words.specs.Grammar.{heard, is_taken, read_of};
ghost use Rattle.cli_words.specs.Words.{command_by, command_of, sample_of};
ghost use Rattle.cli_words.specs.Target.{number_at};
ghost use Rattle.cli_words.specs.Written.{in_words};

use crate::asked::{Asked, is_written};
use crate::grammar::program;
use crate::heard::heard_in;
use crate::target::{number_of, read_target};
use clap::ArgMatches;
use clap::error::ErrorKind;
use rotor_base::{MAX_SAMPLE, MIN_SAMPLE, Memory, Name, Target, Text};
use std::alloc::Global;
use thiserror::Error;

/// A command of the program, with what it is called with.
#[derive(Debug, Drop)]
pub enum Command {
    /// `check`: reads the project and counts.
    Check,
    /// `footprint TARGET`: shows the declarations that belong together.
    Shape(Target),
    /// `rename TARGET NAME`, with `--write` or `--safe` or neither, and with or without `--json`.
    Rename {
        target: Target,
        name: Name,
        write: bool,
        safe: bool,
        json: bool,
    },
    /// `sample N`, with N from 2 to 500.
    Sample(u32),
    /// `verify OLDLIST NEWLIST`: says whether one project is a valid respelling of another.
    Verify {
        old: Text,
        new: Text,
    },
    /// `batch FILE`, with or without `--write`.
    Batch {
        file: Text,
        write: bool,
    },
    /// `recover`: finishes the writes of a `rename --safe` that stopped.
    Recover,
}

/// Why words are no command.
#[derive(Clone, Copy, Debug, PartialEq, Eq, Error)]
pub enum WordsError {
    /// The words have none of the forms.
    #[error("the words have none of the forms")]
    Usage,
    #[error("out of memory")]
    Memory,
}

impl From<Memory> for WordsError {
    ghost use Rattle.std.specs.Prelude.{◌≡◌};
    ghost use Rattle.cli_words.specs.declared.command.WordsError.{WordsError};

    ghost from_gives = { λ _ e. e ≡ WordsError.Memory };

    fn from(_error: Memory) -> Self {
        WordsError::Memory
    }
}

/// The command of the words. `clap` reads them, and what it read is written out again and compared with them. So no
/// other spelling of a form is accepted.
///
/// # Errors
///
/// `Usage` exactly if the words have none of the forms, and `Memory`, which is always possible.
pub fn read_words(alloc: Global, words: &[String]) -> Result<Command, WordsError>
    ensures ok { IfOk result (λ command. command_of (map string_bytes words.now) ≡ Some command) }
    ensures usage { result ≡ Err WordsError.Usage → command_of (map string_bytes words.now) ≡ None }
{
    let matches = parse_words(alloc, words)?;
    let Some(asked) = heard_in(&matches) else {
        return Err(WordsError::Usage);
    };
    if !is_written(asked, words) {
        return Err(WordsError::Usage);
    }
    command_from(alloc, asked)
}

/// What `clap` reads.
fn parse_words<'a>(alloc: Global, words: &'a [String]) -> Result<ArgMatches<'a>, WordsError>
    ensures ok { IfOk result (λ matches. option_and_then heard (subcommand_rows_of matches) ≡ read_of (map string_bytes words.entry.now)) }
    ensures usage { result ≡ Err WordsError.Usage → is_taken (map string_bytes words.entry.now) ≡ false }
{
    let Ok(program) = program(alloc) else {
        return Err(WordsError::Memory);
    };
    match program.try_get_matches_from(words) {
        Ok(matches) => Ok(matches),
        Err(error) => Err(convert_error(&error)),
    }
}

/// Why `clap` refuses the words.
fn convert_error(error: &clap::Error) -> WordsError
    ensures { result ≡ WordsError.Usage → kind_of error.now ≢ ErrorKind.OutOfMemory }
{
    match error.kind() {
        ErrorKind::OutOfMemory => WordsError::Memory,
        _ => WordsError::Usage,
    }
}

/// The command of a form. A number of units that is out of range is no form.
fn command_from(alloc: Global, asked: Asked<&str>) -> Result<Command, WordsError>
    ensures ok { IfOk result (λ command. command_by (in_words asked.entry) ≡ Some command) }
    ensures usage { result ≡ Err WordsError.Usage → command_by (in_words asked.entry) ≡ None }
{
    match asked {
        Asked::Check => Ok(Command::Check),
        Asked::Footprint { target } => Ok(Command::Shape(read_target(alloc, target)?)),
        Asked::Rename {
            target,
            name,
            flags,
        } => Ok(Command::Rename {
            target: read_target(alloc, target)?,
            name: Name::new(alloc, name.as_bytes())?,
            write: flags.write,
            safe: flags.safe,
            json: flags.json,
        }),
        Asked::Sample { units } => sample(units),
        Asked::Verify { old, new } => Ok(Command::Verify {
            old: text_from(alloc, old)?,
            new: text_from(alloc, new)?,
        }),
        Asked::Batch { file, write } => Ok(Command::Batch {
            file: text_from(alloc, file)?,
            write,
        }),
        Asked::Recover => Ok(Command::Recover),
    }
}

/// The command `sample`, if the number of units is in its range.
fn sample(units: &str) -> Result<Command, WordsError>
    ensures ok { IfOk result (λ command. option_and_then sample_of (number_at units.now) ≡ Some command) }
    ensures usage { result ≡ Err WordsError.Usage → option_and_then sample_of (number_at units.now) ≡ None }
{
    match number_of(units.as_bytes()) {
        Some(number) if number >= MIN_SAMPLE && number <= MAX_SAMPLE => Ok(Command::Sample(number)),
        _ => Err(WordsError::Usage),
    }
}

/// A text of its own.
fn text_from(alloc: Global, word: &str) -> Result<Text, Memory>
    ensures { IfOk result (λ text. text ≡ word.now) }
{
    Ok(Text::from_string(String::from_str(alloc, word)?))
}
