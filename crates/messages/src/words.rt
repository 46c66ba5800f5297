//! Words put together.
ghost use Rattle.std.specs.Prelude.{◌≡◌, ◌==◌, ◌++◌, ◌∷◌, [], IfOk, OnOk, codes, cond, map};
ghost use Rattle.report.specs.Pieces.{join};
ghost use Rattle.messages.specs.Words.{counted as counted_of, grouped as grouped_of, with_commas};

use report::number_text;
use rotor_base::{Memory, Row};
use std::alloc::Global;

/// Some words, one directly behind the other. The one error is want of memory.
pub fn join_words(alloc: Global, words: &[&[u8]]) -> Result<Row<u8>, Memory>
    ensures { IfOk result (λ bytes. bytes ≡ join (map (λ word. word.now) words.now)) }
{
    let mut bytes = Vec::new(alloc);
    for word in words {
        bytes.extend_from_slice(word)?;
    }
    Ok(Row::from_vec(bytes))
}

/// A number in decimal with a comma before each group of three digits. The one error is want of memory.
pub fn group_digits(alloc: Global, number: u64) -> Result<Row<u8>, Memory>
    ensures { IfOk result (λ text. text ≡ grouped_of number) }
{
    let digits = number_text(alloc, number)?;
    let mut text = Vec::new(alloc);
    add_grouped(&mut text, digits.as_slice())?;
    Ok(Row::from_vec(text))
}

/// Adds digits, with a comma before each three that end them.
fn add_grouped(text: &mut Vec<u8>, digits: &[u8]) -> Result<(), Memory>
    ensures { OnOk result (text.new.items ≡ text.old.items ++ with_commas digits.now) }
{
    match digits {
        [] => Ok(()),
        [digit, rest @ ..] => {
            text.push(*digit)?;
            if !rest.is_empty() && rest.len() % 3 == 0 {
                text.push(b',')?;
            }
            add_grouped(text, rest)
        }
    }
}

/// A number of things: the number, and the word with an `s` if there is not just one. The one error is want of memory.
pub fn format_count(alloc: Global, number: u64, word: &str) -> Result<Row<u8>, Memory>
    ensures { IfOk result (λ text. text ≡ counted_of number word.now) }
{
    let digits = group_digits(alloc, number)?;
    add_ending(alloc, digits.as_slice(), word, choose_ending(number))
}

/// A number, a word and its ending.
fn add_ending<'a>(
    alloc: Global,
    number: &'a [u8],
    word: &'a str,
    ending: &'a str,
) -> Result<Row<u8>, Memory>
    ensures { IfOk result (λ text. text ≡ join (number.entry.now ∷ codes " " ∷ word.entry.now ∷ ending.entry.now ∷ [])) }
{
    join_words(alloc, &[number, b" ", word.as_bytes(), ending.as_bytes()])
}

/// The ending of the word for a number of things.
fn choose_ending(number: u64) -> &'static str
    ensures { result.now ≡ cond (number == 1) [] (codes "s") }
{
    if number == 1 { "" } else { "s" }
}
