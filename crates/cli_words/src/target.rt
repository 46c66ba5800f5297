//! What a target word names.
ghost use Rattle.std.specs.Prelude.{◌≡◌, ◌==◌, IfOk, option_map};
ghost use Rattle.std.specs.List.{position, slice_split};
ghost use Rattle.cli_words.specs.Target.{cut_at, number_at, spot_of, spot_word, target_of, token_word};

use rotor_base::{Memory, Name, Row, Target, is_source};
use std::alloc::Global;

/// What a target word names: `FILE#N` a token of a source, counted from 1, and `FILE:L:C` a byte of a source by
/// its line and column, counted from 1. Every other word is a dotted path, cut at each `.`. The one error is
/// want of memory.
pub fn read_target(alloc: Global, word: &str) -> Result<Target, Memory>
    ensures { IfOk result (λ target. target ≡ target_of word.now) }
{
    let word = word.as_bytes();
    if let Some((file, token)) = token_in(word) {
        let file = Name::new(alloc, file)?;
        return Ok(Target::At { file, token });
    }
    if let Some((file, (line, column))) = spot_in(word) {
        let file = Name::new(alloc, file)?;
        return Ok(Target::Spot { file, line, column });
    }
    Ok(Target::Dotted(parts(alloc, word)?))
}

/// The source and the number of a word `FILE#N`.
fn token_in(word: &[u8]) -> Option<(&[u8], u32)>
    ensures { option_map (λ p. (p.0.now, p.1)) result ≡ token_word word.now }
{
    let (file, digits) = cut(word, b'#')?;
    if !is_source(file) {
        return None;
    }
    Some((file, number_of(digits)?))
}

/// The source, the line and the column of a word `FILE:L:C`.
fn spot_in(word: &[u8]) -> Option<(&[u8], (u32, u32))>
    ensures { option_map (λ p. (p.0.now, p.1)) result ≡ spot_word word.now }
{
    let (file, rest) = cut(word, b':')?;
    if !is_source(file) {
        return None;
    }
    let (line, column) = cut(rest, b':')?;
    Some((file, spot(line, column)?))
}

/// A line and a column, both from 1.
fn spot(line: &[u8], column: &[u8]) -> Option<(u32, u32)>
    ensures { result ≡ spot_of (line.now, column.now) }
{
    let line = number_of(line)?;
    let column = number_of(column)?;
    Some((line, column))
}

/// The bytes before and behind the first byte `mark`, if the word has one.
fn cut(word: &[u8], mark: u8) -> Option<(&[u8], &[u8])>
    ensures { option_map (λ p. (p.0.now, p.1.now)) result ≡ cut_at mark word.now }
{
    let place = place_of(word, mark)?;
    let (front, rest) = word.split_at(place);
    Some((front, &rest[1..]))
}

/// The place of the first byte `mark`.
fn place_of(word: &[u8], mark: u8) -> Option<usize>
    ensures { result ≡ position (λ b. b == mark) word.now }
{
    word.iter().position(|byte| *byte == mark)
}

/// The parts of a dotted path.
fn parts(alloc: Global, word: &[u8]) -> Result<Row<Name>, Memory>
    ensures { IfOk result (λ names. names ≡ slice_split (λ b. b == 46) word.now) }
{
    let mut names = Row::new(alloc);
    let mut rest = word;
    while let Some((part, behind)) = cut(rest, b'.') {
        names.push(Name::new(alloc, part)?)?;
        rest = behind;
    }
    names.push(Name::new(alloc, rest)?)?;
    Ok(names)
}

/// The number that decimal digits with no leading zero write, from 1 to 4,294,967,295.
pub(crate) fn number_of(digits: &[u8]) -> Option<u32>
    ensures { result ≡ number_at digits.now }
{
    let (first, rest) = digits.split_first()?;
    if *first < b'1' || *first > b'9' {
        return None;
    }
    let mut number = u32::from(*first - b'0');
    for digit in rest {
        if !digit.is_ascii_digit() {
            return None;
        }
        let longer = u64::from(number) * 10 + u64::from(*digit - b'0');
        if longer > u64::from(u32::MAX) {
            return None;
        }
        number = longer as u32;
    }
    Some(number)
}
