//! Reading a batch.
ghost use Rattle.std.specs.Prelude.{◌≡◌, IfErr, IfOk, IfNone, IfSome};
ghost use Rattle.rotor_base.specs.Lines.{feed_lines};
ghost use Rattle.rename_batch.specs.Reading.{AreWords, IsBatch, IsNoStep, IsStep, IsUnread, IsWord};

use crate::{BatchReadError, Step};
use cli_words::read_target;
use rotor_base::{MAX_BATCH_LINES, Memory, Name, cut_space, feed_line, has_space};
use std::alloc::Global;

/// The steps of a batch: one for each line `TARGET NAME`.
///
/// # Errors
///
/// `Line` with the number, from 1, of the first line that is not two words of UTF-8 with one space between, neither of
/// them empty or with a space and the first not beginning with `-`; or with 1,001, if there are more than 1,000 lines
/// and none before is bad. `Memory`.
pub fn read_batch(alloc: Global, bytes: &[u8]) -> Result<Vec<Step>, BatchReadError>
    ensures steps { IfOk result (λ steps. IsBatch (feed_lines bytes.now) steps.items) }
    ensures unread { IfErr result (IsUnread (feed_lines bytes.now)) }
{
    let mut steps = Vec::new(alloc);
    let mut rest = bytes;
    while let Some((line, behind)) = feed_line(rest) {
        let before = steps.len() as u32;
        if before == MAX_BATCH_LINES {
            return Err(BatchReadError::Line(before + 1));
        }
        let Some(step) = read_step(alloc, line)? else {
            return Err(BatchReadError::Line(before + 1));
        };
        steps.push(step)?;
        rest = behind;
    }
    Ok(steps)
}

/// The step of a line, if it has one.
fn read_step(alloc: Global, line: &[u8]) -> Result<Option<Step>, Memory>
    ensures step { IfOk result (λ found. IfSome found (IsStep line.now)) }
    ensures none { IfOk result (λ found. IfNone found (IsNoStep line.now)) }
{
    let Some((target, name)) = words_in(line) else {
        return Ok(None);
    };
    Ok(Some(Step {
        target: read_target(alloc, target)?,
        name: Name::new(alloc, name.as_bytes())?,
    }))
}

/// The two words of a line, if it has two.
fn words_in(line: &[u8]) -> Option<(&str, &str)>
    ensures words { IfSome result (λ words. AreWords line.now words.0.now words.1.now) }
    ensures none { IfNone result (IsNoStep line.now) }
{
    let (target, name) = cut_space(line)?;
    let target = word_in(target)?;
    let name = word_in(name)?;
    if target.as_bytes()[0] == b'-' {
        return None;
    }
    Some((target, name))
}

/// The word that some bytes are, if they are one.
fn word_in(bytes: &[u8]) -> Option<&str>
    ensures same { IfSome result (λ word. word.now ≡ bytes.now) }
    ensures word { IfSome result (λ word. IsWord bytes.now) }
    ensures none { IfNone result (IsWord bytes.now → ⊥) }
{
    if bytes.is_empty() {
        return None;
    }
    if has_space(bytes) {
        return None;
    }
    match std::str::from_utf8(bytes) {
        Ok(word) => Some(word),
        Err(_) => None,
    }
}
