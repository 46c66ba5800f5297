//! The text of a diff.

ghost use Rattle.std.specs.Prelude.{◌≡◌, ◌==◌, ◌++◌, ◌+◌, ◌<◌, ◌≤◌, ◌^◌, suc, [], not, IfOk, OnOk, count_by, length, map, string_bytes};
ghost use Rattle.source_diff.specs.Pairs.{view_pair};
ghost use Rattle.source_diff.specs.Hunks.{IsDiff, added, diff_names, ends_with_feed, first_number, head_text, hunk_text, line_as, lines_text, mark_byte, marked};

use crate::pairs::{LinePair, pairs_of};
use crate::runs::next_run;
use rotor_base::Memory;
use std::alloc::Global;

/// The texts that have a line of a hunk.
#[derive(Clone, Copy, Debug)]
pub enum Mark {
    /// Both have it.
    Kept,
    /// The old one alone has it.
    Removed,
    /// The new one alone has it.
    Added,
}

/// What follows a line that has no LF.
const NO_NEWLINE: &[u8] = b"\n\\ No newline at end of file\n";

/// The unified diff of two versions of a text, with three lines of context, as `git apply` and `patch -p1` take it.
/// `name` is the name of the file. The lines are paired by their numbers, so the diff is short if a change keeps them.
/// `Memory` is the only error.
pub fn diff(alloc: Global, name: &[u8], old: &[u8], new: &[u8]) -> Result<Vec<u8>, Memory>
    ensures { IfOk result (λ text. IsDiff name.now old.now new.now text.items) }
{
    let pairs = pairs_of(alloc, old, new)?;
    let mut text = Vec::new(alloc);
    push_names(&mut text, name)?;
    let mut at = 0;
    while let Some(run) = next_run(&pairs, at) {
        push_hunk(alloc, &mut text, run.from, &pairs[run.from..run.to])?;
        at = run.to;
    }
    Ok(text)
}

/// Adds the two lines that name the file.
fn push_names(text: &mut Vec<u8>, name: &[u8]) -> Result<(), Memory>
    ensures { OnOk result (text.new.items ≡ text.old.items ++ diff_names name.now) }
{
    text.extend_from_slice(b"--- a/")?;
    text.extend_from_slice(name)?;
    text.extend_from_slice(b"\n+++ b/")?;
    text.extend_from_slice(name)?;
    text.extend_from_slice(b"\n")?;
    Ok(())
}

/// Adds a hunk. Its first line has the number `from`, which counts from 0.
fn push_hunk(
    alloc: Global,
    text: &mut Vec<u8>,
    from: usize,
    pairs: &[LinePair],
) -> Result<(), Memory>
    requires { from + length pairs.now < 2 ^ 64 }
    ensures { OnOk result (text.new.items ≡ text.old.items ++ hunk_text (record { start = suc from; lines = marked [] (map view_pair pairs.now) })) }
{
    let head = head_text(alloc, from, old_count(pairs), new_count(pairs))?;
    text.extend_from_slice(head.as_bytes())?;
    push_lines(text, pairs)?;
    Ok(())
}

/// The line before the lines of a hunk.
fn head_text(alloc: Global, from: usize, old_len: usize, new_len: usize) -> Result<String, Memory>
    requires old { from + old_len < 2 ^ 64 }
    requires new { from + new_len < 2 ^ 64 }
    ensures { IfOk result (λ head. string_bytes head ≡ head_text (suc from) old_len new_len) }
{
    let old_from = first_number(from, old_len);
    let new_from = first_number(from, new_len);
    Ok(format!(in alloc; "@@ -{old_from},{old_len} +{new_from},{new_len} @@\n")?)
}

/// The number of lines of the old text among some pairs.
fn old_count(pairs: &[LinePair]) -> usize
    ensures count { result ≡ count_by (λ pair. not (length pair.old.now == 0)) pairs.now }
    ensures within { result ≤ length pairs.now }
{
    pairs.iter().filter(|pair| !pair.old.is_empty()).count()
}

/// The number of lines of the new text among some pairs.
fn new_count(pairs: &[LinePair]) -> usize
    ensures count { result ≡ count_by (λ pair. not (length pair.new.now == 0)) pairs.now }
    ensures within { result ≤ length pairs.now }
{
    pairs.iter().filter(|pair| !pair.new.is_empty()).count()
}

/// The number of the first line of a side of a hunk, from 1; if it has no lines, of the line before it.
fn first_number(from: usize, len: usize) -> usize
    requires { from + len < 2 ^ 64 }
    ensures { result ≡ first_number (suc from) len }
{
    if len == 0 { from } else { from + 1 }
}

/// Adds the lines of a hunk. In a run of changed lines those of the old text precede those of the new.
fn push_lines(text: &mut Vec<u8>, pairs: &[LinePair]) -> Result<(), Memory>
    ensures { OnOk result (text.new.items ≡ text.old.items ++ lines_text (marked [] (map view_pair pairs.now))) }
{
    let mut from = 0;
    for (at, pair) in pairs.iter().enumerate() {
        if pair.is_changed() {
            push_line(text, Mark::Removed, pair.old)?;
        } else {
            push_added(text, &pairs[from..at])?;
            push_line(text, Mark::Kept, pair.old)?;
            from = at + 1;
        }
    }
    push_added(text, &pairs[from..])?;
    Ok(())
}

/// Adds the new lines of a run of changed lines.
fn push_added(text: &mut Vec<u8>, pairs: &[LinePair]) -> Result<(), Memory>
    ensures { OnOk result (text.new.items ≡ text.old.items ++ lines_text (added (map view_pair pairs.now))) }
{
    for pair in pairs {
        push_line(text, Mark::Added, pair.new)?;
    }
    Ok(())
}

/// Adds a line with its mark; no line adds nothing. What says that a line has no LF follows it.
fn push_line(text: &mut Vec<u8>, mark: Mark, line: &[u8]) -> Result<(), Memory>
    ensures { OnOk result (text.new.items ≡ text.old.items ++ lines_text (line_as mark line.now)) }
{
    if line.is_empty() {
        return Ok(());
    }
    text.push(mark_byte(mark))?;
    text.extend_from_slice(line)?;
    if !ends_with_feed(line) {
        text.extend_from_slice(NO_NEWLINE)?;
    }
    Ok(())
}

/// Whether the last byte of a line is LF.
fn ends_with_feed(line: &[u8]) -> bool
    ensures { result ≡ ends_with_feed line.now }
{
    match line {
        [.., last] => *last == b'\n',
        [] => false,
    }
}

/// The byte before a line with a mark.
fn mark_byte(mark: Mark) -> u8
    ensures { result ≡ mark_byte mark }
{
    match mark {
        Mark::Kept => b' ',
        Mark::Removed => b'-',
        Mark::Added => b'+',
    }
}
