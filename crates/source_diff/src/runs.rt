//! The lines that a diff shows.

ghost use Rattle.std.specs.Prelude.{◌≡◌, ℕ, ◌+◌, ◌<◌, ◌≤◌, not, IfNone, IfSome, length, map};
ghost use Rattle.std.specs.List.{list_any};
ghost use Rattle.source_diff.specs.Pairs.{is_changed, view_pair};
ghost use Rattle.source_diff.specs.Runs.{IsNextRun, NoneFrom, is_shown};

use crate::pairs::LinePair;

/// The number of lines that a diff shows before and behind a line that changed.
const CONTEXT: usize = 3;

/// Some lines by their numbers, which count from 0: from the line `from` up to the line `to`.
#[derive(Clone, Copy, Debug)]
pub struct Run {
    pub from: usize,
    pub to: usize,
}

/// The first run, from a line on, of lines that a diff shows.
pub fn next_run(pairs: &[LinePair], at: usize) -> Option<Run>
    requires { at ≤ length pairs.now }
    ensures found { IfSome result (IsNextRun (is_shown (map view_pair pairs.now)) (length pairs.now) at) }
    ensures none { IfNone result (NoneFrom (is_shown (map view_pair pairs.now)) (length pairs.now) at) }
{
    let from = first_line(pairs, at, true);
    if from == pairs.len() {
        return None;
    }
    let to = first_line(pairs, from, false);
    Some(Run { from, to })
}

/// The first line, from one on, that a diff shows, or that it does not show; if there is none, the number of all lines.
fn first_line(pairs: &[LinePair], at: usize, shown: bool) -> usize
    requires { at ≤ length pairs.now }
    ensures from { at ≤ result }
    ensures within { result ≤ length pairs.now }
    ensures before { (line : ℕ) → at ≤ line → line < result → is_shown (map view_pair pairs.now) line ≡ not shown }
    ensures here { result < length pairs.now → is_shown (map view_pair pairs.now) result ≡ shown }
{
    for line in at..pairs.len() {
        if is_shown(pairs, line) == shown {
            return line;
        }
    }
    pairs.len()
}

/// Whether a diff shows a line: the line, one of the three before it or one of the three behind it changed.
fn is_shown(pairs: &[LinePair], line: usize) -> bool
    requires { line < length pairs.now }
    ensures { result ≡ is_shown (map view_pair pairs.now) line }
{
    let from = line.saturating_sub(CONTEXT);
    let behind = pairs.len() - line;
    let to = line + behind.min(CONTEXT + 1);
    has_change(&pairs[from..to])
}

/// Whether a line of some lines changed.
fn has_change(pairs: &[LinePair]) -> bool
    ensures { result ≡ list_any (λ pair. is_changed (view_pair pair)) pairs.now }
{
    pairs.iter().any(|pair| pair.is_changed())
}
