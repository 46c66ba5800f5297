//! The lines of two texts, paired by their numbers.

ghost use Rattle.std.specs.Prelude.{◌≡◌, [], ◌∷◌, ◌==◌, ◌+◌, ◌<◌, ◌≤◌, IfNone, IfOk, IfSome, drop, length, map, take};
ghost use Rattle.std.specs.List.{position, position_or_len};
ghost use Rattle.source_diff.specs.Pairs.{pairs_of, text_lines, view_pair};

use rotor_base::Memory;
use std::alloc::Global;

/// A line of the old text, and the line of that number of the new text, each with its LF. It is empty if a text has no
/// such line.
#[derive(Clone, Copy, Debug)]
pub struct LinePair<'a> {
    pub old: &'a [u8],
    pub new: &'a [u8],
}

impl LinePair<'_> {
    ghost use Rattle.source_diff.specs.Pairs.{is_changed};

    /// Whether the two lines differ.
    pub fn is_changed(&self) -> bool
        ensures { result ≡ is_changed (view_pair self.now) }
    {
        self.old != self.new
    }
}

/// The first lines of two texts, and what follows them.
#[derive(Clone, Copy)]
struct Cut<'a> {
    pair: LinePair<'a>,
    old: &'a [u8],
    new: &'a [u8],
}

/// The lines of two texts, paired by their numbers. `Memory` is the only error.
pub fn pairs_of<'a>(
    alloc: Global,
    old: &'a [u8],
    new: &'a [u8],
) -> Result<Vec<LinePair<'a>>, Memory>
    ensures { IfOk result (λ pairs. map view_pair pairs.items ≡ pairs_of (text_lines old.now) (text_lines new.now)) }
{
    let mut pairs = Vec::new(alloc);
    let mut old_rest = old;
    let mut new_rest = new;
    while let Some(cut) = cut_pair(old_rest, new_rest) {
        pairs.push(cut.pair)?;
        old_rest = cut.old;
        new_rest = cut.new;
    }
    Ok(pairs)
}

/// The first lines of two texts, and what follows them; `None` if both are empty.
fn cut_pair<'a>(old: &'a [u8], new: &'a [u8]) -> Option<Cut<'a>>
    ensures end { IfNone result ((old.now ≡ []) × (new.now ≡ [])) }
    ensures pair { IfSome result (λ cut. pairs_of (text_lines old.now) (text_lines new.now) ≡ view_pair cut.pair ∷ pairs_of (text_lines cut.old.now) (text_lines cut.new.now)) }
    ensures shorter { IfSome result (λ cut. length cut.old.now + length cut.new.now < length old.now + length new.now) }
{
    if old.is_empty() && new.is_empty() {
        return None;
    }
    let (old_line, old_rest) = cut_line(old);
    let (new_line, new_rest) = cut_line(new);
    Some(Cut {
        pair: LinePair {
            old: old_line,
            new: new_line,
        },
        old: old_rest,
        new: new_rest,
    })
}

/// The first line of some bytes with its LF, and what follows it. The last line may lack the LF.
fn cut_line(bytes: &[u8]) -> (&[u8], &[u8])
    ensures line { result.0.now ≡ take (position_or_len (λ b. b == 10) bytes.now + 1) bytes.now }
    ensures rest { result.1.now ≡ drop (position_or_len (λ b. b == 10) bytes.now + 1) bytes.now }
{
    let end = line_end(bytes);
    if end == bytes.len() {
        return (bytes, &[]);
    }
    (&bytes[..end + 1], &bytes[end + 1..])
}

/// The number of bytes before the first LF; if there is none, of all bytes.
fn line_end(bytes: &[u8]) -> usize
    ensures at { result ≡ position_or_len (λ b. b == 10) bytes.now }
    ensures within { result ≤ length bytes.now }
{
    match first_feed(bytes) {
        Some(at) => at,
        None => bytes.len(),
    }
}

/// The position of the first LF.
fn first_feed(bytes: &[u8]) -> Option<usize>
    ensures { result ≡ position (λ b. b == 10) bytes.now }
{
    bytes.iter().position(|byte| *byte == b'\n')
}
