//! The lines of a text.
ghost use Rattle.std.specs.Prelude.{◌≡◌, ◌==◌, ◌+◌, ◌<◌, ◌≤◌, ◌∷◌, [], IfNone, IfSome, drop, length, take};
ghost use Rattle.std.specs.List.{position, position_or_len};
ghost use Rattle.std.specs.Str.Lines.{lines, strip_carriage_return};
ghost use Rattle.rotor_base.specs.Lines.{feed_lines};

/// The first line of some bytes without its end, and what follows it; if there is no line, `None`. A line ends at LF,
/// and a CR before the LF is no part of it. The last line may lack the LF. It takes no memory.
pub fn next_line(bytes: &[u8]) -> Option<(&[u8], &[u8])>
    ensures end { IfNone result (bytes.now ≡ []) }
    ensures line { IfSome result (λ found. lines bytes.now ≡ found.0.now ∷ lines found.1.now) }
    ensures shorter { IfSome result (λ found. length found.1.now < length bytes.now) }
{
    if bytes.is_empty() {
        return None;
    }
    let (line, rest) = cut_feed(bytes);
    if line.len() == bytes.len() {
        return Some((line, rest));
    }
    Some((without_return(line), rest))
}

/// The first line of some bytes without the LF that ends it, and what follows it; if there is no line, `None`. A CR is
/// a byte of the line. The last line may lack the LF. It takes no memory.
pub fn feed_line(bytes: &[u8]) -> Option<(&[u8], &[u8])>
    ensures end { IfNone result (bytes.now ≡ []) }
    ensures line { IfSome result (λ found. feed_lines bytes.now ≡ found.0.now ∷ feed_lines found.1.now) }
    ensures shorter { IfSome result (λ found. length found.1.now < length bytes.now) }
{
    if bytes.is_empty() {
        return None;
    }
    Some(cut_feed(bytes))
}

/// The bytes before the first LF and those behind it; if there is no LF, all bytes and none.
fn cut_feed(bytes: &[u8]) -> (&[u8], &[u8])
    ensures line { result.0.now ≡ take (position_or_len (λ b. b == 10) bytes.now) bytes.now }
    ensures rest { result.1.now ≡ drop (position_or_len (λ b. b == 10) bytes.now + 1) bytes.now }
{
    let end = line_end(bytes);
    if end == bytes.len() {
        return (bytes, &[]);
    }
    (&bytes[..end], &bytes[end + 1..])
}

/// The number of bytes before the first LF; if there is none, of all bytes.
fn line_end(bytes: &[u8]) -> usize
    ensures at { result ≡ position_or_len (λ b. b == 10) bytes.now }
    ensures within { result ≤ length bytes.now }
{
    match first_feed(bytes) {
        None => bytes.len(),
        Some(end) => end,
    }
}

/// The position of the first LF.
fn first_feed(bytes: &[u8]) -> Option<usize>
    ensures { result ≡ position (λ b. b == 10) bytes.now }
{
    bytes.iter().position(|byte| *byte == b'\n')
}

/// A line without the CR at its end, if it has one.
fn without_return(line: &[u8]) -> &[u8]
    ensures { result.now ≡ strip_carriage_return line.now }
{
    match line {
        [front @ .., b'\r'] => front,
        _ => line,
    }
}
