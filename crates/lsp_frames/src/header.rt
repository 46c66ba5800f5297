//! The length that a header says.

ghost use Rattle.std.specs.Prelude.{◌≡◌, ◌==◌, ◌<◌, [], ◌∷◌, IfNone, IfSome, length, option_map, reverse};
ghost use Rattle.std.specs.List.{position};
ghost use Rattle.lsp_frames.specs.Lines.{lines_of, skip_blanks, trim};
ghost use Rattle.lsp_frames.specs.Header.{content_length, cut_field, field_of, is_length_name, number_of};

/// The number that the one field `Content-Length` of some lines says; `None` if a line is no field, if there is no such
/// field or a second, or if its value is no decimal number below 2 ^ 64. Other fields are passed over.
pub(crate) fn content_length(lines: &[u8]) -> Option<u64>
    ensures { result ≡ content_length lines.now }
{
    let mut found = None;
    let mut rest = lines;
    while let Some((line, behind)) = cut_line(rest) {
        let (name, value) = field_of(line)?;
        if is_length_name(name) {
            if found.is_some() {
                return None;
            }
            found = Some(value);
        }
        rest = behind;
    }
    number_of(found?)
}

/// The first line, without its LF, and what is behind it; `None` if there is no LF.
fn cut_line(bytes: &[u8]) -> Option<(&[u8], &[u8])>
    ensures none { IfNone result (lines_of bytes.now ≡ []) }
    ensures line { IfSome result (λ cut. lines_of bytes.now ≡ cut.0.now ∷ lines_of cut.1.now) }
    ensures shorter { IfSome result (λ cut. length cut.1.now < length bytes.now) }
{
    let end = first_feed(bytes)?;
    Some((&bytes[..end], &bytes[end + 1..]))
}

/// The position of the first LF.
fn first_feed(bytes: &[u8]) -> Option<usize>
    ensures at { result ≡ position (λ b. b == 10) bytes.now }
    ensures within { IfSome result (λ at. at < length bytes.now) }
{
    bytes.iter().position(|byte| *byte == b'\n')
}

/// The name and the value of a line without its LF; `None` if no CR ends it or it has no colon.
fn field_of(line: &[u8]) -> Option<(&[u8], &[u8])>
    ensures { option_map (λ field. (field.0.now, field.1.now)) result ≡ field_of line.now }
{
    if !line.ends_with(b"\r") {
        return None;
    }
    cut_field(&line[..line.len() - 1])
}

/// The name before the first colon, and the value behind it.
fn cut_field(line: &[u8]) -> Option<(&[u8], &[u8])>
    ensures { option_map (λ field. (field.0.now, field.1.now)) result ≡ cut_field line.now }
{
    let colon = first_colon(line)?;
    Some((trim(&line[..colon]), trim(&line[colon + 1..])))
}

/// The position of the first colon.
fn first_colon(bytes: &[u8]) -> Option<usize>
    ensures at { result ≡ position (λ b. b == 58) bytes.now }
    ensures within { IfSome result (λ at. at < length bytes.now) }
{
    bytes.iter().position(|byte| *byte == b':')
}

/// Whether a name is `Content-Length`, in any case.
fn is_length_name(name: &[u8]) -> bool
    ensures { result ≡ is_length_name name.now }
{
    name.eq_ignore_ascii_case(b"Content-Length")
}

/// The bytes without the spaces and tabs at both ends.
fn trim(bytes: &[u8]) -> &[u8]
    ensures { result.now ≡ trim bytes.now }
{
    trim_end(trim_start(bytes))
}

/// The bytes without the spaces and tabs at the start.
fn trim_start(mut bytes: &[u8]) -> &[u8]
    ensures { result.now ≡ skip_blanks bytes.now }
{
    while let [b' ' | b'\t', rest @ ..] = bytes {
        bytes = rest;
    }
    bytes
}

/// The bytes without the spaces and tabs at the end.
fn trim_end(mut bytes: &[u8]) -> &[u8]
    ensures { result.now ≡ reverse (skip_blanks (reverse bytes.now)) }
{
    while let [rest @ .., b' ' | b'\t'] = bytes {
        bytes = rest;
    }
    bytes
}

/// The number that some digits write; `None` if there are none, for another byte, and from 2 ^ 64 on.
fn number_of(digits: &[u8]) -> Option<u64>
    ensures { result ≡ number_of digits.now }
{
    if digits.is_empty() {
        return None;
    }
    let mut number: u64 = 0;
    for byte in digits {
        if !byte.is_ascii_digit() {
            return None;
        }
        number = number
            .checked_mul(10)?
            .checked_add(u64::from(*byte - b'0'))?;
    }
    Some(number)
}
