//! What the lexer does not read.
ghost use Rattle.std.specs.Prelude.{◌≡◌};
ghost use Rattle.refusal_words.specs.Faults.{begins as begins_of, byte_fault as byte_fault_of, first_fault as first_fault_of, rest_fault as rest_fault_of};

/// What the lexer does not read at a byte.
#[derive(Clone, Copy, Debug, PartialEq, Eq)]
pub enum LexFault {
    Comment,
    Attribute,
    String,
    QuotedString,
    ByteOrderMark,
    OutsideAscii,
    Number,
    Label,
    Quote,
    Other,
}

/// The byte order mark of UTF-8.
const MARK: [u8; 3] = [0xef, 0xbb, 0xbf];

/// What begins where the lexer stops: the offset, and the bytes from there on.
pub(crate) fn rest_fault(offset: u32, rest: &[u8]) -> LexFault
    ensures { result ≡ rest_fault_of offset rest.now }
{
    if begins(rest, b"(*") {
        LexFault::Comment
    } else if begins(rest, b"[@") {
        LexFault::Attribute
    } else if begins(rest, b"\"") {
        LexFault::String
    } else if begins(rest, b"{") {
        LexFault::QuotedString
    } else if offset == 0 && begins(rest, &MARK) {
        LexFault::ByteOrderMark
    } else {
        first_fault(rest)
    }
}

/// Whether some bytes begin with a text.
fn begins(bytes: &[u8], text: &[u8]) -> bool
    ensures { result ≡ begins_of bytes.now text.now }
{
    text.len() <= bytes.len() && &bytes[..text.len()] == text
}

/// What begins at a byte, of which there may be none.
fn first_fault(rest: &[u8]) -> LexFault
    ensures { result ≡ first_fault_of rest.now }
{
    match rest {
        [] => LexFault::Other,
        [first, ..] => byte_fault(*first),
    }
}

/// What begins with a byte.
fn byte_fault(byte: u8) -> LexFault
    ensures { result ≡ byte_fault_of byte }
{
    if byte >= 0x80 {
        LexFault::OutsideAscii
    } else if byte.is_ascii_digit() {
        LexFault::Number
    } else if byte == b'~' || byte == b'?' {
        LexFault::Label
    } else if byte == b'\'' {
        LexFault::Quote
    } else {
        LexFault::Other
    }
}
