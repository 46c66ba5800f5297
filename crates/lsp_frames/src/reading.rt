//! Reading a message.

ghost use Rattle.std.specs.Prelude.{◌≡◌, ◌<◌, ◌≤◌, [], None, Some, IfErr, IfOk, IfSome, IfNone, OnOk, length, option_map, take};
ghost use Rattle.std.specs.Io.KnownBytes.{Consumes};
ghost use Rattle.lsp_frames.specs.Filling.{IsShort, StopsHeader, Takes};
ghost use Rattle.lsp_frames.specs.Frames.{Fails, Gives};

use crate::FrameError;
use crate::header::content_length;
use std::alloc::Global;
use std::io::{ErrorKind, Read};

/// The most bytes of a header, with its empty line.
pub const MAX_HEADER: usize = 4_096;
/// The most bytes of a body.
pub const MAX_MESSAGE: u64 = 67_108_864;

/// The bytes behind a line and an empty line.
const HEADER_END: &[u8; 4] = b"\r\n\r\n";

/// Reads the body of the next message; `None` at the end of the input. After an error the reader may be inside a
/// message.
pub fn read_message<R: Read>(alloc: Global, reader: &mut R) -> Result<Option<Vec<u8>>, FrameError>
    ensures message { IfOk result (λ message. IfSome (R.remaining reader.old) (λ bytes. Gives bytes (option_map (λ body. body.items) message) (R.remaining reader.new))) }
    ensures fault { IfErr result (λ error. IfSome (R.remaining reader.old) (λ bytes. Fails bytes error)) }
{
    let Some(header) = read_header(alloc, reader)? else {
        return Ok(None);
    };
    let Some(count) = content_length(&header[..header.len() - 2]) else {
        return Err(FrameError::Broken);
    };
    if count > MAX_MESSAGE {
        return Err(FrameError::TooLong);
    }
    let body = read_body(alloc, reader, count as usize)?;
    Ok(Some(body))
}

/// Reads a header, with its empty line; `None` at the end of the input.
fn read_header<R: Read>(alloc: Global, reader: &mut R) -> Result<Option<Vec<u8>>, FrameError>
    ensures none { IfOk result (λ header. IfNone header (IfSome (R.remaining reader.old) (λ bytes. (bytes ≡ []) × (R.remaining reader.new ≡ Some [])))) }
    ensures header { IfOk result (λ header. IfSome header (λ header. Takes (R.remaining reader.old) (R.remaining reader.new) header.items)) }
    ensures fault { IfErr result (λ error. IfSome (R.remaining reader.old) (λ bytes. Fails bytes error)) }
{
    let mut header = Vec::new(alloc);
    let mut byte = [0u8; 1];
    while header.len() < MAX_HEADER {
        if let Err(error) = fill(reader, &mut byte) {
            return match fault_in(&header, error) {
                None => Ok(None),
                Some(fault) => Err(fault),
            };
        }
        header.push(byte[0])?;
        if header.ends_with(HEADER_END) {
            return Ok(Some(header));
        }
    }
    Err(FrameError::TooLong)
}

/// Why the reading of a header fails after these bytes; `None` at the end of the input in front of a header.
fn fault_in(header: &[u8], error: FrameError) -> Option<FrameError>
    ensures none { IfNone result ((header.now ≡ []) × (error ≡ FrameError.Ended)) }
    ensures some { IfSome result (λ fault. StopsHeader header.now error fault) }
{
    if !header.is_empty() {
        return Some(error);
    }
    match error {
        FrameError::Ended => None,
        error => Some(error),
    }
}

/// Reads a body of so many bytes.
fn read_body<R: Read>(alloc: Global, reader: &mut R, count: usize) -> Result<Vec<u8>, FrameError>
    ensures count { IfOk result (λ body. length body.items ≡ count) }
    ensures body { IfOk result (λ body. Consumes (R.remaining reader.old) (R.remaining reader.new) body.items) }
    ensures fault { IfErr result (λ error. IfSome (R.remaining reader.old) (λ bytes. IsShort bytes count (R.remaining reader.new) error)) }
{
    let mut body = Vec::new(alloc);
    body.resize(count, 0)?;
    fill(reader, &mut body)?;
    Ok(body)
}

/// Reads as many bytes as the buffer has.
fn fill<R: Read>(reader: &mut R, buffer: &mut [u8]) -> Result<(), FrameError>
    ensures bytes { OnOk result (Consumes (R.remaining reader.old) (R.remaining reader.new) buffer.new) }
    ensures fault { IfErr result (λ error. IfSome (R.remaining reader.old) (λ bytes. IsShort bytes (length buffer.old) (R.remaining reader.new) error)) }
{
    let mut at = 0;
    for _ in 0..u64::MAX {
        if at >= buffer.len() {
            return Ok(());
        }
        let count = read_some(reader, &mut buffer[at..])?;
        at += count;
    }
    Err(FrameError::Io(ErrorKind::TimedOut.into()))
}

/// Reads some bytes to the front of a buffer that is not empty; none if a signal interrupts the call.
fn read_some<R: Read>(reader: &mut R, buffer: &mut [u8]) -> Result<usize, FrameError>
    requires { 0 < length buffer.old }
    ensures bound { IfOk result (λ count. count ≤ length buffer.new) }
    ensures bytes { IfOk result (λ count. Consumes (R.remaining reader.old) (R.remaining reader.new) (take count buffer.new)) }
    ensures fault { IfErr result (λ error. IfSome (R.remaining reader.old) (λ bytes. IsShort bytes 1 (R.remaining reader.new) error)) }
{
    match reader.read(buffer) {
        Ok(0) => Err(FrameError::Ended),
        Ok(count) => Ok(count),
        Err(error) => {
            if error.kind() == ErrorKind::Interrupted {
                return Ok(0);
            }
            Err(FrameError::Io(error))
        }
    }
}
