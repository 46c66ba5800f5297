//! Writing a message.

ghost use Rattle.std.specs.Prelude.{OnOk};
ghost use Rattle.std.specs.Io.KnownBytes.{Appends};
ghost use Rattle.lsp_frames.specs.Frames.{frame};

use std::io;
use std::io::Write;

/// Writes a message: a header that says the length of its body, and the body. The caller flushes the writer.
pub fn write_message<W: Write>(writer: &mut W, body: &[u8]) -> io::Result<()>
    ensures { OnOk result (Appends (W.contents writer.old) (W.contents writer.new) (frame body.now)) }
{
    write!(writer, "Content-Length: {}\r\n\r\n", body.len())?;
    writer.write_all(body)
}
