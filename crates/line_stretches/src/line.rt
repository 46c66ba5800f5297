//! Where a line begins and ends.
ghost use Rattle.std.specs.Prelude.{◌≡◌, ◌+◌, ◌<◌, ◌≤◌, length};
ghost use Rattle.rotor_base.specs.Limits.{max_file_bytes};
ghost use Rattle.rotor_base.specs.Lines.{feed_lines};
ghost use Rattle.line_stretches.specs.Stretch.{IsStretch};

use rotor_base::feed_line;

/// The offset at which the line of a number, from 1, begins, and the offset behind its last byte. LF alone ends a line
/// and is no part of it. If there is no such line, both are the end of the file. It takes no memory.
pub fn line_stretch(bytes: &[u8], number: u32) -> (u32, u32)
    requires { length bytes.now ≤ max_file_bytes + 1 }
    ensures here { 0 < number → number ≤ length (feed_lines bytes.now) → IsStretch (feed_lines bytes.now) number result.0 result.1 }
    ensures past { length (feed_lines bytes.now) < number → (result.0 ≡ length bytes.now) × (result.1 ≡ length bytes.now) }
{
    let mut rest = bytes;
    let mut before: u32 = 0;
    let mut start: u32 = 0;
    while let Some((line, behind)) = feed_line(rest) {
        before += 1;
        let end = start + line.len() as u32;
        if before == number {
            return (start, end);
        }
        start = end + 1;
        rest = behind;
    }
    let end = bytes.len() as u32;
    (end, end)
}
