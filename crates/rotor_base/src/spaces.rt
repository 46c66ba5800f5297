//! Lines that are cut at their first space, as those of a list and of a batch are.

ghost use Rattle.std.specs.Prelude.{◌≡◌, ◌==◌, IfNone, IfSome};
ghost use Rattle.std.specs.List.{list_any, position};
ghost use Rattle.rotor_base.specs.Spaces.{IsCut, IsWhole};

/// Whether some bytes have a space.
pub fn has_space(bytes: &[u8]) -> bool
    ensures { result ≡ list_any (λ b. b == 32) bytes.now }
{
    bytes.iter().any(|byte| *byte == b' ')
}

/// The bytes before the first space, and those behind it.
pub fn cut_space(line: &[u8]) -> Option<(&[u8], &[u8])>
    ensures found { IfSome result (λ parts. IsCut line.now parts.0.now parts.1.now) }
    ensures none { IfNone result (IsWhole line.now) }
{
    let at = space_in(line)?;
    Some((&line[..at], &line[at + 1..]))
}

/// The position of the first space.
fn space_in(bytes: &[u8]) -> Option<usize>
    ensures { result ≡ position (λ b. b == 32) bytes.now }
{
    bytes.iter().position(|byte| *byte == b' ')
}
