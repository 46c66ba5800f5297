//! How lines and columns are counted.

ghost use Rattle.std.specs.Prelude.{◌≡◌};
ghost use Rattle.text_places.specs.Fronts.{origin_of};

/// How the lines and the columns of a text are counted.
#[derive(Clone, Copy, Debug, PartialEq, Eq)]
pub enum Counting {
    /// As in the targets and the messages of `rotor`: LF alone ends a line, lines and columns count from 1, and a
    /// column is a byte.
    People,
    /// As in the Language Server Protocol with `utf-16`: LF, CR LF or CR ends a line, lines and columns count from 0,
    /// and a column is a UTF-16 unit.
    Utf16,
    /// As in the Language Server Protocol with `utf-8`: as [`Counting::Utf16`], but a column is a byte of a character.
    Utf8,
}

/// A line and a column.
#[derive(Clone, Copy, Debug, PartialEq, Eq)]
pub struct Position {
    pub line: u32,
    pub column: u32,
}

/// The position of the first byte.
pub fn origin_of(counting: Counting) -> Position
    ensures { result ≡ origin_of counting }
{
    match counting {
        Counting::People => Position { line: 1, column: 1 },
        Counting::Utf16 | Counting::Utf8 => Position { line: 0, column: 0 },
    }
}
