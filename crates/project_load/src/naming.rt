//! Which file of a folder a source is read from.
ghost use Rattle.std.specs.Prelude.{◌≡◌, IsSome};
ghost use Rattle.std.specs.FinMap.{get};
ghost use Rattle.tree_io.specs.Outside.{FileMap};
ghost use Rattle.project_load.specs.Naming.{seen_by};

use crate::entries::Entries;

/// Which file of a folder a source is read from.
#[derive(Clone, Copy)]
pub(crate) enum Naming<'a> {
    /// The file of the same name.
    Own,
    /// The file that a list names.
    Listed(&'a Entries),
}

impl<'a> Naming<'a> {
    /// The name of the file of a source, and any name if the source has none.
    pub(crate) fn file_of(&self, source: &'a str) -> &'a str
        ensures { (held : FileMap) → IsSome (get (seen_by self.now held) source.now) → get held result.now ≡ get (seen_by self.now held) source.now }
    {
        match self {
            Naming::Own => source,
            Naming::Listed(entries) => entries.file_of(source).unwrap_or(source),
        }
    }
}
