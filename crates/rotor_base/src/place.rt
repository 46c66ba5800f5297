use crate::Row;

/// A token of a source: the number of the file from 0, and the number of the token from 1.
/// Places are ordered by file, then token.
#[derive(Clone, Copy, Debug, PartialEq, Eq, PartialOrd, Ord)]
pub struct Place {
    pub file: u32,
    pub token: u32,
}

/// What a look-up of a value leads to.
#[derive(Clone, Copy, Debug, PartialEq, Eq)]
pub enum Goal {
    /// The declaration at a place.
    Decl(Place),
    /// A value from outside the folder.
    Outside,
    /// A value that a match wants and its source lacks.
    Missing,
    /// A value that a later one of its name hides.
    Hidden,
    /// A value that a module from outside may hide: the last such module passed, how many were passed, and the
    /// declaration behind them.
    Blur {
        by: Place,
        passed: u64,
        behind: Option<Place>,
    },
}

impl Goal {
    ghost use Rattle.std.specs.Prelude.{◌≡◌};
    ghost use Rattle.rotor_base.specs.Place.{same_goal};

    /// Whether two goals are equal.
    pub fn equals(self, other: Goal) -> bool
        ensures { result ≡ same_goal self other }
    {
        self == other
    }
}

/// One line of a match of a module with a signature: the item, and what meets it.
#[derive(Clone, Copy, Debug, PartialEq, Eq)]
pub struct Link {
    pub item: Goal,
    pub source: Goal,
}

/// A reference and its goal.
#[derive(Clone, Copy, Debug, PartialEq, Eq)]
pub struct Ref {
    pub at: Place,
    pub goal: Goal,
}

/// What binds a project: its references, its links, and the groups in which no name may occur twice.
#[derive(Debug, Drop)]
pub struct Facts {
    pub refs: Row<Ref>,
    pub links: Row<Link>,
    pub groups: Row<Row<Place>>,
}

/// The declarations that are renamed together, in order, and the least of them that is linked with the outside.
#[derive(Debug, Drop)]
pub struct Foot {
    pub decls: Row<Place>,
    pub outside: Option<Place>,
}
