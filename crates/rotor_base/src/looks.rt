//! What the look-ups of a project would find under a new name.

use crate::{Foot, Name, Place, Row};

/// A renaming that is being weighed: the old name, the new one, and the footprint.
#[derive(Debug, Drop)]
pub struct Watch {
    pub old: Name,
    pub new: Name,
    pub foot: Foot,
}

/// What a reference's look-up passes. A triple is a position in a list from 0, a declaration, and the number of
/// outside modules after that position.
#[derive(Clone, Copy, Debug)]
pub struct RefLook {
    pub at: Place,
    pub goal: crate::Goal,
    pub is_new: bool,
    pub darks: u64,
    pub by: Option<Place>,
    pub foot: Option<(u64, Place, u64)>,
    pub new: Option<(u64, Place, u64)>,
}

/// What a link's look-up passes, for the link of that number. Triples are those of [`RefLook`].
#[derive(Clone, Copy, Debug)]
pub struct LinkLook {
    pub number: u64,
    pub item: Place,
    pub is_new: bool,
    pub later_foot: bool,
    pub later_old: bool,
    pub later_new: bool,
    pub pinned: bool,
    pub darks: u64,
    pub by: Option<Place>,
    pub foot: Option<(u64, Place, u64)>,
    pub old: Option<(u64, Place, u64)>,
    pub new: Option<(u64, Place, u64)>,
}

/// The looks of all references and of the links that a renaming can touch, and the number of all links.
#[derive(Debug, Drop)]
pub struct Looks {
    pub refs: Row<RefLook>,
    pub links: Row<LinkLook>,
    pub passed: u64,
}
