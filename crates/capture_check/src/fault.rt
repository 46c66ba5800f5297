use rotor_base::{Goal, Place};

/// Where a renamed project differs from the project that it was.
#[derive(Clone, Copy, Debug)]
pub enum Fault {
    /// A group would have a name twice: the least place that repeats one, and the least place of that name there.
    Clash { first: Place, again: Place },
    /// A reference would have another goal.
    Capture { at: Place, was: Goal, would: Goal },
    /// A link would have another source.
    Mislink { item: Goal, was: Goal, would: Goal },
}

/// A place whose goal changes.
#[derive(Clone, Copy, Debug)]
pub struct Change {
    pub at: Place,
    pub was: Goal,
    pub would: Goal,
}

/// Two places of a group that have one name; `first` is before `again`.
#[derive(Clone, Copy, Debug)]
pub struct Repeat {
    pub first: Place,
    pub again: Place,
}
