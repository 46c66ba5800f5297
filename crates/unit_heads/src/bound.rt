//! The names of modules that are bound around a tree.

ghost use Rattle.std.specs.Prelude.{◌≡◌, ◌++◌, ◌∷◌, [], OnOk, length, take};
ghost use Rattle.unit_heads.specs.Heads.{is_among};

use crate::counts::Counts;
use rotor_base::{Memory, Name};
use std::alloc::Global;
use std::marker::Model;

/// The names of modules that are bound around a tree, the innermost last. Contracts see it as their list. A look-up
/// does not walk the list.
#[derive(Drop)]
pub struct Bound {
    names: Vec<Name>,
    counts: Counts,
}

impl Model for Bound {
    ghost use Rattle.std.specs.Prelude.{List, ℕ};
    ghost use Rattle.unit_heads.specs.Counts.{AreCounts};

    ghost Value = { List (List ℕ) };

    ghost view = { λ bound. bound.names.items };

    ghost invariant = { λ bound. AreCounts bound.counts bound.names.items };
}

impl Bound {
    /// No names.
    pub fn new(alloc: Global) -> Self
        ensures { result ≡ [] }
    {
        Bound {
            names: Vec::new(alloc),
            counts: Counts::new(alloc),
        }
    }

    /// Whether a name is bound.
    pub fn contains(&self, name: &[u8]) -> bool
        ensures { result ≡ is_among self.now name.now }
    {
        self.counts.contains(name)
    }

    /// The number of names.
    pub fn len(&self) -> usize
        ensures { result ≡ length self.now }
    {
        self.names.len()
    }

    /// Adds a name behind the others. `Memory` is the only error.
    pub fn push(&mut self, alloc: Global, name: &[u8]) -> Result<(), Memory>
        ensures { OnOk result (self.new ≡ self.old ++ name.now ∷ []) }
    {
        self.names.push(Name::new(alloc, name)?)?;
        match self.counts.add(alloc, name) {
            Ok(()) => Ok(()),
            Err(failed) => {
                self.names.pop();
                Err(failed)
            }
        }
    }

    /// Keeps the first `len` names. It costs a look-up for each name that goes, and takes no memory.
    pub fn cut(&mut self, len: usize)
        ensures { self.new ≡ take len self.old }
    {
        while self.names.len() > len {
            if let Some(name) = self.names.pop() {
                self.counts.take_out(name.as_bytes());
            }
        }
    }
}
