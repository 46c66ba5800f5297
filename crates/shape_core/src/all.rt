//! The entries of a scope, one by one.

ghost use Rattle.std.specs.Prelude.{◌≡◌, drop};
ghost use Rattle.std.specs.Iterator.{YieldsFirstRef, item_count};

use crate::scope::Scope;
use crate::shared::SharedEntry;

/// An iterator that lends the entries of a scope in order. It takes no memory.
#[derive(Drop)]
pub struct AllEntries<'a> {
    scope: &'a Scope,
    at: usize,
}

impl<'a> Iterator for AllEntries<'a> {
    type Item = &'a SharedEntry;

    ghost next_gives = { YieldsFirstRef (λ s. drop s.at s.scope.now) };

    ghost remaining = { item_count (λ s. drop s.at s.scope.now) };

    fn next(&mut self) -> Option<&'a SharedEntry> {
        if self.at >= self.scope.len() {
            return None;
        }
        match self.scope.get(self.at) {
            Some(entry) => {
                self.at += 1;
                Some(entry)
            }
            None => None,
        }
    }
}

impl Scope {
    /// The entries in order, lent one by one. It takes no memory.
    pub fn all(&self) -> AllEntries<'_>
        ensures { drop result.at result.scope.now ≡ self.now }
    {
        AllEntries { scope: self, at: 0 }
    }
}
