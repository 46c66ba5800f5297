//! How often each of some names is in a list.

ghost use Rattle.std.specs.Prelude.{◌≡◌, ◌<◌, ◌++◌, ◌∷◌, [], ℕ, List, OnOk, OnErr};
ghost use Rattle.unit_heads.specs.Counts.{AreCounts, count_of};
ghost use Rattle.unit_heads.specs.Heads.{is_among};

use name_tables::Names;
use rotor_base::Memory;
use std::alloc::Global;

/// How often each name is in a list. A look-up does not walk the list.
#[derive(Drop)]
pub struct Counts {
    numbers: Names<usize>,
}

impl Counts {
    /// The counts of the empty list.
    pub fn new(alloc: Global) -> Self
        ensures { AreCounts result [] }
    {
        Counts {
            numbers: Names::new(alloc),
        }
    }

    /// How often a name is in the list.
    fn get(&self, name: &[u8]) -> usize
        ensures { result ≡ count_of self.now name.now }
    {
        self.numbers.get(name).unwrap_or(0)
    }

    /// Whether a name is in the list.
    pub fn contains(&self, name: &[u8]) -> bool
        ensures { (list : List (List ℕ)) → AreCounts self.now list → result ≡ is_among list name.now }
    {
        self.get(name) > 0
    }

    /// Counts a name that is added to the list. An `Err` leaves the counts of the list.
    pub fn add(&mut self, alloc: Global, name: &[u8]) -> Result<(), Memory>
        requires room { count_of self.old name.now < 18446744073709551615 }
        ensures added { OnOk result ((list : List (List ℕ)) → AreCounts self.old list → AreCounts self.new (list ++ name.now ∷ [])) }
        ensures kept { OnErr result ((list : List (List ℕ)) → AreCounts self.old list → AreCounts self.new list) }
    {
        let more = self.get(name) + 1;
        self.numbers.put(alloc, name, more)?;
        Ok(())
    }

    /// Counts a name no more that leaves the end of the list.
    pub fn take_out(&mut self, name: &[u8])
        ensures { (list : List (List ℕ)) → AreCounts self.old (list ++ name.now ∷ []) → AreCounts self.new list }
    {
        if let Some(count) = self.numbers.get(name) {
            self.numbers.set(name, Some(count.saturating_sub(1)));
        }
    }
}
