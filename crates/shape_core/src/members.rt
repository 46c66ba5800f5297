//! The members of a footprint in a list of entries that grows at its end and is cut back.

ghost use Rattle.std.specs.Prelude.{◌≡◌, ◌≤◌, ◌<◌, ◌+◌, ◌∷◌, ◌++◌, [], List, OnErr, OnOk, true, length};
ghost use Rattle.shape_core.specs.declared.shared.SharedEntry.{SharedEntry};
ghost use Rattle.shape_core.specs.Members.{HasMembers, IsLastMember, dark_of, final, spot_at};
ghost use Rattle.shape_core.specs.Places.{HasPlaces, is_among};

use crate::index::{LookSpot, Spot, is_spot, place_of};
use crate::shared::SharedEntry;
use rotor_base::{Goal, Memory, Place};
use std::alloc::Global;
use std::collections::BTreeSet;

/// The members of a footprint among the first entries of a list.
pub struct Members {
    /// The declarations of the footprint.
    pub decls: Vec<Place>,
    /// So many entries of the list were looked at.
    pub noted: usize,
    /// The members among these entries, in order.
    pub spots: Vec<Spot>,
    /// The number of Dark entries among them.
    pub darks: usize,
}

impl Drop for Members {
    fn drop(self) {
        let Members {
            decls: _,
            noted: _,
            spots: _,
            darks: _,
        } = self;
    }
}

impl Members {
    /// No members yet, of no footprint.
    pub fn new(alloc: Global) -> Self
        ensures { (list : List SharedEntry) → HasMembers result list }
    {
        Members {
            decls: Vec::new(alloc),
            noted: 0,
            spots: Vec::new(alloc),
            darks: 0,
        }
    }

    /// Turns to this footprint. If it is the same as before, the members that were noted stay. `Memory` is the only
    /// error.
    pub fn turn_to(&mut self, alloc: Global, decls: &[Place]) -> Result<(), Memory>
        ensures turned { OnOk result (self.new.decls.items ≡ decls.now) }
        ensures kept { (list : List SharedEntry) → HasMembers self.old list → HasMembers self.new list }
    {
        if are_same(&self.decls, decls) {
            return Ok(());
        }
        self.decls = decls.to_vec(alloc)?;
        self.noted = 0;
        self.spots = Vec::new(alloc);
        self.darks = 0;
        Ok(())
    }

    /// Notes each member among the entries of the list that were not noted before. `Memory` is the only error. After
    /// it, what was noted stays right.
    pub fn note_all(&mut self, entries: &[SharedEntry], set: &BTreeSet<Place>) -> Result<(), Memory>
        requires members { HasPlaces self.old.decls.items set.now }
        requires has { HasMembers self.old entries.now }
        ensures has { HasMembers self.new entries.now }
        ensures same { self.new.decls ≡ self.old.decls }
        ensures all { OnOk result (self.new.noted ≡ length entries.now) }
    {
        while self.noted < entries.len() {
            self.note_next(entries, set)?;
        }
        Ok(())
    }

    /// Notes the next entry.
    fn note_next(&mut self, entries: &[SharedEntry], set: &BTreeSet<Place>) -> Result<(), Memory>
        requires members { HasPlaces self.old.decls.items set.now }
        requires has { HasMembers self.old entries.now }
        requires more { self.old.noted < length entries.now }
        ensures has { HasMembers self.new entries.now }
        ensures same { self.new.decls ≡ self.old.decls }
        ensures next { OnOk result (self.new.noted ≡ self.old.noted + 1) }
    {
        let position = self.noted;
        self.add(&entries[position], set)?;
        self.noted = position + 1;
        Ok(())
    }

    /// Adds what the next entry is.
    fn add(&mut self, entry: &SharedEntry, set: &BTreeSet<Place>) -> Result<(), Memory>
        requires members { HasPlaces self.old.decls.items set.now }
        ensures spots { OnOk result (self.new.spots.items ≡ self.old.spots.items ++ spot_at self.old.decls.items self.old.noted self.old.darks entry.now) }
        ensures darks { OnOk result (self.new.darks ≡ self.old.darks + dark_of entry.now) }
        ensures spots_kept { OnErr result (self.new.spots.items ≡ self.old.spots.items) }
        ensures darks_kept { OnErr result (self.new.darks ≡ self.old.darks) }
        ensures decls { self.new.decls ≡ self.old.decls }
        ensures noted { self.new.noted ≡ self.old.noted }
    {
        match entry {
            SharedEntry::Val(_, goal) => {
                if is_among(*goal, set) {
                    self.spots.push(Spot {
                        goal: *goal,
                        position: self.noted,
                        darks: self.darks,
                    })?;
                }
                Ok(())
            }
            SharedEntry::Mod(_, _) => Ok(()),
            SharedEntry::Mty(_, _) => Ok(()),
            SharedEntry::Dark(_) => {
                let Some(darks) = self.darks.checked_add(1) else {
                    return Err(Memory);
                };
                self.darks = darks;
                Ok(())
            }
        }
    }

    /// Takes the last entry of the list out, behind which so many are left.
    pub fn take_out(&mut self, entry: &SharedEntry, left: usize)
        ensures { (list : List SharedEntry) → length list ≡ left → HasMembers self.old (list ++ entry.now ∷ []) → HasMembers self.new list }
    {
        if self.noted <= left {
            return;
        }
        self.noted = left;
        match entry {
            SharedEntry::Val(_, _) => {
                if is_spot(final_spot(&self.spots), left) {
                    self.spots.pop();
                }
            }
            SharedEntry::Mod(_, _) => {}
            SharedEntry::Mty(_, _) => {}
            SharedEntry::Dark(_) => self.darks = self.darks.saturating_sub(1),
        }
    }

    /// The last member of a list that was noted whole and has so many Dark entries.
    pub fn find_last(&self, darks: u64) -> Option<LookSpot>
        ensures { IsLastMember self.now darks result }
    {
        let spot = final_spot(&self.spots)?;
        let after = darks.saturating_sub(spot.darks as u64);
        Some((spot.position as u64, place_of(spot.goal), after))
    }
}

/// Whether a goal is the declaration at a place of a set. It takes no memory.
pub fn is_among(goal: Goal, set: &BTreeSet<Place>) -> bool
    ensures { (places : List Place) → HasPlaces places set.now → result ≡ is_among places goal }
{
    match goal {
        Goal::Decl(place) => set.contains(&place),
        Goal::Outside => false,
        Goal::Missing => false,
        Goal::Hidden => false,
        Goal::Blur { .. } => false,
    }
}

/// The last of some spots.
fn final_spot(spots: &[Spot]) -> Option<Spot>
    ensures { result ≡ final spots.now }
{
    spots.last().copied()
}

/// Whether two lists of places are the same.
fn are_same(some: &[Place], others: &[Place]) -> bool
    ensures { result ≡ true → some.now ≡ others.now }
{
    if some.len() != others.len() {
        return false;
    }
    for at in 0..some.len() {
        if some[at].file != others[at].file || some[at].token != others[at].token {
            return false;
        }
    }
    true
}
