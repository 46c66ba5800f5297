//! A watched renaming.
ghost use Rattle.std.specs.Prelude.{◌≡◌, IfOk};
ghost use Rattle.shape_core.specs.Looks as pure;
ghost use Rattle.shape_core.specs.Node.{entries_of};
ghost use Rattle.shape_core.specs.Shape.{entries_in};

use crate::places::set_of;
use rotor_base::{Foot, Goal, Memory, Name, Place, Row, Watch};
use shape_core::{LookSpot, Scope, Shared, is_among, last_member_of, last_other_of};
use std::alloc::Global;
use std::collections::BTreeSet;
use std::marker::Model;

/// A watched renaming that has the members of its footprint as a set too. Contracts see the `Watch`.
#[derive(Debug, Drop)]
pub struct Watched {
    watch: Watch,
    members: BTreeSet<Place>,
}

impl Model for Watched {
    ghost use Rattle.rotor_base.specs.declared.looks.Watch.{Watch};
    ghost use Rattle.shape_core.specs.Places.{HasPlaces};

    ghost Value = { Watch };

    ghost view = { λ w. w.watch };

    ghost invariant = { λ w. HasPlaces w.watch.foot.decls w.members };
}

impl Watched {
    /// A copy of this renaming, which is watched from now on.
    ///
    /// # Errors
    ///
    /// `Memory` alone.
    pub fn new(alloc: Global, watch: &Watch) -> Result<Self, Memory>
        ensures { IfOk result (λ watched. watched ≡ watch.now) }
    {
        let watch = copy_watch(alloc, watch)?;
        let members = set_of(alloc, watch.foot.decls.as_slice())?;
        Ok(Watched { watch, members })
    }

    /// The two names and the footprint. It takes no memory.
    pub fn as_watch(&self) -> &Watch
        ensures { result.now ≡ self.now }
    {
        &self.watch
    }

    /// Whether a goal is a member of the footprint. It takes no memory.
    pub fn is_member(&self, goal: Goal) -> bool
        ensures { result ≡ pure.is_member self.now goal }
    {
        is_among(goal, &self.members)
    }

    /// The last value of a scope that is a member of the footprint. The scope keeps what was found for the next call.
    ///
    /// # Errors
    ///
    /// `Memory` alone.
    pub fn last_member(&self, scope: &mut Scope) -> Result<Option<LookSpot>, Memory>
        ensures found { IfOk result (λ spot. spot ≡ pure.last_where (pure.in_foot self.now) (entries_of scope.old)) }
        ensures kept { scope.new ≡ scope.old }
    {
        scope.last_member(self.watch.foot.decls.as_slice(), &self.members)
    }

    /// The last value of a structure that is a member of the footprint. It costs a look-up for each member, and takes
    /// no memory.
    pub fn last_member_of(&self, shape: &Shared) -> Option<LookSpot>
        ensures { result ≡ pure.last_where (pure.in_foot self.now) (entries_in shape.now) }
    {
        last_member_of(shape, self.watch.foot.decls.as_slice())
    }

    /// The last value of a structure that has the old name and is no member of the footprint. It costs a step for each
    /// later value of the name, and takes no memory.
    pub fn last_other_of(&self, shape: &Shared) -> Option<LookSpot>
        ensures { result ≡ pure.last_where (pure.other_old self.now) (entries_in shape.now) }
    {
        last_other_of(shape, self.watch.old.as_bytes(), &self.members)
    }
}

fn copy_watch(alloc: Global, watch: &Watch) -> Result<Watch, Memory>
    ensures { IfOk result (λ copy. copy ≡ watch.now) }
{
    let old = Name::new(alloc, watch.old.as_bytes())?;
    let new = Name::new(alloc, watch.new.as_bytes())?;
    let decls = copy_places(alloc, watch.foot.decls.as_slice())?;
    let foot = Foot {
        decls,
        outside: watch.foot.outside,
    };
    Ok(Watch { old, new, foot })
}

fn copy_places(alloc: Global, places: &[Place]) -> Result<Row<Place>, Memory>
    ensures { IfOk result (λ copy. copy ≡ places.now) }
{
    let mut copy = Row::new(alloc);
    for place in places {
        copy.push(*place)?;
    }
    Ok(copy)
}
