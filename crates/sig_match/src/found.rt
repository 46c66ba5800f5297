//! What a walk over shapes has found so far.

ghost use Rattle.std.specs.Prelude.{◌≡◌, ◌<◌, ◌+◌};
ghost use Rattle.shape_core.specs.Links.{a_step};
ghost use Rattle.sig_match.specs.declared.found.Stop.TheVariants.{Memory as no_memory};
ghost use Rattle.sig_match.specs.Walk.{Walks, trace_of, met_at, told_once};

use rotor_base::Memory;
use shape_core::Shared;
use std::alloc::{AllocError, AllocFailed};

/// A value of a structure that is linked: the structure, the position of the value in it, and the structure of the
/// link's source. The last is `None` if the value is pinned.
#[derive(Clone, Copy)]
pub struct Meeting<'a> {
    pub list: &'a Shared,
    pub at: usize,
    pub source: Option<&'a Shared>,
}

/// The values that are linked so far, in order, and the work so far.
#[derive(Drop)]
pub struct Found<'a> {
    pub meetings: Vec<Meeting<'a>>,
    pub work: u32,
}

/// Why a walk stops.
#[derive(Clone, Copy)]
pub enum Stop {
    /// The work would be more than the room.
    Over,
    /// There is not enough memory.
    Memory,
}

impl From<Memory> for Stop {
    ghost from_gives = { λ _ stop. stop ≡ no_memory };

    fn from(_error: Memory) -> Self {
        Stop::Memory
    }
}

impl From<AllocError> for Stop {
    ghost from_gives = { λ _ stop. stop ≡ no_memory };

    fn from(_error: AllocError) -> Self {
        Stop::Memory
    }
}

impl<T: Drop> From<AllocFailed<T>> for Stop {
    ghost from_gives = { λ _ stop. stop ≡ no_memory };

    fn from(_error: AllocFailed<T>) -> Self {
        Stop::Memory
    }
}

/// One unit of work. The only error is `Over`: the work has reached the room.
pub fn spend(room: u32, found: &mut Found) -> Result<(), Stop>
    ensures { Walks result room (trace_of found.old) (trace_of found.new) a_step }
{
    if found.work >= room {
        return Err(Stop::Over);
    }
    found.work += 1;
    Ok(())
}

/// One value that is linked, at one unit of work. The errors are `Over`, if the work has reached the room, and
/// `Memory`.
pub fn meet<'a>(meeting: Meeting<'a>, room: u32, found: &mut Found<'a>) -> Result<(), Stop>
    ensures { Walks result room (trace_of found.old) (trace_of found.new) (told_once (met_at meeting.entry)) }
{
    spend(room, found)?;
    found.meetings.push(meeting)?;
    Ok(())
}
