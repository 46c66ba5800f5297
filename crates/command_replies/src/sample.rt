//! The reply to `sample`.
ghost use Rattle.std.specs.Prelude.{IfOk};
ghost use Rattle.command_replies.specs.Said.{SaysSample};

use crate::reply::{Reply, refused_reply, silent_reply};
use rotor_base::{Memory, Outcome};
use sample_project::sample;
use std::alloc::Global;

/// The reply to `sample` over so many units. `Memory` is the only error.
pub fn reply_to_sample(alloc: Global, units: u32) -> Result<Reply, Memory>
    ensures { IfOk result (SaysSample units) }
{
    match sample(alloc, units) {
        Ok(sampled) => silent_reply(alloc, false, &[], &Outcome::Sampled(sampled)),
        Err(refusal) => refused_reply(alloc, false, &[], refusal),
    }
}
