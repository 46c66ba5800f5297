//! The state of a resolver at its start, and what it has found at its end.

ghost use Rattle.std.specs.Prelude.{◌≡◌, IfOk};
ghost use Rattle.binding_model.specs.Facts.{in_order};
ghost use Rattle.binding_model.specs.Taken.{nothing_found};
ghost use Rattle.found_facts.specs.Kept.{looks_kept, found_from};

use crate::sorting::{looks_in_order, refs_in_order};
use binding_model::{Found, Recorder, Sums};
use rotor_base::{Facts, Looks, Memory, Row};
use std::alloc::Global;

/// The state of a resolver at its start, with a recorder or without.
pub fn start_from_nothing(alloc: Global, recorder: Option<Recorder>) -> Found
    ensures { result ≡ nothing_found recorder }
{
    Found {
        refs: Row::new(alloc),
        links: Row::new(alloc),
        groups: Row::new(alloc),
        sums: Sums {
            weight: 0,
            work: 0,
            opened: 0,
        },
        recorder,
    }
}

/// The state of a resolver that begins with some sums.
pub fn start_from_sums(alloc: Global, sums: Sums) -> Found
    ensures { result ≡ found_from sums }
{
    Found {
        refs: Row::new(alloc),
        links: Row::new(alloc),
        groups: Row::new(alloc),
        sums,
        recorder: None,
    }
}

/// What is found, with the references in the order of their places. `Memory` is the only error.
pub fn facts_in(found: Found) -> Result<Facts, Memory>
    ensures { IfOk result (λ facts. facts ≡ record { refs = in_order (λ r. r.at) found.refs; links = found.links; groups = found.groups }) }
{
    let Found {
        refs,
        links,
        groups,
        ..
    } = found;
    let refs = refs_in_order(refs)?;
    Ok(Facts {
        refs,
        links,
        groups,
    })
}

/// The recorded looks, those of references in the order of their places. `Memory` is the only error.
pub fn looks_in(found: Found) -> Result<Looks, Memory>
    ensures { IfOk result (λ looks. looks ≡ looks_kept found.recorder) }
{
    let Found { recorder, .. } = found;
    match recorder {
        Some(Recorder { looks, .. }) => sort_looks(looks),
        None => Err(Memory),
    }
}

fn sort_looks(looks: Looks) -> Result<Looks, Memory>
    ensures { IfOk result (λ sorted. sorted ≡ record looks { refs = in_order (λ look. look.at) looks.refs }) }
{
    let Looks {
        refs,
        links,
        passed,
    } = looks;
    let refs = looks_in_order(refs)?;
    Ok(Looks {
        refs,
        links,
        passed,
    })
}
