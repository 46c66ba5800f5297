//! The order of linking.

ghost use Rattle.std.specs.Prelude.{◌≡◌, ◌<◌, IfOk, IfErr, OnOk, All, None, length, map, true};
ghost use Rattle.std.specs.Option.{option_copied};
ghost use Rattle.std.specs.List.Sorted.{IsStrictlySortedBy};
ghost use Rattle.std.specs.Ordering.{nat_cmp};
ghost use Rattle.std.specs.Cmp.Lexicographic.{slice_cmp};
ghost use Rattle.unit_order.specs.Order.{IsListed, derived_order, order_of, takes_all};
ghost use Rattle.unit_order.specs.Positions.{views, names_at};
ghost use Rattle.unit_order.specs.Errors.{IsOrderError};

use crate::cycle::first_on_cycle;
use crate::listed::list_order;
use crate::need_lists::need_lists;
use crate::taking::take_ready;
use ml_trees::UnitTree;
use rotor_base::{Memory, Name};
use std::alloc::Global;
use thiserror::Error;

/// Why units have no order.
#[derive(Debug, Drop, Error)]
pub enum OrderError {
    /// The first unit that lies on a cycle of needs.
    #[error("a unit needs itself")]
    Cycle { unit: Name },
    #[error("out of memory")]
    Memory,
}

impl From<Memory> for OrderError {
    ghost use Rattle.std.specs.Prelude.{◌≡◌};
    ghost use Rattle.unit_order.specs.declared.link_order.OrderError.TheVariants as variant;

    ghost from_gives = { λ _ error. error ≡ variant.Memory };

    fn from(_error: Memory) -> Self {
        OrderError::Memory
    }
}

/// The positions of the units in the order of linking, counted from 0: the order of the manifest if there is one,
/// and else again and again the first unit in byte order whose needed units are all taken (the manual's chapters on
/// batch compilation and the dependency generator).
///
/// # Errors
///
/// `Cycle`, exactly if there is no manifest and units remain of which none can be taken: it names the first unit in
/// byte order that lies on a cycle of needs. `Memory`.
pub fn order(
    alloc: Global,
    units: &[UnitTree],
    manifest: Option<&[u8]>,
) -> Result<Vec<u32>, OrderError>
    requires count { length units.now < 4294967296 }
    requires sorted { IsStrictlySortedBy (slice_cmp nat_cmp) (map (λ unit. unit.name) units.now) }
    requires listed { IsListed (views units.now) (option_copied manifest) }
    ensures order { IfOk result (λ order. names_at (views units.now) order.items ≡ order_of (views units.now) (option_copied manifest.entry)) }
    ensures inside { IfOk result (λ order. All (λ at. at < length units.now) order.items) }
    ensures taken { OnOk result (option_copied manifest.entry ≡ None → takes_all (views units.now) ≡ true) }
    ensures refused { IfErr result (IsOrderError (views units.now) (option_copied manifest.entry)) }
{
    match manifest {
        Some(bytes) => Ok(list_order(alloc, units, bytes)?),
        None => derive_order(alloc, units),
    }
}

/// The positions of the units in the order in which they are taken.
fn derive_order(alloc: Global, units: &[UnitTree]) -> Result<Vec<u32>, OrderError>
    requires count { length units.now < 4294967296 }
    requires sorted { IsStrictlySortedBy (slice_cmp nat_cmp) (map (λ unit. unit.name) units.now) }
    ensures order { IfOk result (λ order. names_at (views units.now) order.items ≡ derived_order (views units.now)) }
    ensures inside { IfOk result (λ order. All (λ at. at < length units.now) order.items) }
    ensures taken { OnOk result (takes_all (views units.now) ≡ true) }
    ensures refused { IfErr result (IsOrderError (views units.now) None) }
{
    let needs = need_lists(alloc, units)?;
    let taken = take_ready(alloc, units, &needs)?;
    if taken.len() == units.len() {
        return Ok(taken);
    }
    match first_on_cycle(alloc, units, &needs)? {
        Some(at) => Err(OrderError::Cycle {
            unit: Name::new(alloc, units[at].name.as_bytes())?,
        }),
        None => Ok(taken),
    }
}
