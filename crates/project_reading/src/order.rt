//! The units in the order of linking.

ghost use Rattle.std.specs.Prelude.{◌≡◌, ◌<◌, All, IfErr, IfOk, None, OnOk, length, map, true};
ghost use Rattle.std.specs.Option.{option_copied};
ghost use Rattle.std.specs.List.Sorted.{IsStrictlySortedBy};
ghost use Rattle.std.specs.Ordering.{nat_cmp};
ghost use Rattle.std.specs.Cmp.Lexicographic.{slice_cmp};
ghost use Rattle.value_sites.specs.Sound.{AreDistinct};
ghost use Rattle.unit_order.specs.Order.{IsListed, order_of, takes_all};
ghost use Rattle.unit_order.specs.Positions.{names_at, unit_at, views};
ghost use Rattle.project_reading.specs.Reads.{IsOrderRefused};

use ml_trees::UnitTree;
use rotor_base::{Memory, Refusal};
use std::alloc::Global;
use unit_order::{OrderError, order};

/// The positions of units in the order of linking.
pub(crate) fn link_order(
    alloc: Global,
    units: &[UnitTree],
    manifest: Option<&[u8]>,
) -> Result<Vec<u32>, Refusal>
    requires count { length units.now < 4294967296 }
    requires sorted { IsStrictlySortedBy (slice_cmp nat_cmp) (map (λ unit. unit.name) units.now) }
    requires listed { IsListed (views units.now) (option_copied manifest) }
    ensures order { IfOk result (λ order. names_at (views units.now) order.items ≡ order_of (views units.now) (option_copied manifest.entry)) }
    ensures inside { IfOk result (λ order. All (λ at. at < length units.now) order.items) }
    ensures taken { OnOk result (option_copied manifest.entry ≡ None → takes_all (views units.now) ≡ true) }
    ensures refused { IfErr result (IsOrderRefused (views units.now) (option_copied manifest.entry)) }
{
    match order(alloc, units, manifest) {
        Ok(positions) => Ok(positions),
        Err(OrderError::Cycle { unit }) => Err(Refusal::Cycle { unit }),
        Err(OrderError::Memory) => Err(Refusal::Memory),
    }
}

/// The units at these positions, in order.
pub(crate) fn units_at(
    alloc: Global,
    units: Vec<UnitTree>,
    positions: &[u32],
) -> Result<Vec<UnitTree>, Memory>
    requires inside { All (λ at. at < length units.items) positions.now }
    requires once { AreDistinct positions.now }
    ensures { IfOk result (λ list. views list.items ≡ map (unit_at (views units.items)) positions.now) }
{
    let mut left = Vec::new(alloc);
    for unit in units {
        left.push(Some(unit))?;
    }
    let mut list = Vec::new(alloc);
    for at in positions {
        if let Some(unit) = left[*at as usize].take() {
            list.push(unit)?;
        }
    }
    Ok(list)
}
