//! The order that a manifest gives.

ghost use Rattle.std.specs.Prelude.{◌≡◌, ◌<◌, ◌++◌, ◌∷◌, [], IfOk, OnOk, All, Some, length, filter, true};
ghost use Rattle.std.specs.List.{list_any, position};
ghost use Rattle.std.specs.Str.{bytes_eq};
ghost use Rattle.unit_order.specs.Order.{IsListed, is_filled, manifest_order};
ghost use Rattle.unit_order.specs.Positions.{views, names_at};

use ml_trees::UnitTree;
use rotor_base::{Memory, next_line};
use std::alloc::Global;

/// The positions of the units in the order of a manifest's lines, which list all of them. `Memory` is the only error.
pub fn list_order(alloc: Global, units: &[UnitTree], manifest: &[u8]) -> Result<Vec<u32>, Memory>
    requires count { length units.now < 4294967296 }
    requires listed { IsListed (views units.now) (Some manifest.now) }
    ensures order { IfOk result (λ order. names_at (views units.now) order.items ≡ manifest_order manifest.now) }
    ensures inside { IfOk result (λ order. All (λ at. at < length units.now) order.items) }
{
    let mut order = Vec::new(alloc);
    let mut rest = manifest;
    while let Some((line, behind)) = next_line(rest) {
        add_line(&mut order, units, line)?;
        rest = behind;
    }
    Ok(order)
}

/// Adds the position of the unit that a line names, if the line is not empty.
fn add_line(order: &mut Vec<u32>, units: &[UnitTree], line: &[u8]) -> Result<(), Memory>
    requires count { length units.now < 4294967296 }
    requires named { is_filled line.now ≡ true → list_any (λ unit. bytes_eq unit.name line.now) units.now ≡ true }
    ensures names { OnOk result (names_at (views units.now) order.new.items ≡ names_at (views units.now) order.old.items ++ filter is_filled (line.now ∷ [])) }
    ensures inside { OnOk result (All (λ at. at < length units.now) order.old.items → All (λ at. at < length units.now) order.new.items) }
{
    if line.is_empty() {
        return Ok(());
    }
    if let Some(at) = unit_named(units, line) {
        order.push(at as u32)?;
    }
    Ok(())
}

/// The position of the first unit of a name.
fn unit_named(units: &[UnitTree], name: &[u8]) -> Option<usize>
    ensures { result ≡ position (λ unit. bytes_eq unit.name name.now) units.now }
{
    units.iter().position(|unit| unit.name.as_bytes() == name)
}
