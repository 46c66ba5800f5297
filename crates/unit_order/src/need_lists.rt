//! Which units need which.

ghost use Rattle.std.specs.Prelude.{◌≡◌, ◌||◌, ◌+◌, ◌<◌, ℕ, List, [], IfOk, OnOk, All, cond, count_by, false, get_or, length, map, nat_eq};
ghost use Rattle.ml_trees.specs.View.{view_unit};
ghost use Rattle.std.specs.List.Sorted.{IsStrictlySortedBy};
ghost use Rattle.std.specs.Ordering.{nat_cmp};
ghost use Rattle.std.specs.Cmp.Lexicographic.{slice_cmp};
ghost use Rattle.unit_order.specs.Order.{needs_unit};
ghost use Rattle.unit_order.specs.Positions.{views};
ghost use Rattle.unit_order.specs.Needs.{ArePositions, MarksHead, need_table, positions_from, times};

use ml_trees::UnitTree;
use name_tables::Names;
use rotor_base::Memory;
use std::alloc::Global;
use unit_heads::needs;

/// For each unit, the positions of the units that it needs, in ascending order. `Memory` is the only error.
pub fn need_lists(alloc: Global, units: &[UnitTree]) -> Result<Vec<Vec<usize>>, Memory>
    requires sorted { IsStrictlySortedBy (slice_cmp nat_cmp) (map (λ unit. unit.name) units.now) }
    ensures { IfOk result (λ lists. map (λ list. list.items) lists.items ≡ map (positions_from 0) (need_table (views units.now))) }
{
    let positions = unit_positions(alloc, units)?;
    let mut lists = Vec::new(alloc);
    for unit in units {
        let row = need_row(alloc, unit, units, &positions)?;
        lists.push(positions_in(alloc, &row)?)?;
    }
    Ok(lists)
}

/// The position of each unit by its name.
fn unit_positions(alloc: Global, units: &[UnitTree]) -> Result<Names<usize>, Memory>
    requires sorted { IsStrictlySortedBy (slice_cmp nat_cmp) (map (λ unit. unit.name) units.now) }
    ensures { IfOk result (λ positions. ArePositions positions (map (λ unit. unit.name) units.now)) }
{
    let mut positions = Names::new(alloc);
    for at in 0..units.len() {
        positions.put(alloc, units[at].name.as_bytes(), at)?;
    }
    Ok(positions)
}

/// Of each unit, whether one needs it.
fn need_row(
    alloc: Global,
    unit: &UnitTree,
    units: &[UnitTree],
    positions: &Names<usize>,
) -> Result<Vec<bool>, Memory>
    requires { ArePositions positions.now (map (λ unit. unit.name) units.now) }
    ensures { IfOk result (λ row. row.items ≡ map (λ v. needs_unit (view_unit unit.now) v.name) units.now) }
{
    let heads = needs(alloc, unit)?;
    let mut row = vec![in alloc; false; units.len()]?;
    for head in &heads {
        mark_head(&mut row, positions, unit.name.as_bytes(), head.as_bytes());
    }
    Ok(row)
}

/// Marks the unit of a head, if it is not the unit that has the head.
fn mark_head(row: &mut [bool], positions: &Names<usize>, own: &[u8], head: &[u8])
    ensures size { length row.new ≡ length row.old }
    ensures marked { MarksHead positions.now own.now head.now row.old row.new }
{
    if head == own {
        return;
    }
    if let Some(at) = positions.get(head) {
        if at < row.len() {
            row[at] = true;
        }
    }
}

/// The positions that are marked in a row.
fn positions_in(alloc: Global, row: &[bool]) -> Result<Vec<usize>, Memory>
    ensures { IfOk result (λ list. list.items ≡ positions_from 0 row.now) }
{
    let mut list = Vec::new(alloc);
    for at in 0..row.len() {
        if row[at] {
            list.push(at)?;
        }
    }
    Ok(list)
}

/// For each unit, the positions of the units that need it. `Memory` is the only error.
pub fn user_lists(alloc: Global, needs: &[Vec<usize>]) -> Result<Vec<Vec<usize>>, Memory>
    requires { All (λ list. All (λ at. at < length needs.now) list.items) needs.now }
    ensures size { IfOk result (λ users. length users.items ≡ length needs.now) }
    ensures turned { IfOk result (λ users. (i j : ℕ) → times (map (λ list. list.items) users.items) j i ≡ times (map (λ list. list.items) needs.now) i j) }
{
    let mut users = Vec::new(alloc);
    for _unit in 0..needs.len() {
        users.push(Vec::new(alloc))?;
    }
    for user in 0..needs.len() {
        add_user(&mut users, &needs[user], user)?;
    }
    Ok(users)
}

/// Adds a unit to the lists of those that it needs.
fn add_user(users: &mut [Vec<usize>], needs: &[usize], user: usize) -> Result<(), Memory>
    requires { All (λ at. at < length users.old) needs.now }
    ensures size { length users.new ≡ length users.old }
    ensures each { OnOk result ((i j : ℕ) → times (map (λ list. list.items) users.new) j i ≡ times (map (λ list. list.items) users.old) j i + cond (nat_eq i user) (count_by (nat_eq j) needs.now) 0) }
{
    for needed in needs {
        users[*needed].push(user)?;
    }
    Ok(())
}
