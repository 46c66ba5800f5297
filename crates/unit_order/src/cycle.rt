//! The search for the first unit that lies on a cycle of needs.

ghost use Rattle.std.specs.Prelude.{◌≡◌, ◌<◌, ◌++◌, ◌∷◌, [], OnOk, IfOk, IfSome, IfNone, IsTrue, All, map, take, length, slice_set, slice_index_or, true, false, if◌then◌else◌};
ghost use Rattle.unit_order.specs.Positions.{views, unit_at};
ghost use Rattle.unit_order.specs.Needs.{AreNeeds};
ghost use Rattle.unit_order.specs.Order.{LiesOnCycle};

use ml_trees::UnitTree;
use rotor_base::Memory;
use std::alloc::Global;

/// The position of the first unit that lies on a cycle of needs, or none. `Memory` is the only error.
pub fn first_on_cycle(
    alloc: Global,
    units: &[UnitTree],
    needs: &[Vec<usize>],
) -> Result<Option<usize>, Memory>
    requires { AreNeeds (views units.now) (map (λ list. list.items) needs.now) }
    ensures inside { IfOk result (λ found. IfSome found (λ at. at < length units.now)) }
    ensures found { IfOk result (λ found. IfSome found (λ at. LiesOnCycle (views units.now) (unit_at (views units.now) at))) }
    ensures first { IfOk result (λ found. IfSome found (λ at. All (λ u. LiesOnCycle (views units.now) u → ⊥) (take at (views units.now)))) }
    ensures none { IfOk result (λ found. IfNone found (All (λ u. LiesOnCycle (views units.now) u → ⊥) (views units.now))) }
{
    for at in 0..units.len() {
        if leads_back(alloc, units, needs, at)? {
            return Ok(Some(at));
        }
    }
    Ok(None)
}

/// Whether a chain of needs leads from a unit back to it.
fn leads_back(
    alloc: Global,
    units: &[UnitTree],
    needs: &[Vec<usize>],
    start: usize,
) -> Result<bool, Memory>
    requires inside { start < length units.now }
    requires needs { AreNeeds (views units.now) (map (λ list. list.items) needs.now) }
    ensures yes { IfOk result (λ found. IsTrue found → LiesOnCycle (views units.now) (unit_at (views units.now) start)) }
    ensures no { IfOk result (λ found. LiesOnCycle (views units.now) (unit_at (views units.now) start) → IsTrue found) }
{
    if needs[start].is_empty() {
        return Ok(false);
    }
    let mut marked = vec![in alloc; false; units.len()]?;
    let mut queue = vec![in alloc; start]?;
    let mut done = 0;
    while done < queue.len() {
        let at = queue[done];
        for next in &needs[at] {
            mark(*next, &mut marked, &mut queue)?;
        }
        done += 1;
    }
    Ok(marked[start])
}

/// Marks a unit, and puts it at the end of the queue if it was not marked.
fn mark(next: usize, marked: &mut Vec<bool>, queue: &mut Vec<usize>) -> Result<(), Memory>
    requires { next < length marked.old.items }
    ensures marks { OnOk result (marked.new.items ≡ slice_set marked.old.items next true) }
    ensures queue { OnOk result (queue.new.items ≡ (if slice_index_or marked.old.items next false then queue.old.items else queue.old.items ++ next ∷ [])) }
{
    if marked[next] {
        return Ok(());
    }
    queue.push(next)?;
    marked[next] = true;
    Ok(())
}
