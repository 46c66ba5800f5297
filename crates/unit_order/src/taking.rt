//! The taking of units: how many needed units each one waits for, and the order in which they are taken.

ghost use Rattle.std.specs.Prelude.{◌≡◌, ◌||◌, ◌+◌, ◌-◌, ◌<◌, ◌≤◌, ℕ, IfOk, All, None, false, count_by, get_or, length, map, nat_eq, not};
ghost use Rattle.std.specs.List.{position};
ghost use Rattle.std.specs.List.Sorted.{IsStrictlySortedBy};
ghost use Rattle.std.specs.Ordering.{nat_cmp};
ghost use Rattle.std.specs.Cmp.Lexicographic.{slice_cmp};
ghost use Rattle.unit_heads.specs.Heads.{is_among};
ghost use Rattle.unit_order.specs.Order.{derived_order, first_ready};
ghost use Rattle.unit_order.specs.Positions.{views, names_at};
ghost use Rattle.unit_order.specs.Needs.{need_table, positions_from};
ghost use Rattle.unit_order.specs.Turns.{waits_after, is_free, NoneFreeBefore};
ghost use Rattle.unit_order.specs.declared.taking.Waiting.{Waiting};

use crate::need_lists::user_lists;
use ml_trees::UnitTree;
use rotor_base::Memory;
use std::alloc::Global;

/// A unit in the taking: how many of the units that it needs are not taken, and whether it is taken itself.
#[derive(Clone, Copy, Debug)]
pub struct Waiting {
    pub missing: u32,
    pub taken: bool,
}

impl Waiting {
    /// Whether it can be taken.
    fn is_free(self) -> bool
        ensures { result ≡ is_free self }
    {
        !self.taken && self.missing == 0
    }

    /// How it waits once a further unit is taken, which it needs or not and is or not.
    fn wait_on(self, needed: bool, itself: bool) -> Self
        ensures { result ≡ waits_after needed itself self }
    {
        Waiting {
            missing: if needed {
                self.missing.saturating_sub(1)
            } else {
                self.missing
            },
            taken: self.taken || itself,
        }
    }
}

/// The positions of the units in the order in which they are taken, each time the first whose needed units are all
/// taken, until there is none. The search goes on where it ended, or from the first unit before it that can be taken
/// now. So all of it costs no more than the units and the units times the needs. `Memory` is the only error.
pub fn take_ready(
    alloc: Global,
    units: &[UnitTree],
    needs: &[Vec<usize>],
) -> Result<Vec<u32>, Memory>
    requires count { length units.now < 4294967296 }
    requires sorted { IsStrictlySortedBy (slice_cmp nat_cmp) (map (λ unit. unit.name) units.now) }
    requires needs { map (λ list. list.items) needs.now ≡ map (positions_from 0) (need_table (views units.now)) }
    ensures order { IfOk result (λ order. names_at (views units.now) order.items ≡ derived_order (views units.now)) }
    ensures inside { IfOk result (λ order. All (λ at. at < length units.now) order.items) }
    ensures stopped { IfOk result (λ order. length order.items < length units.now → first_ready (views units.now) (names_at (views units.now) order.items) (views units.now) ≡ None) }
    ensures left { IfOk result (λ order. count_by (λ v. not (is_among (names_at (views units.now) order.items) v.name)) (views units.now) + length order.items ≡ length units.now) }
{
    let users = user_lists(alloc, needs)?;
    let mut waiting = start_waiting(alloc, needs)?;
    let mut order = Vec::new(alloc);
    let mut from = 0;
    for _turn in 0..units.len() {
        let Some(at) = next_free(&waiting, from) else {
            return Ok(order);
        };
        from = take_unit(&mut waiting, &users[at], at);
        order.push(at as u32)?;
    }
    Ok(order)
}

/// How the units wait at first.
fn start_waiting(alloc: Global, needs: &[Vec<usize>]) -> Result<Vec<Waiting>, Memory>
    requires { All (λ list. length list.items < 4294967296) needs.now }
    ensures { IfOk result (λ waiting. waiting.items ≡ map (λ list. record { missing = length list.items; taken = false }) needs.now) }
{
    let mut waiting = Vec::new(alloc);
    for list in needs {
        waiting.push(Waiting {
            missing: list.len() as u32,
            taken: false,
        })?;
    }
    Ok(waiting)
}

/// Takes a unit: those that need it wait for one less. Gives a position before which no unit can be taken then.
fn take_unit(waiting: &mut [Waiting], users: &[usize], at: usize) -> usize
    requires at { at < length waiting.old }
    requires users { All (λ user. user < length waiting.old) users.now }
    requires before { NoneFreeBefore at waiting.old }
    ensures size { length waiting.new ≡ length waiting.old }
    ensures each { (k : ℕ) (d : Waiting) → k < length waiting.old → get_or waiting.new k d ≡ record { missing = (get_or waiting.old k d).missing - count_by (nat_eq k) users.now; taken = (get_or waiting.old k d).taken || nat_eq k at } }
    ensures inside { result ≤ length waiting.new }
    ensures before { NoneFreeBefore result waiting.new }
{
    waiting[at] = waiting[at].wait_on(false, true);
    let mut from = at + 1;
    for user in users {
        waiting[*user] = waiting[*user].wait_on(true, false);
        if waiting[*user].is_free() {
            from = from.min(*user);
        }
    }
    from
}

/// The first unit that can be taken, if there is none before a position.
fn next_free(waiting: &[Waiting], from: usize) -> Option<usize>
    requires inside { from ≤ length waiting.now }
    requires before { NoneFreeBefore from waiting.now }
    ensures { result ≡ position is_free waiting.now }
{
    let next = first_free(&waiting[from..])?;
    Some(from + next)
}

/// The first unit that can be taken.
fn first_free(waiting: &[Waiting]) -> Option<usize>
    ensures { result ≡ position is_free waiting.now }
{
    waiting.iter().position(|unit| unit.is_free())
}
