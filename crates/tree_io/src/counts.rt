//! Counts of calls and of faults, and the calls that are to fail.
ghost use Rattle.std.specs.Prelude.{◌≡◌, ◌≤◌, ◌^◌, false};
ghost use Rattle.tree_io.specs.Counts.{next_count, is_listed};
ghost use Rattle.tree_io.specs.Outside.{Rose};

/// One more. A count at the greatest `u64` stays there.
pub(crate) fn count_up(count: u64) -> u64
    ensures value { result ≡ next_count count }
    ensures later { count ≤ result }
    ensures rose { Rose count result }
{
    count.saturating_add(1)
}

/// Whether a number is among those listed. One that fits no `u32` is not.
pub(crate) fn is_listed(failing: &[u32], number: u64) -> bool
    ensures value { result ≡ is_listed failing.now number }
    ensures small { 2 ^ 32 ≤ number → result ≡ false }
{
    failing.iter().any(|listed| u64::from(*listed) == number)
}
