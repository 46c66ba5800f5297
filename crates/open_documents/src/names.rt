//! The names of a folder and of the documents in it.
ghost use Rattle.std.specs.Prelude.{◌≡◌, ◌||◌, Bool, List, ℕ, map, string_bytes, IfOk};
ghost use Rattle.std.specs.List.{list_any};
ghost use Rattle.std.specs.List.Sorted.{IsStrictlySortedBy};
ghost use Rattle.std.specs.Ordering.{nat_cmp};
ghost use Rattle.std.specs.Cmp.Lexicographic.{slice_cmp};

use rotor_base::Memory;

/// The names of two lists, each once, in byte order.
pub(crate) fn join_names(names: Vec<String>, more: Vec<String>) -> Result<Vec<String>, Memory>
    ensures ordered { IfOk result (λ all. IsStrictlySortedBy (slice_cmp nat_cmp) (map string_bytes all.items)) }
    ensures same { IfOk result (λ all. (test : List ℕ → Bool) → list_any test (map string_bytes all.items) ≡ (list_any test (map string_bytes names.items) || list_any test (map string_bytes more.items))) }
{
    let mut names = names;
    let mut more = more;
    names.append(&mut more)?;
    names.sort_unstable();
    names.dedup();
    Ok(names)
}
