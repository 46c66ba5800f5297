//! References and their looks, in the order of their places.

ghost use Rattle.std.specs.Prelude.{◌≡◌, IfOk};
ghost use Rattle.binding_model.specs.Facts.{in_order};

use rotor_base::{Memory, Ref, RefLook, Row};

/// References in the order of their places. `Memory` is the only error.
pub fn refs_in_order(refs: Row<Ref>) -> Result<Row<Ref>, Memory>
    ensures { IfOk result (λ sorted. sorted ≡ in_order (λ r. r.at) refs) }
{
    let mut list = refs.into_vec();
    list.sort_by_key(|r| r.at)?;
    Ok(Row::from_vec(list))
}

/// Looks in the order of their places. `Memory` is the only error.
pub fn looks_in_order(looks: Row<RefLook>) -> Result<Row<RefLook>, Memory>
    ensures { IfOk result (λ sorted. sorted ≡ in_order (λ look. look.at) looks) }
{
    let mut list = looks.into_vec();
    list.sort_by_key(|look| look.at)?;
    Ok(Row::from_vec(list))
}
