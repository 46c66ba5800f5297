//! Shared shapes made of others.

ghost use Rattle.std.specs.Prelude.{◌≡◌, IfOk, option_copied};
ghost use Rattle.shape_core.specs.Shape as pure;
ghost use Rattle.shape_core.specs.Node.{entries_of, and_then};
ghost use Rattle.shape_core.specs.View.{view_shape, view_then, entries as entries_seen};

use crate::kinds::Kind;
use crate::shape::{Entry, Shape, take_level};
use crate::shared::{
    Shared, SharedEntry, entries, kind, make_functor, make_opaque, make_struct, make_unitary,
};
use rotor_base::{MAX_LEVELS, Memory, Name, Place};
use std::alloc::Global;

/// The shared form of a shape. `Memory` is the only error: there is no memory, or the shape is deeper than
/// [`MAX_LEVELS`].
pub fn share(alloc: Global, shape: &Shape) -> Result<Shared, Memory>
    ensures { IfOk result (λ shared. shared ≡ view_shape shape.now) }
{
    share_within(alloc, shape, MAX_LEVELS)
}

#[cycle(sharing_plain)]
#[tactic(auto, using(crate::proofs::Views::entries_of), unfolding(crate::specs::View::view_shape))]
fn share_within(alloc: Global, shape: &Shape, levels: usize) -> Result<Shared, Memory>
    ensures { IfOk result (λ shared. shared ≡ view_shape shape.now) }
{
    match shape {
        Shape::Struct(es) => make_struct(alloc, share_entries(alloc, es, levels)?),
        Shape::Functor(p, r) => {
            let levels = take_level(levels)?;
            let p = share_within(alloc, p, levels)?;
            let r = share_within(alloc, r, levels)?;
            make_functor(alloc, p, r)
        }
        Shape::Unitary(r) => {
            let r = share_within(alloc, r, take_level(levels)?)?;
            make_unitary(alloc, r)
        }
        Shape::Opaque => make_opaque(alloc),
    }
}

#[cycle(sharing_plain)]
fn share_entries(alloc: Global, list: &[Entry], levels: usize) -> Result<Vec<SharedEntry>, Memory>
    ensures { IfOk result (λ v. entries_of v.items ≡ entries_seen list.now) }
{
    let mut shared = Vec::new(alloc);
    for entry in list {
        shared.push(share_entry(alloc, entry, levels)?)?;
    }
    Ok(shared)
}

#[cycle(sharing_plain)]
#[tactic(auto, unfolding(crate::specs::View::view_shape))]
fn share_entry(alloc: Global, entry: &Entry, levels: usize) -> Result<SharedEntry, Memory>
    ensures { IfOk result (λ e. and_then e pure.none ≡ view_then entry.now pure.none) }
{
    match entry {
        Entry::Val(x, goal) => Ok(SharedEntry::Val(Name::new(alloc, x.as_bytes())?, *goal)),
        Entry::Mod(x, shape) => {
            let shape = share_within(alloc, shape, take_level(levels)?)?;
            Ok(SharedEntry::Mod(Name::new(alloc, x.as_bytes())?, shape))
        }
        Entry::Mty(x, shape) => {
            let shape = share_within(alloc, shape, take_level(levels)?)?;
            Ok(SharedEntry::Mty(Name::new(alloc, x.as_bytes())?, shape))
        }
        Entry::Dark(at) => Ok(SharedEntry::Dark(*at)),
    }
}

/// An entry with the same name and goal or shape. The shape is shared and not copied. `Memory` is the only error.
pub fn share_again(alloc: Global, entry: &SharedEntry) -> Result<SharedEntry, Memory>
    ensures { IfOk result (λ again. again ≡ entry.now) }
{
    match entry {
        SharedEntry::Val(x, goal) => Ok(SharedEntry::Val(Name::new(alloc, x.as_bytes())?, *goal)),
        SharedEntry::Mod(x, shape) => {
            Ok(SharedEntry::Mod(Name::new(alloc, x.as_bytes())?, shape.clone()?))
        }
        SharedEntry::Mty(x, shape) => {
            Ok(SharedEntry::Mty(Name::new(alloc, x.as_bytes())?, shape.clone()?))
        }
        SharedEntry::Dark(at) => Ok(SharedEntry::Dark(*at)),
    }
}

fn share_all(alloc: Global, list: &[SharedEntry]) -> Result<Vec<SharedEntry>, Memory>
    ensures { IfOk result (λ v. v.items ≡ list.now) }
{
    let mut shared = Vec::new(alloc);
    for entry in list {
        shared.push(share_again(alloc, entry)?)?;
    }
    Ok(shared)
}

/// What an opening at a site brings: the entries of a structure. If there is no shape or it is no structure, that is
/// one Dark entry with the site. It costs as many steps as there are entries; their shapes are shared and not copied.
/// `Memory` is the only error.
pub fn bring(alloc: Global, from: Option<&Shared>, at: Place) -> Result<Vec<SharedEntry>, Memory>
    ensures { IfOk result (λ v. entries_of v.items ≡ pure.brought (pure.or_value (option_copied from.entry) pure.Opaque) at) }
{
    match from {
        Some(shape) => match kind(shape) {
            Kind::Struct => share_all(alloc, entries(shape)),
            Kind::Functor => make_dark(alloc, at),
            Kind::Unitary => make_dark(alloc, at),
            Kind::Opaque => make_dark(alloc, at),
        },
        None => make_dark(alloc, at),
    }
}

fn make_dark(alloc: Global, at: Place) -> Result<Vec<SharedEntry>, Memory>
    ensures { IfOk result (λ v. entries_of v.items ≡ pure.a_dark at pure.none) }
{
    let mut entries = Vec::new(alloc);
    entries.push(SharedEntry::Dark(at))?;
    Ok(entries)
}
