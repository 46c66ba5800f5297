//! What an opening of a module brings into a scope.

ghost use Rattle.std.specs.Prelude.{◌≡◌, ◌≤◌, IfOk, OnOk, OnErr, length, option_copied, take};
ghost use Rattle.shape_core.specs.Shape.{◌⊕◌, Opaque, brought, or_value};
ghost use Rattle.shape_core.specs.Node.{entries_of};
ghost use Rattle.name_resolve.specs.Opened.{brings, brings_any};

use rotor_base::{Memory, Place};
use shape_core::{Kind, Scope, Shared, SharedEntry, kind};

/// What an opening brings.
#[derive(Drop)]
pub enum Opened {
    /// The entries of a structure, which is shared and not copied.
    Module(Shared),
    /// One Dark entry: an outside or unknown module was opened at this place.
    Dark(Place),
}

/// What an opening at a site brings: a structure; for another shape and for none, a Dark entry with the site. `Memory`
/// is the only error.
pub fn opened_at(from: Option<&Shared>, at: Place) -> Result<Opened, Memory>
    ensures { IfOk result (λ opened. brings opened ≡ brought (or_value (option_copied from.entry) Opaque) at) }
{
    match from {
        Some(shape) => match kind(shape) {
            Kind::Struct => Ok(Opened::Module(shape.clone()?)),
            Kind::Functor => Ok(Opened::Dark(at)),
            Kind::Unitary => Ok(Opened::Dark(at)),
            Kind::Opaque => Ok(Opened::Dark(at)),
        },
        None => Ok(Opened::Dark(at)),
    }
}

/// Lets a scope go on with what an opening brings. An `Err` changes nothing. `Memory` is the only error.
#[tactic(auto, using(crate::proofs::Lemmas::entries_appended, shape_core::proofs::Opening::entries_of_items, crate::proofs::Lemmas::front_appended))]
pub fn open_in(scope: &mut Scope, opened: Opened) -> Result<(), Memory>
    ensures added { OnOk result (entries_of scope.new ≡ entries_of scope.old ⊕ brings opened) }
    ensures kept { OnErr result (scope.new ≡ scope.old) }
    ensures front { take (length scope.old) scope.new ≡ scope.old }
    ensures long { length scope.old ≤ length scope.new }
{
    match opened {
        Opened::Module(shape) => scope.open_shape(shape),
        Opened::Dark(at) => scope.push(SharedEntry::Dark(at)),
    }
}

/// The same of an item that may open nothing.
#[tactic(auto, using(crate::proofs::Lemmas::joined_none))]
pub fn open_any(scope: &mut Scope, opened: Option<Opened>) -> Result<(), Memory>
    ensures added { OnOk result (entries_of scope.new ≡ entries_of scope.old ⊕ brings_any opened) }
    ensures kept { OnErr result (scope.new ≡ scope.old) }
    ensures front { take (length scope.old) scope.new ≡ scope.old }
    ensures long { length scope.old ≤ length scope.new }
{
    match opened {
        Some(opened) => open_in(scope, opened),
        None => Ok(()),
    }
}
