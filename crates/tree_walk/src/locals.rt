//! The walk over the module of a `let module`.
//!
//! Each function goes down with its tree, so it takes stack at each level: the parsers build no tree that is deeper
//! than the bound on levels.

ghost use Rattle.std.specs.Prelude.{◌≡◌, OnOk};
ghost use Rattle.ml_trees.specs.Tree.{LocalArguments};
ghost use Rattle.ml_trees.specs.View.{view_local, view_local_then, locals};
ghost use Rattle.tree_events.specs.Told.{local_told, locals_told};

use crate::event::{Event, Visitor};
use ml_trees::{LocalArgument, LocalModule};
use rotor_base::Memory;

/// Reports the paths of a module and of its arguments. The error is that of the visitor.
#[cycle(local_walk)]
#[tactic(auto, using(crate::proofs::LocalViews::local_views, tree_events::proofs::Tells::local_tells))]
pub fn walk_local<V: Visitor>(visitor: &mut V, m: &LocalModule) -> Result<(), Memory>
    ensures { OnOk result (V.state visitor.new ≡ local_told V.step (V.state visitor.old) (view_local m.now)) }
{
    visitor.hear(Event::ModulePath(&m.path.words))?;
    arguments(visitor, &m.arguments)
}

/// Reports the paths of an argument, before more arguments.
#[cycle(local_walk)]
#[tactic(auto, using(crate::proofs::LocalViews::local_views, tree_events::proofs::Tells::local_tells))]
fn argument<V: Visitor>(visitor: &mut V, part: &LocalArgument) -> Result<(), Memory>
    ensures { OnOk result ((more : LocalArguments) → locals_told V.step (V.state visitor.old) (view_local_then part.now more) ≡ locals_told V.step (V.state visitor.new) more) }
{
    match part {
        LocalArgument::Module { module, .. } => walk_local(visitor, module),
        LocalArgument::Nothing { .. } => Ok(()),
    }
}

#[cycle(local_walk)]
#[tactic(auto, using(crate::proofs::LocalViews::local_views, tree_events::proofs::Tells::local_tells))]
fn arguments<V: Visitor>(visitor: &mut V, list: &[LocalArgument]) -> Result<(), Memory>
    ensures { OnOk result (V.state visitor.new ≡ locals_told V.step (V.state visitor.old) (locals list.now)) }
{
    for part in list {
        argument(visitor, part)?;
    }
    Ok(())
}
