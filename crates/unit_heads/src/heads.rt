//! The heads of the module paths of a tree, by its events.

ghost use Rattle.std.specs.Prelude.{◌≡◌, IfOk, Some, OnOk};
ghost use Rattle.ml_trees.specs.View.{view_file};
ghost use Rattle.unit_heads.specs.Heads.{file_heads};

use crate::bound::Bound;
use crate::path::{add_head, add_prefix};
use ml_trees::FileTree;
use rotor_base::{Memory, Name};
use std::alloc::Global;
use tree_walk::{Event, Visitor, walk};

/// The names of modules that are bound, how many are bound around each open scope, the innermost last, and the heads
/// that were found.
#[derive(Drop)]
struct Heads {
    alloc: Global,
    bound: Bound,
    outer: Vec<usize>,
    found: Vec<Name>,
}

impl Visitor for Heads {
    ghost use Rattle.std.specs.Prelude.{reverse};
    ghost use Rattle.unit_heads.specs.Heads.{Needed, needed, hears};

    ghost State = { Needed };

    ghost state = { λ h. needed h.bound (reverse h.outer.items) h.found.items };

    ghost step = { hears };

    #[tactic(auto, using(crate::proofs::Stacks::stacks))]
    fn hear(&mut self, event: Event<'_>) -> Result<(), Memory> {
        match event {
            Event::ModulePath(path) => add_head(self.alloc, &self.bound, &mut self.found, path),
            Event::Qualifier(path) => add_head(self.alloc, &self.bound, &mut self.found, path),
            Event::LastPath(path) => add_prefix(self.alloc, &self.bound, &mut self.found, path),
            Event::ScopeBegins => Ok(self.outer.push(self.bound.len())?),
            Event::ScopeEnds => {
                if let Some(outer) = self.outer.pop() {
                    self.bound.cut(outer);
                }
                Ok(())
            }
            Event::Brings(word) => self.bound.push(self.alloc, word.name.as_bytes()),
            Event::Plain { .. } => Ok(()),
            Event::Operator { .. } => Ok(()),
            Event::Field { .. } => Ok(()),
            Event::Label { .. } => Ok(()),
            Event::Infix(_) => Ok(()),
            Event::Separator(_) => Ok(()),
            Event::Prefix(_) => Ok(()),
            Event::Minus(_) => Ok(()),
            Event::GroupBegins => Ok(()),
            Event::GroupEnds => Ok(()),
            Event::BindingsBegin => Ok(()),
            Event::PartBegins(_) => Ok(()),
            Event::PartEnds(_) => Ok(()),
            Event::AlternativesEnd => Ok(()),
        }
    }
}

/// The heads that were found, and then those of a file. `Memory` is the only error.
#[tactic(auto, using(crate::proofs::Heard::file_heard))]
pub fn with_heads(alloc: Global, found: Vec<Name>, file: &FileTree) -> Result<Vec<Name>, Memory>
    ensures { IfOk result (λ heads. heads.items ≡ file_heads found.items (Some (view_file file.now))) }
{
    let mut heads = Heads {
        alloc,
        bound: Bound::new(alloc),
        outer: Vec::new(alloc),
        found,
    };
    walk(&mut heads, file)?;
    Ok(heads.found)
}
