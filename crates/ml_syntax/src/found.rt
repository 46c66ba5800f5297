//! The places of a tree, by its events.

ghost use Rattle.std.specs.Prelude.{◌≡◌, IfOk};
ghost use Rattle.ml_trees.specs.View.{view_file};
ghost use Rattle.value_sites.specs.Places.{sites};
ghost use Rattle.ml_syntax.specs.Sites.{view_sites};

use crate::sites::{Role, Site, add_minus, add_operator_word, add_site, add_word};
use ml_trees::FileTree;
use rotor_base::Memory;
use std::alloc::Global;
use tree_walk::{Event, Visitor, walk};
use value_sites::label_of;

/// The places that were found.
#[derive(Drop)]
struct Found {
    alloc: Global,
    sites: Vec<Site>,
}

impl Visitor for Found {
    ghost use Rattle.std.specs.Prelude.{List};
    ghost use Rattle.value_sites.specs.Places.{Site as PureSite, adds_site};
    ghost use Rattle.ml_syntax.specs.Sites.{view_sites};

    ghost State = { List PureSite };

    ghost state = { λ found. view_sites found.sites.items };

    ghost step = { adds_site };

    fn hear(&mut self, event: Event<'_>) -> Result<(), Memory> {
        match event {
            Event::Plain { binds, word } => {
                add_word(self.alloc, &mut self.sites, Role::Plain, binds, word)
            }
            Event::Operator { binds, word, .. } => {
                add_operator_word(self.alloc, &mut self.sites, binds, word)
            }
            Event::Field { binds, word } => {
                add_word(self.alloc, &mut self.sites, Role::Pun, binds, word)
            }
            Event::Label { binds, word } => add_site(
                self.alloc,
                &mut self.sites,
                Role::Pun,
                binds,
                word.token,
                label_of(word.name.as_bytes()),
            ),
            Event::Infix(word) => add_operator_word(self.alloc, &mut self.sites, false, word),
            Event::Prefix(word) => {
                add_word(self.alloc, &mut self.sites, Role::Operator, false, word)
            }
            Event::Minus(word) => add_minus(self.alloc, &mut self.sites, word),
            Event::Separator(_) => Ok(()),
            Event::ModulePath(_) => Ok(()),
            Event::LastPath(_) => Ok(()),
            Event::Qualifier(_) => Ok(()),
            Event::BindingsBegin => Ok(()),
            Event::GroupBegins => Ok(()),
            Event::GroupEnds => Ok(()),
            Event::PartBegins(_) => Ok(()),
            Event::PartEnds(_) => Ok(()),
            Event::AlternativesEnd => Ok(()),
            Event::ScopeBegins => Ok(()),
            Event::ScopeEnds => Ok(()),
            Event::Brings(_) => Ok(()),
        }
    }
}

/// The places of a file, in order of tokens: those that declare a value, and those that use one. `Memory` is the only
/// error.
#[tactic(auto, using(value_sites::proofs::Placed::file_told_placed))]
pub fn list_sites(alloc: Global, tree: &FileTree) -> Result<Vec<Site>, Memory>
    ensures { IfOk result (λ found. view_sites found.items ≡ sites (view_file tree.now)) }
{
    let mut found = Found {
        alloc,
        sites: Vec::new(alloc),
    };
    walk(&mut found, tree)?;
    Ok(found.sites)
}
