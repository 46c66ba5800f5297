//! The places of a file's values.

ghost use Rattle.std.specs.Prelude.{◌≡◌, IfOk, map};
ghost use Rattle.ml_trees.specs.View.{view_file};
ghost use Rattle.value_sites.specs.Places.{binder_sites, use_sites, pun_sites, mark};
ghost use Rattle.ml_syntax.specs.Sites.{view_site};

use crate::found::list_sites;
use crate::sites::Site;
use ml_trees::FileTree;
use rotor_base::Memory;
use std::alloc::Global;
use value_sites::Mark;

/// The mark of a place.
fn mark_of(site: Site) -> Mark
    ensures { result ≡ mark (view_site site) }
{
    Mark {
        token: site.token,
        name: site.name,
        pun: site.pun,
        operator: site.operator,
    }
}

/// The places that declare a value, in order of tokens (the manual's chapters on names and patterns). `Memory` is
/// the only error.
pub fn binders(alloc: Global, tree: &FileTree) -> Result<Vec<Mark>, Memory>
    ensures { IfOk result (λ marks. marks.items ≡ map mark (binder_sites (view_file tree.now))) }
{
    let mut marks = Vec::new(alloc);
    for site in list_sites(alloc, tree)? {
        if site.binds {
            marks.push(mark_of(site))?;
        }
    }
    Ok(marks)
}

/// The places that use a value, in order of tokens (the manual's chapters on names and expressions). The name of a
/// prefix `-` is `~-`, that of a prefix `-.` is `~-.`. `Memory` is the only error.
pub fn value_refs(alloc: Global, tree: &FileTree) -> Result<Vec<Mark>, Memory>
    ensures { IfOk result (λ marks. marks.items ≡ map mark (use_sites (view_file tree.now))) }
{
    let mut marks = Vec::new(alloc);
    for site in list_sites(alloc, tree)? {
        if !site.binds {
            marks.push(mark_of(site))?;
        }
    }
    Ok(marks)
}

/// The tokens of the places whose word is a label or a field too, in order. `Memory` is the only error.
pub fn puns(alloc: Global, tree: &FileTree) -> Result<Vec<u32>, Memory>
    ensures { IfOk result (λ tokens. tokens.items ≡ map (λ x. x.at) (pun_sites (view_file tree.now))) }
{
    let mut tokens = Vec::new(alloc);
    for site in list_sites(alloc, tree)? {
        if site.pun {
            tokens.push(site.token)?;
        }
    }
    Ok(tokens)
}
