//! A project with the places of its values.

ghost use Rattle.std.specs.Prelude.{◌≡◌, IfOk, option_copied};
ghost use Rattle.ml_syntax.specs.Sites.{view_site};
ghost use Rattle.value_sites.specs.Sound.{IsSound};
ghost use Rattle.ml_trees.specs.View.{view_project};
ghost use Rattle.shape_core.specs.Respell.{over};
ghost use Rattle.binding_model.specs.Renaming.{places, at_place};
ghost use Rattle.value_places.specs.Binders.{binder_places};
ghost use Rattle.value_places.specs.Placed.{ArePlacesOf, Rises, at_token, name_in};

use crate::filing::{Filed, add_part};
use ml_syntax::Site;
use ml_trees::Project;
use rotor_base::{Memory, Place, Row};
use std::alloc::Global;
use std::marker::Model;

/// A project with the places of its values: each file was walked once for them. Contracts see the places, file by file
/// in link order.
#[derive(Drop)]
pub struct PlacedProject<'p> {
    /// Contracts alone read it.
    project: &'p Project,
    files: Vec<Row<Site>>,
    binders: Vec<Place>,
}

impl<'p> Model for PlacedProject<'p> {
    ghost use Rattle.std.specs.Prelude.{◌≡◌, List};
    ghost use Rattle.rotor_base.specs.declared.place.Place.{Place};
    ghost use Rattle.value_sites.specs.Places.{Site as PureSite};
    ghost use Rattle.ml_trees.specs.View.{view_project};
    ghost use Rattle.binding_model.specs.Renaming.{places};
    ghost use Rattle.value_places.specs.Binders.{binder_places};
    ghost use Rattle.value_places.specs.Placed.{ArePlacesOf};

    ghost Value = { List (Place × PureSite) };

    ghost view = { λ r. places (view_project r.project.now) };

    ghost invariant = { λ r. ArePlacesOf (places (view_project r.project.now)) r.files.items × (r.binders.items ≡ binder_places (places (view_project r.project.now))) };
}

impl<'p> PlacedProject<'p> {
    /// A project with the places of its values. The caller ensures that it is sound. `Memory` is the only error.
    pub fn new(alloc: Global, project: &'p Project) -> Result<Self, Memory>
        requires { IsSound (view_project project.now) }
        ensures { IfOk result (λ placed. placed ≡ places (view_project project.now)) }
    {
        let filed = file_project(alloc, project)?;
        Ok(PlacedProject {
            project,
            files: filed.files,
            binders: filed.binders,
        })
    }

    /// The places that declare a value, file by file in link order.
    pub fn binders(&self) -> &[Place]
        ensures { result.now ≡ binder_places self.now }
    {
        &self.binders
    }

    /// What is at a place, or none.
    pub fn site_at(&self, place: Place) -> Option<&Site>
        ensures { over view_site (option_copied result) ≡ at_place self.now place }
    {
        let sites = self.files.get(place.file as usize)?;
        find_site(sites.as_slice(), place.token)
    }

    /// The name of a place, or the empty name.
    pub fn name_at(&self, place: Place) -> &[u8]
        ensures { result.now ≡ name_in self.now place }
    {
        match self.site_at(place) {
            None => &[],
            Some(site) => site.name.as_bytes(),
        }
    }
}

/// The places of a project.
fn file_project(alloc: Global, project: &Project) -> Result<Filed, Memory>
    requires { IsSound (view_project project.now) }
    ensures places { IfOk result (λ filed. ArePlacesOf (places (view_project project.now)) filed.files.items) }
    ensures binders { IfOk result (λ filed. filed.binders.items ≡ binder_places (places (view_project project.now))) }
{
    let mut filed = Filed {
        files: Vec::new(alloc),
        binders: Vec::new(alloc),
    };
    for unit in &project.units {
        add_part(alloc, &mut filed, &unit.body)?;
        add_part(alloc, &mut filed, &unit.face)?;
    }
    Ok(filed)
}

/// The site of a token, by the sites of its file.
fn find_site(sites: &[Site], token: u32) -> Option<&Site>
    requires { Rises sites.now }
    ensures { over view_site (option_copied result) ≡ at_token sites.now token }
{
    match sites.binary_search_by_key(&token, |site| site.token) {
        Ok(at) => Some(&sites[at]),
        Err(_) => None,
    }
}
