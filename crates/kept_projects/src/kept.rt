//! Files that are accepted as a project. What is kept of them is the invariant of a model: the fact of a ghost field
//! may have one proof alone, and that files are read as a project has trees in it.
ghost use Rattle.std.specs.Prelude.{◌≡◌};
ghost use Rattle.rotor_base.specs.Files.{FileSet};
ghost use Rattle.ml_trees.specs.View.{view_project};
ghost use Rattle.kept_projects.specs.Kept.{IsKept};

use ml_trees::Project;
use mod_shape::Resolved;
use rotor_base::Files;
use std::marker::Model;

/// Files that are accepted as a project, with the project that they are read as and what it is resolved to. Clauses see
/// the files.
#[derive(Drop)]
pub struct KeptProject {
    files: Files,
    project: Project,
    resolved: Resolved,
}

impl Model for KeptProject {
    ghost Value = { FileSet };

    ghost view = { λ kept. kept.files };

    ghost invariant = { λ kept. IsKept kept.files (view_project kept.project) kept.resolved };
}

impl KeptProject {
    /// Keeps files with the project that they are accepted as. It takes no memory.
    pub fn from_parts(files: Files, project: Project, resolved: Resolved) -> Self
        requires { IsKept files (view_project project) resolved }
        ensures { result ≡ files }
    {
        KeptProject {
            files,
            project,
            resolved,
        }
    }

    /// The files, the project that they are accepted as, and what it is resolved to. It takes no memory.
    pub fn into_parts(self) -> (Files, Project, Resolved)
        ensures files { result.0 ≡ self }
        ensures kept { IsKept result.0 (view_project result.1) result.2 }
    {
        (self.files, self.project, self.resolved)
    }

    /// The files whose project is kept.
    pub fn files(&self) -> &Files
        ensures { result.now ≡ self.now }
    {
        &self.files
    }
}
