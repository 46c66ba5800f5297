//! What is said of two lists.
ghost use Rattle.std.specs.Prelude.{◌≡◌, IfOk, IfSome};
ghost use Rattle.tree_io.specs.Outside.{HasCause};
ghost use Rattle.explain_verify.specs.Verified.{SaysVerify};

use crate::judged::explain_versions;
use crate::lists::{Listed, load_or_explain};
use explain::Explanation;
use std::alloc::Global;
use tree_io::{Tree, TreeError};

/// What is said of a list of the old sources and a list of the new ones: the declarations that have other names, if the
/// new project is a valid renaming of the old one; else the first reason against it; or the first list that gives no
/// project. It reads the old list first, and writes nothing.
///
/// # Errors
///
/// `Failed` after a counted fault, and `Memory`.
pub fn explain_verify<T: Tree>(
    alloc: Global,
    old: &str,
    new: &str,
    tree: &mut T,
) -> Result<Explanation, TreeError>
    ensures said { IfOk result (λ explanation. IfSome (T.content tree.old) (λ held. SaysVerify old.now new.now held explanation)) }
    ensures content { T.content tree.new ≡ T.content tree.old }
    ensures cause { HasCause (T.faults tree.old) (T.faults tree.new) result }
{
    let old = match load_or_explain(alloc, old, tree)? {
        Listed::Files(files) => files,
        Listed::Explanation(explanation) => return Ok(explanation),
    };
    let new = match load_or_explain(alloc, new, tree)? {
        Listed::Files(files) => files,
        Listed::Explanation(explanation) => return Ok(explanation),
    };
    Ok(explain_versions(alloc, &old, &new)?)
}
