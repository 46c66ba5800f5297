//! The laws of items that are read one after another, each as the contract of a function.

ghost use Rattle.longest_items.specs.Fronts.{FrontsEndLongest};
ghost use Rattle.longest_items.specs.Longest.{OneLongestBody, OneLongestFace};

/// The items of a source before its front are each the longest that begins where it does, and at the front none begins.
#[tactic(auto, using(crate::proofs::Fronts::fronts_end_longest))]
pub fn fronts_end_longest_items()
    ensures { FrontsEndLongest }
{}

/// No other items are each the longest up to a place where none begins, and no other place ends them.
#[tactic(auto, using(crate::proofs::Single::one_longest_body, crate::proofs::Single::one_longest_face))]
pub fn one_longest_reading()
    ensures bodies { OneLongestBody }
    ensures interfaces { OneLongestFace }
{}
