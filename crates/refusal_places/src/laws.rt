//! The laws of fronts, as contracts of functions.

ghost use Rattle.refusal_places.specs.Laws.{FrontsEndItems, FrontsDetermineReading};

/// The lexemes of a source before its front are the words of well-formed items.
#[tactic(auto, using(crate::proofs::Ending::fronts_end_items))]
pub fn fronts_end_items()
    ensures { FrontsEndItems }
{}

/// The front of a source is its end, exactly if the source is read.
pub fn fronts_determine_reading()
    ensures { FrontsDetermineReading }
{}
