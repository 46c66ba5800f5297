//! The laws of renamed sources, each as the contract of a function.
ghost use Rattle.renamed_sources.specs.Laws.{NamesAreValueNames, NothingIsOver, RenamedKeepNames, SmallIsTaken, SourcesCanBeRespelled, SourcesWithoutHitsStay};

/// Respelled sources keep their names.
pub fn renamed_keep_names()
    ensures { RenamedKeepNames }
{}

/// Sources that are cut can be respelled.
pub fn sources_can_be_respelled()
    ensures { SourcesCanBeRespelled }
{}

/// Sources that are taken are not over the limits on bytes, and others of their names that are not are taken too.
pub fn nothing_is_over()
    ensures over { NothingIsOver }
    ensures taken { SmallIsTaken }
{}

/// A renamed source without a place that takes the new word is the old one.
pub fn sources_without_hits_stay()
    ensures { SourcesWithoutHitsStay }
{}

/// A place of a project that is no operator and no pun has a value name.
pub fn names_are_value_names()
    ensures { NamesAreValueNames }
{}
