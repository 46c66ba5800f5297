//! The laws of values, links, groups and footprints, each as the contract of a function.

ghost use Rattle.facts_laws.specs.Laws.{FootprintsAreApart, FootprintsCover, FootprintsExist, GoodRepeatsNone, LinksAreFew};
ghost use Rattle.facts_laws.specs.Laws.{MembersShareFootprints, ValuesAreDeclared};

/// Each value in a scope or a shape of a project has a declaration as its goal.
pub fn values_are_declared()
    ensures { ValuesAreDeclared }
{}

/// A project in which no site is too heavy has no more links than the bound on work.
pub fn links_are_few()
    ensures { LinksAreFew }
{}

/// No group of a good project repeats a name.
pub fn good_repeats_none()
    ensures { GoodRepeatsNone }
{}

/// Footprints are a partition: each declaration has one and is in it. It is the footprint of each of its members and
/// has no member in common with another one.
pub fn footprints_part()
    ensures exist { FootprintsExist }
    ensures cover { FootprintsCover }
    ensures apart { FootprintsAreApart }
    ensures members { MembersShareFootprints }
{}
