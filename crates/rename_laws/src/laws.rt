//! The laws of accepted renamings, each as the contract of a function.

ghost use Rattle.binding_model.specs.Back.{UndoneIsTheProject};
ghost use Rattle.rename_laws.specs.Laws.{ChangesAreListed, FootprintsAreLeast, KeptRunsGoOn, OperatorNamesAreNoValueNames, OperatorsAreNamed};
ghost use Rattle.rename_laws.specs.Laws.{OperatorsAreOfTheTarget, RenamingsAreUndone, RenamingsAreValid, RenamingsKeepFacts, RenamingsKeepRuns};
ghost use Rattle.rename_laws.specs.Laws.{RenamingsRewrite, ShownAreLeast, ShownOutsideIsKept, UndosHavePlaces};

/// A renaming that is accepted rewrites sources, and nothing else.
pub fn renamings_rewrite()
    ensures { RenamingsRewrite }
{}

/// A renaming that is accepted lists the sources that it changed, in order.
pub fn changes_are_listed()
    ensures { ChangesAreListed }
{}

/// A renaming that is accepted is valid, and the new files are read as its respelling.
pub fn renamings_are_valid()
    ensures { RenamingsAreValid }
{}

/// A renaming that is accepted keeps the facts of the project.
pub fn renamings_keep_facts()
    ensures { RenamingsKeepFacts }
{}

/// A renaming that is accepted keeps every bounded run of the project.
pub fn renamings_keep_runs()
    ensures { RenamingsKeepRuns }
{}

/// Runs that are kept from files to others, and from these to further ones, are kept from the first to the last.
pub fn kept_runs_go_on()
    ensures { KeptRunsGoOn }
{}

/// A renaming that is accepted changes a least footprint.
pub fn footprints_are_least()
    ensures { FootprintsAreLeast }
{}

/// The declarations that `footprint` shows are a least footprint. If it shows a place that is linked with the outside,
/// no valid renaming changes any of them.
pub fn shown_footprints_are_least()
    ensures least { ShownAreLeast }
    ensures outside { ShownOutsideIsKept }
{}

/// A renaming that is accepted is undone by the renaming of its target back, which gives the old files.
pub fn renamings_are_undone()
    ensures { RenamingsAreUndone }
{}

/// An accepted renaming of trees that is followed by the renaming back gives the old trees.
#[tactic(auto, using(crate::proofs::TreesBack::undone_is_the_project))]
pub fn trees_go_back()
    ensures { UndoneIsTheProject }
{}

/// The undo of an accepted renaming has a source's name and a token's number, and the old name is a value name.
pub fn undos_have_places()
    ensures { UndosHavePlaces }
{}

/// A footprint has an operator among its members and the references to them exactly if its binder's name is that of an
/// operator. So it is for the binder that a target names in the files of a project. The name of an operator is no value
/// name.
pub fn operators_are_named()
    ensures binder { OperatorsAreNamed }
    ensures target { OperatorsAreOfTheTarget }
    ensures apart { OperatorNamesAreNoValueNames }
{}
