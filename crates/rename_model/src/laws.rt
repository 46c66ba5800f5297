//! The laws of the definitions, each as the contract of a function.

ghost use Rattle.rename_model.specs.Laws.{ProjectsAreRefusedOnce, TargetsHaveOneGoal, RenamingsAreRefusedOnce};

/// A project has at most one first refusal, a target at most one goal, and a renaming at most one first refusal.
pub fn answers_are_one()
    ensures project { ProjectsAreRefusedOnce }
    ensures target { TargetsHaveOneGoal }
    ensures renaming { RenamingsAreRefusedOnce }
{}
