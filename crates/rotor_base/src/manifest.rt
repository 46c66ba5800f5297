//! What the number of a bad line of a manifest says.
ghost use Rattle.rotor_base.specs.Manifest.{AnswersBadLine, DependsOnNames};

/// Law: no line of a manifest is bad exactly if each line that is not empty names a unit that no earlier line names,
/// and each unit has a line. Else the bad line is the first that is not empty and names no unit, or one that an earlier
/// line names; and one more than the number of lines if all lines are good and a unit has no line. So the bad line
/// depends on the names of the units alone.
pub fn bad_lines_are_exact()
    ensures exact { AnswersBadLine }
    ensures names { DependsOnNames }
{}
