//! The laws of diffs.

ghost use Rattle.source_diff.specs.Laws.{GivesTheNewText, IsTheOnlyDiff};

/// Law: the hunks of a diff apply to the lines of the old text, and make those of the new text. The lines of a text,
/// one behind the other, are the text.
pub fn hunks_give_the_new_text()
    ensures { GivesTheNewText }
{}

/// Law: two texts have one diff.
pub fn diffs_are_one()
    ensures { IsTheOnlyDiff }
{}
