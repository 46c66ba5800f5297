//! The law of the numbers of `sample`, as the contract of a function.

ghost use Rattle.sample_counts.specs.Laws.{SamplesAreCounted};

/// Of two units or more, `sample` reports two declarations, three references for each unit after the first, and that
/// its renaming is undone.
pub fn samples_are_counted()
    ensures { SamplesAreCounted }
{}
