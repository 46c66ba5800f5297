//! The law of what a terminal gets.
ghost use Rattle.messages.specs.Laws.{AreSafe};

/// Law: no character that a terminal gets is a control character other than the tab, a direction mark, or U+FFFD.
#[tactic(auto, using(crate::proofs::Safety::are_safe))]
pub fn shown_characters_are_safe()
    ensures { AreSafe }
{}
