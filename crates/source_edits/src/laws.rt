//! The law of edited texts.

ghost use Rattle.source_edits.specs.Laws.{EditedTextsAreOne};

/// Law: the edits of a text make at most one text of it.
pub fn edited_texts_are_one()
    ensures { EditedTextsAreOne }
{}
