//! The laws of cutting, each as the contract of a function that does nothing.

ghost use Rattle.ml_lexer.specs.Laws.{OneLexed, OneFault, LexedOrFault, LexemesEndAlone, LexemesAreWhole, LexemesAreInOrder, LexemesAreFew};
ghost use Rattle.ml_lexer.specs.Respelled.{RespelledKeepLexemes, NamesKeepLexemes, RespelledBack};

/// A file has one cutting at most: one list of lexemes, or one fault, and not both.
pub fn one_cutting()
    ensures lexemes { OneLexed }
    ensures faults { OneFault }
    ensures apart { LexedOrFault }
{}

/// Names replaced by other value names keep the number and the classes of all lexemes.
pub fn replaced_names()
    ensures lexemes { RespelledKeepLexemes }
{}

/// A lexeme is, alone, a whole lexeme of its class; so are all lexemes of a file.
#[tactic(auto, using(crate::proofs::Order::lexemes_end_alone, crate::proofs::Order::lexemes_are_whole))]
pub fn lexemes_are_whole()
    ensures alone { LexemesEndAlone }
    ensures lexemes { LexemesAreWhole }
{}

/// The lexemes of a file are in order, each with the bytes of its span, and are no more than the bytes of the file.
#[tactic(auto, using(crate::proofs::Order::lexemes_are_in_order, crate::proofs::Order::lexemes_are_few))]
pub fn lexemes_are_in_order()
    ensures order { LexemesAreInOrder }
    ensures few { LexemesAreFew }
{}

/// Respelled back with the old words, the respelled bytes are the old ones.
#[tactic(auto, using(crate::proofs::Back::respelled_back))]
pub fn respelled_back()
    ensures { RespelledBack }
{}

/// The same by the lexemes beside each name: it is not directly between a lexeme `{` and one that begins with `|`.
#[tactic(auto, using(crate::proofs::Between::names_keep_lexemes))]
pub fn names_between()
    ensures { NamesKeepLexemes }
{}
