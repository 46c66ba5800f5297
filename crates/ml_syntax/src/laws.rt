//! The laws of the trees, each as the contract of a function.

ghost use Rattle.value_sites.specs.Respelled.{RespellingKeepsTheTree};
ghost use Rattle.ml_syntax.specs.RespelledFile.{LexemesAreNumbered, PartsAreNumbered, ReadFilesAreSound, RespelledTokens, RespelledFilesAreRead, SitesMayBecome, RespelledNamesAreRead};
ghost use Rattle.value_sites.specs.SpelledSites.{SitesAreRespelled};
ghost use Rattle.ml_syntax.specs.Standing.{NoSiteOpensAQuoted, SitesAreWords, SitesHaveTheirWords, SitesAreNumbered, SitesAreOrdered};

/// A respelled tree is well formed, and its words are the old ones, each lower-case one respelled: as many, of the
/// same classes, with the same tokens.
#[tactic(auto, using(value_sites::proofs::Spelling::respelling_keeps_the_tree))]
pub fn respelling_keeps_the_tree()
    ensures { RespellingKeepsTheTree }
{}

/// The places of a well-formed file are among its words, each behind the one before it: a lower-case word, a label or
/// an operator. If one that is no operator is directly behind a `{`, no word that begins with `|` is directly behind
/// it.
#[tactic(auto, using(crate::proofs::Standing::sites_have_their_words))]
pub fn sites_have_their_words()
    ensures { SitesHaveTheirWords }
{}

/// If the words of a well-formed file are numbered from 1, the number of each place is that of its word.
#[tactic(auto, using(crate::proofs::Numbers::sites_are_numbered))]
pub fn sites_are_numbered()
    ensures { SitesAreNumbered }
{}

/// The numbers of the places of a file rise strictly, so no word is twice a place.
#[tactic(auto, using(crate::proofs::Numbers::sites_are_ordered))]
pub fn sites_are_ordered()
    ensures { SitesAreOrdered }
{}

/// The places of a respelled file are its places with the new words, if operators and words that are labels or fields
/// too are kept.
#[tactic(auto, using(value_sites::proofs::SpelledSites::sites_are_respelled))]
pub fn sites_are_respelled()
    ensures { SitesAreRespelled }
{}

/// The tokens of respelled lexemes are the tokens, respelled. If each lexeme may become its new word, the respelled
/// bytes are cut into them, and they are the words of the respelled tree, which is well formed.
#[tactic(auto, using(crate::proofs::RespelledFile::respelled_tokens, crate::proofs::RespelledFile::respelled_files_are_read))]
pub fn respelled_files_are_read()
    ensures tokens { RespelledTokens }
    ensures files { RespelledFilesAreRead }
{}

/// The tokens of the lexemes of a file are lexemes alone, numbered from 1.
#[tactic(auto, using(crate::proofs::RespelledNames::lexemes_are_numbered))]
pub fn lexemes_are_numbered()
    ensures { LexemesAreNumbered }
{}

/// If the names of places alone are changed, to value names, each lexeme may become its new word: the respelled bytes
/// are cut into the respelled lexemes, which are the words of the respelled tree.
pub fn respelled_names_are_read()
    ensures lexemes { SitesMayBecome }
    ensures files { RespelledNamesAreRead }
{}

/// A place that is no pun and no operator is a lower-case word of the file with its number and text. A place that is no
/// operator is not directly between a `{` and a word that begins with `|`.
pub fn sites_are_words()
    ensures words { SitesAreWords }
    ensures quoted { NoSiteOpensAQuoted }
{}

/// A file that was read is sound, and a part of numbered words is numbered.
pub fn read_files_are_sound()
    ensures files { ReadFilesAreSound }
    ensures parts { PartsAreNumbered }
{}
