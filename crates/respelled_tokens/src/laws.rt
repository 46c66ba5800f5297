//! The laws of tokens that are respelled, each as the contract of a function.

ghost use Rattle.respelled_tokens.specs.Kept.{FormsAreKept, NestingIsKept, RespelledTokensAreKept, RespellingKeepsTheReading};

/// Respelled tokens nest as the tokens do.
pub fn nesting_is_kept()
    ensures nesting { NestingIsKept }
{}

/// If tokens keep their classes, lower-case names alone differ, and each touches the next exactly if it did, the first
/// refused form is the same.
pub fn forms_are_kept()
    ensures forms { FormsAreKept }
{}

/// The tokens of respelled lexemes are the tokens respelled, and each touches the next exactly if it did.
pub fn respelled_tokens_are_kept()
    ensures tokens { RespelledTokensAreKept }
{}

/// Respelling keeps the reading. If names of places alone are changed, to value names, the tokens of the respelled
/// bytes have no refused form, are not nested over the limit, and are the words of the respelled tree.
pub fn respelling_keeps_the_reading()
    ensures reading { RespellingKeepsTheReading }
{}
