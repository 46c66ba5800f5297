//! The laws of the table of lexemes, each as the contract of a function with an empty body.

ghost use Rattle.lexeme_laws.specs.Laws.{BadDoesNotEnd, BadIsRefused, ClassesAreApart, LexemesAreLongest, LexemesAreNotBad, LexemesBegin};
ghost use Rattle.lexeme_laws.specs.Laws.{LongNamesAreLong, LongWordsAreRefused, MarkedWordsAreShort, TriviaAreLongest, TriviaAreTaken, TriviaBegin};

/// A lexeme that the lexer takes follows its class's row of the table, with the row's rules on what follows. It is none
/// that the table calls Bad.
pub fn lexemes_are_of_their_class()
    ensures row { LexemesBegin }
    ensures not_bad { LexemesAreNotBad }
{}

/// No lexeme of the table that begins where the lexer takes a lexeme is longer.
pub fn lexemes_are_longest()
    ensures { LexemesAreLongest }
{}

/// The bytes of a lexeme that the lexer takes are a lexeme of no other class, but those of a Mark may be an Infix.
pub fn classes_are_apart()
    ensures { ClassesAreApart }
{}

/// The lexer takes the trivia of the table and no other: where one begins, it takes no lexeme. No lexeme of the table
/// that begins there is longer.
pub fn trivia_are_longest()
    ensures row { TriviaBegin }
    ensures taken { TriviaAreTaken }
    ensures longest { TriviaAreLongest }
{}

/// If the bytes are Bad, the table refuses each lexeme that begins there: one that is no shorter is Bad, or a comment,
/// an attribute or a Quoted opens there. No trivia, no Text and no Quoted begins there.
pub fn bad_is_refused()
    ensures refused { BadIsRefused }
    ensures unended { BadDoesNotEnd }
{}

/// A LongName has a word of more than 255 bytes, and if such a word begins, the bytes are a LongName. No TypeVar, Tag
/// or Label that the lexer takes has such a word behind its mark.
pub fn long_names_are_long()
    ensures long { LongNamesAreLong }
    ensures refused { LongWordsAreRefused }
    ensures short { MarkedWordsAreShort }
{}
