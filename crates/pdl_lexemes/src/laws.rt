//! What the definitions promise to the crates above.

ghost use Rattle.pdl_lexemes.specs.Laws.{ListsAreRead, RaggedIsScanned, ListsAreArrays, SignsAreKnown, BracketsAreCounted, LexemesHoldTexts, TypeWordsAreWords, LimitsAre};

use pdl_lex::token_meaning;

/// A list literal is read exactly where the grammar spells it.
pub fn lists_are_their_grammar()
    ensures { ListsAreRead }
{}

/// The scan finds a ragged list exactly where the lexemes hold one; it passes each lexeme but `[`,
/// and a list literal with what is found in it.
pub fn ragged_is_scanned()
    ensures { RaggedIsScanned }
{}

/// A list literal has as many numbers as its dimensions say, each of them in its type's range.
pub fn lists_are_arrays()
    ensures { ListsAreArrays }
{}

/// Each sign that a text may have is a lexeme of the grammar.
pub fn every_sign_is_known()
    ensures { SignsAreKnown }
{}

/// Where more than 64 brackets are open at a token of a text, its lexemes go too deep.
pub fn brackets_are_counted()
    ensures { BracketsAreCounted }
{}

/// The names among the lexemes of a text's tokens are names, and its strings are texts that one
/// string can hold.
pub fn lexemes_hold_texts()
    ensures { LexemesHoldTexts }
{
    token_meaning();
}

/// The word of each type is a word, and reads as that type.
pub fn type_words_are_words()
    ensures { TypeWordsAreWords }
{}

/// At most 16 square brackets are open at once, and at most 256 operators stand outside them. The
/// greatest number of a text is that of longlong, and the greatest size of a number in a list of long
/// is the greatest number of long.
pub fn limits_law()
    ensures { LimitsAre }
{}
