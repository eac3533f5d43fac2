//! Laws of the statements of a script, and of the tokens of a statement.
ghost use Rattle.pdl_lex.specs.Limits.{LimitsAre};
ghost use Rattle.pdl_lex.specs.Settled.{BeginThePieces, StaySettled};
ghost use Rattle.pdl_lex.specs.Joining.{StatementsJoin, BlanksJoin, PartsJoin, DigitsStay};
ghost use Rattle.pdl_lex.specs.Tokens.{TextsHaveOneMeaning, TokensAreSpans};
ghost use Rattle.pdl_lex.specs.Written.{WrittenAreRead, TextsAreWritten, ApartAreLongest, QuotedAreStrings};

/// The statements that bytes settle are the first ones of each script that begins with them
/// (`begin`), and more bytes take none of them back (`stay`). The call
/// does nothing when it runs.
pub fn settled_laws()
    ensures begin { BeginThePieces }
    ensures stay { StaySettled }
{}

/// What statements come to when they stand one behind the other: a statement's text and
/// its semicolon give that statement and then those behind it (`statements`), a blank before a
/// statement gives none (`blanks`). Whether bytes are one statement's text is seen part by part
/// (`parts`), and a digit changes nothing there (`digits`). The call does nothing when it runs.
pub fn joining_laws()
    ensures statements { StatementsJoin }
    ensures blanks { BlanksJoin }
    ensures parts { PartsJoin }
    ensures digits { DigitsStay }
{}

/// Each text has exactly one meaning, which is its tokens or the fault of the first byte at
/// which none begins, and
/// `toks` is that meaning as a function. The call does nothing when it runs.
pub fn token_meaning()
    ensures { TextsHaveOneMeaning }
{}

/// What the tokens of any text are: spans that rise, don't overlap and leave only blanks and
/// comments between them, each of them the longest token where it begins; and no more of them than
/// bytes. The call does nothing when it runs.
pub fn tokens_are_spans()
    ensures { TokensAreSpans }
{}

/// Texts that are written token by token: such a text has these tokens (`read`), and each text that
/// has tokens is written so (`all`). A token that can't join what follows it is the longest one
/// where it stands (`longest`), and bytes between two quotes that they don't have are a string
/// (`strings`). The call does nothing when it runs.
pub fn written_laws()
    ensures read { WrittenAreRead }
    ensures all { TextsAreWritten }
    ensures longest { ApartAreLongest }
    ensures strings { QuotedAreStrings }
{}

/// A statement's text has at most 65,536 bytes, a script has at most 16,777,216, and at most 64
/// brackets are open at once. The call does nothing when it runs.
pub fn limits_law()
    ensures { LimitsAre }
{}
