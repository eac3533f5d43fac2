//! What the definitions promise.

ghost use Rattle.pdl_nice.specs.Laws.{TokensBecome, OneResult, TextsHavePlain, TextsStay};

/// What nice slices make of tokens is found (`tokens`), it is one thing (`one`), and the plain text
/// or the first refusal of a text is what it means (`texts`). The call does nothing when it runs.
pub fn plain_meaning()
    ensures tokens { TokensBecome }
    ensures one { OneResult }
    ensures texts { TextsHavePlain }
{}

/// A text without nice parts is its own plain text, unless more than 64 of its brackets are open at
/// once or it is longer than a statement. The call does nothing when it runs.
pub fn texts_stay()
    ensures { TextsStay }
{
    pdl_lex::written_laws();
}
