//! What the grammar itself promises.

ghost use Rattle.std.specs.Prelude.{◌≡◌, ℕ, List, Vec};
ghost use Rattle.std.specs.Global.{Global};
ghost use Rattle.pdl_syntax.specs.Laws.{StatementsAreRead, OneStatement, TokensAreParsed, SpelledAreWellMade};
ghost use Rattle.pdl_syntax.specs.Tree.{call, none};
ghost use Rattle.pdl_syntax.specs.TreeOf.{tree_of, args_of};
ghost use Rattle.pdl_syntax.specs.declared.tree.Arg.{Arg};
ghost use Rattle.pdl_syntax.specs.declared.tree.Expr.{Call};

use pdl_lexemes::{lists_are_arrays, lists_are_their_grammar, ragged_is_scanned};

/// A statement is read exactly where the grammar spells it.
pub fn reading_is_the_grammar()
    ensures { StatementsAreRead }
{
    lists_are_their_grammar();
}

/// The lexemes of a text are spelled by at most one statement.
pub fn one_statement()
    ensures { OneStatement }
{
    lists_are_their_grammar();
}

/// The answer for the tokens of a text is the statement that they spell where no check fails, or
/// the first check that they fail, both ways.
pub fn parsing_is_the_grammar()
    ensures { TokensAreParsed }
{
    lists_are_their_grammar();
    lists_are_arrays();
    ragged_is_scanned();
}

/// A statement that lexemes spell is well made where these hold no ragged list, and each name among
/// them is a name and each string a text that a string can hold.
pub fn spelled_are_well_made()
    ensures { SpelledAreWellMade }
{
    lists_are_arrays();
    ragged_is_scanned();
}

/// The tree of a call has the trees of its arguments in their order.
pub fn calls_are_trees()
    ensures { (name : List ℕ) (args : Vec Arg Global) →
        tree_of (Call name args) ≡ call name (args_of args.items none) }
{}
