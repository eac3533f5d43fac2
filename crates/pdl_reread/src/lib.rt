//! What a dump reads as.
#![tactic(auto)]

ghost use Rattle.pdl_reread.specs.Rereading.{DumpsAreReread};
ghost use Rattle.pdl_reread.specs.Scripts.{LinesAreStatements};
ghost use Rattle.pdl_reread.specs.Trees.{LinesAreRead};

/// Each line of a dump reads as its statement: its text has tokens, and the grammar spells the
/// statement with them. The call does nothing when it runs.
pub fn lines_are_read()
    ensures { LinesAreRead }
{
    pdl_lex::written_laws();
    pdl_lexemes::type_words_are_words();
    pdl_syntax::parsing_is_the_grammar();
    pdl_lexemes::ragged_is_scanned();
}

/// A script that begins with the text of lines has their statements, with the lines on which they
/// begin, and then those of the rest. The call does nothing when it runs.
pub fn lines_are_statements()
    ensures { LinesAreStatements }
{
    pdl_lex::written_laws();
    pdl_lex::joining_laws();
    pdl_lexemes::type_words_are_words();
}

/// The dump of a state that a dump can make again, where it isn't refused: its text is cut into its
/// lines, each on its line of the script, whatever stands behind it, and each of them is read as its
/// statement, and never as a fault. The call does nothing when it runs.
pub fn dumps_are_reread()
    ensures { DumpsAreReread }
{
    pdl_elem::wrapping_laws();
    pdl_shape::shape_laws();
    pdl_slices::written_slices();
    pdl_lex::written_laws();
    pdl_lexemes::type_words_are_words();
    pdl_machine::reads_law();
    pdl_machine::dumpable_laws();
    lines_are_read();
    lines_are_statements();
}
