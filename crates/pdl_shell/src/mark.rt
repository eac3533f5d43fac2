//! What there is to run of a script.
use pdl_lex::Piece;

// A statement, or that the script is too long, on a line.
#[derive(Drop)]
pub(crate) enum Mark {
    Statement(Piece),
    ScriptTooLong(u64),
}

impl Mark {
    ghost use Rattle.std.specs.Prelude.{◌≡◌};
    ghost use Rattle.pdl_machine.specs.Run.{line_of, fault_ends};
    ghost use Rattle.pdl_shell.specs.Marks.{mark_of};

    // The line on which it begins.
    pub(crate) fn line(&self) -> u64
        ensures { result ≡ line_of (mark_of self.now) }
    {
        match self {
            Mark::Statement(Piece::Whole(cut)) => cut.line,
            Mark::Statement(Piece::TooLong { line }) => *line,
            Mark::ScriptTooLong(line) => *line,
        }
    }

    // Whether its fault ends the run, which goes on after faults or doesn't.
    pub(crate) fn fault_ends(&self, keep_going: bool) -> bool
        ensures { result ≡ fault_ends keep_going (mark_of self.now) }
    {
        match self {
            Mark::Statement(_) => !keep_going,
            Mark::ScriptTooLong(_) => true,
        }
    }
}
