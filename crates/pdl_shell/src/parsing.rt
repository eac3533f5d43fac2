//! What a text is parsed by: its tokens are found, and where nice slices stand among them, the tokens
//! of its plain text.
ghost use Rattle.std.specs.Prelude.{◌≡◌, ◌≤◌, length, if◌then◌else◌, Ok, IfOk, IfErr, OnOk};
ghost use Rattle.pdl_lex.specs.Limits.{statement_limit};
ghost use Rattle.pdl_lex.specs.Tokens.{toks};
ghost use Rattle.pdl_machine.specs.Reads.{reads_plain, reads};
ghost use Rattle.pdl_shell.specs.Unread.{AreOfPlain, IsFault, of_lexing, of_parsing, of_nice};

use pdl_lex::{LexFault, Token, read_tokens};
use pdl_lexemes::Lexeme;
use pdl_machine::{Fault, reads_law};
use pdl_nice::{NiceFault, has_nice, write_plain};
use pdl_session::StepFault;
use pdl_syntax::ParseFault;
use std::alloc::Global;

// Lists whose room is kept from one statement to the next. What stands in them is of no account.
#[derive(Drop)]
pub(crate) struct Rooms {
    pub(crate) tokens: Vec<Token>,
    pub(crate) lexemes: Vec<Lexeme>,
    pub(crate) plain: Vec<u8>,
    nice: pdl_nice::Rooms,
}

impl Rooms {
    pub(crate) fn new(alloc: Global) -> Rooms {
        Rooms {
            tokens: Vec::new(alloc),
            lexemes: Vec::new(alloc),
            plain: Vec::new(alloc),
            nice: pdl_nice::Rooms::new(alloc),
        }
    }
}

// The text itself, or where it has nice slices, the one that was written for it.
pub(crate) fn plain_text<'a>(text: &'a [u8], written: &'a [u8], is_nice: bool) -> &'a [u8]
    ensures { result.now ≡ (if is_nice then written.now else text.now) }
{
    if is_nice { written } else { text }
}

// Finds the tokens of the plain text of a text, and answers whether the text has nice slices: where
// it has some the plain text is written, and else it is the text itself. It is put in line where each
// statement comes by.
#[inline(always)]
pub(crate) fn find_tokens(text: &[u8], rooms: &mut Rooms) -> Result<bool, StepFault>
    requires { length text.now ≤ statement_limit }
    ensures found { IfOk result (λ is_nice.
        let plain = if is_nice then rooms.new.plain.items else text.now in
        AreOfPlain text.now plain rooms.new.tokens.items) }
    ensures fault { IfErr result (IsFault (reads text.now)) }
{
    reads_law();
    find(text, &mut rooms.tokens)?;
    if !has_nice(text, &rooms.tokens) {
        return Ok(false);
    }
    rewrite(text, rooms)?;
    Ok(true)
}

// Writes the plain text of a text with these tokens, and finds the tokens of that.
fn rewrite(text: &[u8], rooms: &mut Rooms) -> Result<(), StepFault>
    requires tokens { toks text.now ≡ Ok rooms.old.tokens.items }
    requires small { length text.now ≤ statement_limit }
    ensures found { OnOk result
        (AreOfPlain text.now rooms.new.plain.items rooms.new.tokens.items) }
    ensures fault { IfErr result (IsFault (reads text.now)) }
{
    match write_plain(text, &rooms.tokens, &mut rooms.nice, &mut rooms.plain) {
        Ok(()) => find(&rooms.plain, &mut rooms.tokens),
        Err(fault) => Err(of_nice(fault)),
    }
}

// Finds the tokens of a text, plain or not.
fn find(text: &[u8], tokens: &mut Vec<Token>) -> Result<(), StepFault>
    requires { length text.now ≤ statement_limit }
    ensures found { OnOk result (toks text.now ≡ Ok tokens.new.items) }
    ensures fault { IfErr result (IsFault (reads text.now)) }
    ensures plain_fault { IfErr result (IsFault (reads_plain text.now)) }
{
    match read_tokens(text, tokens) {
        Ok(()) => Ok(()),
        Err(fault) => Err(of_lexing(fault)),
    }
}

// Why a text without tokens is no statement.
fn of_lexing(fault: LexFault) -> StepFault
    ensures { result ≡ of_lexing fault }
{
    match fault {
        LexFault::BadByte { .. } | LexFault::OpenString { .. } => StepFault::Script(Fault::Syntax),
        LexFault::NoMemory => StepFault::NoMemory,
    }
}

// Why a text without a plain text is no statement.
fn of_nice(fault: NiceFault) -> StepFault
    ensures { result ≡ of_nice fault }
{
    match fault {
        NiceFault::TooDeep => StepFault::Script(Fault::TooDeep),
        NiceFault::Syntax => StepFault::Script(Fault::Syntax),
        NiceFault::TooLong => StepFault::Script(Fault::StatementTooLong),
        NiceFault::NoMemory => StepFault::NoMemory,
    }
}

// Why tokens are no statement's.
pub(crate) fn of_parsing(fault: ParseFault) -> StepFault
    ensures { result ≡ of_parsing fault }
{
    match fault {
        ParseFault::TooDeep => StepFault::Script(Fault::TooDeep),
        ParseFault::NumberTooLarge => StepFault::Script(Fault::NumberTooLarge),
        ParseFault::Syntax => StepFault::Script(Fault::Syntax),
        ParseFault::Ragged => StepFault::Script(Fault::Ragged),
        ParseFault::NoMemory => StepFault::NoMemory,
    }
}
