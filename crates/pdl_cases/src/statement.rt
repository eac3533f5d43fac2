//! `form TEXT => FORM`: the form of a statement, or its fault.
//! `statement TEXT => TREE`: what a statement says, or its fault.

ghost use Rattle.std.specs.Prelude.{◌≤◌, length, IfOk};
ghost use Rattle.pdl_syntax.specs.StatementTree.{statement_of};
ghost use Rattle.pdl_syntax.specs.WellMade.{IsWellMade};

use crate::answer::Answer;
use crate::cursor::Cursor;
use crate::tree::say_statement;
use pdl_lex::{LexFault, tokens};
use pdl_syntax::{ParseFault, Statement, parse};
use std::alloc::Global;

/// The statement of a text, whose tokens are read first.
pub fn read(alloc: Global, text: &[u8]) -> Result<Statement, ParseFault>
    requires { length text.now ≤ 65536 }
    ensures { IfOk result (λ s. IsWellMade (statement_of s)) }
{
    match tokens(alloc, text) {
        Ok(found) => parse(alloc, text, &found),
        Err(LexFault::NoMemory) => Err(ParseFault::NoMemory),
        Err(_) => Err(ParseFault::Syntax),
    }
}

fn form(statement: &Statement) -> &'static str {
    match statement {
        Statement::Bind { sever: false, .. } => "bind",
        Statement::Bind { sever: true, .. } => "bind severed",
        Statement::BindList { .. } => "bind list",
        Statement::Assign { .. } => "assign",
        Statement::Show { info: false, .. } => "show",
        Statement::Show { info: true, .. } => "show info",
        Statement::ShowText { .. } => "show text",
        Statement::Sever { .. } => "sever",
        Statement::Reshape { .. } => "reshape",
        Statement::Undef { .. } => "undef",
        Statement::Vars => "vars",
        Statement::Dump => "dump",
        Statement::Flow { .. } => "flow",
        Statement::PpDef { .. } => "pp_def",
        Statement::Watch { .. } => "watch",
        Statement::Unwatch { .. } => "unwatch",
    }
}

/// Why a text is no statement.
pub fn refused(fault: ParseFault) -> &'static str {
    match fault {
        ParseFault::TooDeep => "too deep",
        ParseFault::NumberTooLarge => "number too large",
        ParseFault::Syntax => "syntax",
        ParseFault::Ragged => "ragged",
        ParseFault::NoMemory => "no memory",
    }
}

/// The form of a line's statement.
pub fn form_answer(line: &mut Cursor<'_>, answer: &mut Answer) -> Option<()> {
    let text = line.short_text()?;
    match read(line.alloc, &text) {
        Ok(statement) => answer.say(form(&statement)),
        Err(fault) => answer.say(refused(fault)),
    }
    Some(())
}

/// What a line's statement says.
pub fn tree_answer(line: &mut Cursor<'_>, answer: &mut Answer) -> Option<()> {
    let text = line.short_text()?;
    match read(line.alloc, &text) {
        Ok(statement) => say_statement(answer, &statement),
        Err(fault) => answer.say(refused(fault)),
    }
    Some(())
}
