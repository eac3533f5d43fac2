//! `kernel SIGNATURE CODE => STATEMENTS`, or the fault of the code. Operators stand first, and each
//! statement ends with `;` or a block.

ghost use Rattle.pdl_sig.specs.Refusals.{IsWellFormed};

use crate::answer::Answer;
use crate::cursor::Cursor;
use pdl_code::{Entry, Expr, Stmt, Variable, read_code};
use pdl_elem::BinaryOp;
use pdl_sig::{Signature, read_signature};

fn say_word(answer: &mut Answer, word: &Variable) {
    match word {
        Variable::Slot(slot) => answer.tell("local ", slot),
        Variable::Index(dimension) => answer.tell("index ", dimension),
    }
}

#[cycle(say)]
fn say_expr(answer: &mut Answer, expr: &Expr) {
    match expr {
        Expr::Number(number) => answer.show(number),
        Expr::Size(dimension) => answer.tell("size ", dimension),
        Expr::Named(word) => say_word(answer, word),
        Expr::Access(number, entries) => {
            answer.tell("at ", number);
            say_entries(answer, entries);
        }
        Expr::Unary(op, inner) => {
            answer.operator(op);
            say_expr(answer, inner);
            answer.say(")");
        }
        Expr::Binary(op, left, right) => {
            answer.operator(op);
            say_expr(answer, left);
            answer.say(" ");
            say_expr(answer, right);
            answer.say(")");
        }
    }
}

#[cycle(say)]
fn say_entries(answer: &mut Answer, entries: &[Entry]) {
    answer.say("[");
    for entry in entries {
        say_entry(answer, entry);
    }
    answer.say("]");
}

// Each index ends with `,`.
#[cycle(say)]
fn say_entry(answer: &mut Answer, entry: &Entry) {
    match entry {
        Entry::Given(place, expr) => {
            answer.tell("", place);
            answer.say(":");
            say_expr(answer, expr);
        }
        Entry::Looped(place, word) => {
            answer.tell("", place);
            answer.say(":");
            say_word(answer, word);
        }
    }
    answer.say(",");
}

// What a store puts: the operation, where there is one, and the number.
fn say_put(answer: &mut Answer, op: Option<BinaryOp>, expr: &Expr) {
    answer.say(" ");
    if let Some(op) = op {
        answer.debug(&op);
        answer.say(" ");
    }
    say_expr(answer, expr);
    answer.say(";");
}

#[cycle(say_code)]
fn say_stmt(answer: &mut Answer, stmt: &Stmt) {
    match stmt {
        Stmt::Loop(dimension, body) => {
            answer.tell("loop ", dimension);
            say_block(answer, body);
        }
        Stmt::If(expr, whole, other) => {
            answer.say("if ");
            say_expr(answer, expr);
            say_block(answer, whole);
            say_block(answer, other);
        }
        Stmt::Keep(kept, op, expr) => {
            answer.tell("local ", &kept.slot);
            answer.say(" ");
            answer.debug(&kept.ty);
            say_put(answer, *op, expr);
        }
        Stmt::Put(number, entries, op, expr) => {
            answer.tell("put ", number);
            say_entries(answer, entries);
            say_put(answer, *op, expr);
        }
    }
}

// A block, and a blank before it where something stands there.
#[cycle(say_code)]
fn say_block(answer: &mut Answer, stmts: &[Stmt]) {
    answer.next(" ");
    answer.say("{");
    for stmt in stmts {
        answer.say(" ");
        say_stmt(answer, stmt);
    }
    answer.say(" }");
}

/// Reads the code of a line, for the signature of the line.
pub fn kernel_answer(line: &mut Cursor<'_>, answer: &mut Answer) -> Option<()> {
    let text = line.piece()?;
    match read_signature(line.alloc, &text) {
        Ok(signature) => say_code(line, &signature, answer),
        Err(_) => None,
    }
}

// Reads the code that a line has next.
fn say_code(line: &mut Cursor<'_>, signature: &Signature, answer: &mut Answer) -> Option<()>
    requires { IsWellFormed signature.now }
{
    let text = line.short_text()?;
    match read_code(line.alloc, signature, &text) {
        Ok(code) => say_block(answer, code.stmts.as_slice()),
        Err(fault) => answer.debug(&fault),
    }
    Some(())
}
