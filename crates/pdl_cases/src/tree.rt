//! Statements as texts: each part is written, operators first, and each argument ends with `;`.

use crate::answer::Answer;
use pdl_buf::Made;
use pdl_elem::{Name, type_name};
use pdl_lexemes::AssignOp;
use pdl_shape::dims_list;
use pdl_syntax::{Arg, Expr, Statement, Target, ViewCall};

#[cycle(say)]
fn say_expr(answer: &mut Answer, expr: &Expr) {
    match expr {
        Expr::Number(number) => answer.show(number),
        Expr::Named(name) => answer.escaped(name.bytes()),
        Expr::List(made) => say_made(answer, made),
        Expr::Unary(op, inner) => {
            answer.operator(op);
            say_expr(answer, inner);
            answer.say(")");
        }
        Expr::Binary(op, left, right) => {
            answer.operator(op);
            say_expr(answer, left);
            answer.say(" ");
            say_expr(answer, right);
            answer.say(")");
        }
        Expr::Call(name, args) => {
            answer.escaped(name.bytes());
            answer.say("(");
            for arg in args {
                say_arg(answer, arg);
            }
            answer.say(")");
        }
    }
}

#[cycle(say)]
fn say_arg(answer: &mut Answer, arg: &Arg) {
    match arg {
        Arg::Value(expr) => say_expr(answer, expr),
        Arg::Str(text) => answer.escaped(text.bytes()),
        Arg::OfType(ty) => answer.say(type_name(*ty)),
    }
    answer.say(";");
}

fn say_made(answer: &mut Answer, made: &Made) {
    answer.say(type_name(made.ty));
    for size in dims_list(&made.dims) {
        answer.tell(" ", size);
    }
    answer.say(":");
    match made.elems.to_vec(answer.alloc) {
        Ok(numbers) => say_numbers(answer, &numbers),
        Err(_) => answer.lacks(),
    }
}

fn say_numbers(answer: &mut Answer, numbers: &[i64]) {
    for number in numbers {
        answer.tell(" ", number);
    }
}

fn say_args(answer: &mut Answer, args: &[Arg]) {
    for arg in args {
        say_arg(answer, arg);
    }
}

fn say_views(answer: &mut Answer, views: &[ViewCall]) {
    for view in views {
        answer.say("->");
        answer.escaped(view.method.bytes());
        answer.say("(");
        say_args(answer, view.args.as_slice());
        answer.say(")");
    }
}

fn say_names(answer: &mut Answer, names: &[Name]) {
    for name in names {
        say_word(answer, name.bytes(), " ");
    }
}

fn say_word(answer: &mut Answer, word: &[u8], behind: &str) {
    answer.escaped(word);
    answer.say(behind);
}

// Statements of a word and at most one part; the others are written by `say_statement`.
fn say_short(answer: &mut Answer, statement: &Statement) {
    match statement {
        Statement::ShowText { text } => say_behind(answer, "text ", text.bytes()),
        Statement::Sever { name } => say_behind(answer, "sever ", name.bytes()),
        Statement::Undef { name } => say_behind(answer, "undef ", name.bytes()),
        Statement::Vars => answer.say("vars"),
        Statement::Dump => answer.say("dump"),
        Statement::Unwatch { slot } => answer.tell("unwatch ", slot),
        _ => answer.say("another"),
    }
}

fn say_behind(answer: &mut Answer, word: &str, text: &[u8]) {
    answer.say(word);
    answer.escaped(text);
}

fn say_assignment(answer: &mut Answer, target: &Target, op: &AssignOp, value: &Expr) {
    answer.escaped(target.name.bytes());
    say_views(answer, target.views.as_slice());
    answer.say(" ");
    answer.debug(op);
    answer.say(" ");
    say_expr(answer, value);
}

/// Writes what a statement says.
pub fn say_statement(answer: &mut Answer, statement: &Statement) {
    match statement {
        Statement::Bind { name, value, sever } => {
            let behind = if *sever { " severed " } else { " bound " };
            say_word(answer, name.bytes(), behind);
            say_expr(answer, value);
        }
        Statement::BindList { names, value } => {
            say_names(answer, names.as_slice());
            say_expr(answer, value);
        }
        Statement::Assign { target, op, value } => say_assignment(answer, target, op, value),
        Statement::Show { value, info } => {
            answer.say(if *info { "info " } else { "show " });
            say_expr(answer, value);
        }
        Statement::Reshape { name, sizes } => {
            say_behind(answer, "reshape ", name.bytes());
            answer.say(" ");
            say_args(answer, sizes.as_slice());
        }
        Statement::Flow { name, value } => {
            say_behind(answer, "flow ", name.bytes());
            answer.say(" ");
            say_expr(answer, value);
        }
        Statement::PpDef {
            name,
            signature,
            code,
        } => {
            say_behind(answer, "define ", name.bytes());
            say_behind(answer, "|", signature.bytes());
            say_behind(answer, "|", code.bytes());
        }
        Statement::Watch { name, slot } => {
            say_behind(answer, "watch ", name.bytes());
            answer.tell(" ", slot);
        }
        _ => say_short(answer, statement),
    }
}
