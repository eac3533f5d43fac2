//! What the words of the command line name.
use crate::reads::Form;
use pdl_elem::{BinaryOp, Ty};

/// What a word asks to be timed.
#[derive(Clone, Copy)]
pub enum Subject {
    Operator(BinaryOp),
    Window(Form),
}

/// The types by their words.
pub const TYPES: &[(&str, Ty)] = &[
    ("sbyte", Ty::Sbyte),
    ("byte", Ty::Byte),
    ("short", Ty::Short),
    ("ushort", Ty::Ushort),
    ("long", Ty::Long),
    ("ulong", Ty::Ulong),
    ("longlong", Ty::Longlong),
];

/// What is timed, by its words.
pub const SUBJECTS: &[(&str, Subject)] = &[
    ("add", Subject::Operator(BinaryOp::Add)),
    ("sub", Subject::Operator(BinaryOp::Sub)),
    ("mul", Subject::Operator(BinaryOp::Mul)),
    ("div", Subject::Operator(BinaryOp::Div)),
    ("rem", Subject::Operator(BinaryOp::Rem)),
    ("shl", Subject::Operator(BinaryOp::Shl)),
    ("shr", Subject::Operator(BinaryOp::Shr)),
    ("lt", Subject::Operator(BinaryOp::Lt)),
    ("le", Subject::Operator(BinaryOp::Le)),
    ("gt", Subject::Operator(BinaryOp::Gt)),
    ("ge", Subject::Operator(BinaryOp::Ge)),
    ("eq", Subject::Operator(BinaryOp::Eq)),
    ("ne", Subject::Operator(BinaryOp::Ne)),
    ("and", Subject::Operator(BinaryOp::And)),
    ("or", Subject::Operator(BinaryOp::Or)),
    ("xor", Subject::Operator(BinaryOp::Xor)),
    ("in_order", Subject::Window(Form::InOrder)),
    ("stepped", Subject::Window(Form::Stepped)),
    ("turned", Subject::Window(Form::Turned)),
    ("stretched", Subject::Window(Form::Stretched)),
    ("rows_of_3", Subject::Window(Form::Rows)),
];

/// What a word stands for in a table.
pub fn named<T: Copy>(table: &[(&str, T)], word: &str) -> Option<T> {
    for (name, value) in table {
        if *name == word {
            return Some(*value);
        }
    }
    None
}
