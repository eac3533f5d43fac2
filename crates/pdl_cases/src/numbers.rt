//! `wrap TYPE N => N`, `unary OPERATOR TYPE N => N`, `binary TYPE N OPERATOR N => N`, or the fault.
//! Types and operators are written as the crate names them, as `Longlong` and `Add`.

use crate::answer::Answer;
use crate::cursor::Cursor;
use pdl_elem::{BinaryOp, Ty, UnaryOp, binary, unary, wrap};

/// The types by the names that cases give them, in the order of their ranks.
pub const TYPES: &[(&str, Ty)] = &[
    ("Sbyte", Ty::Sbyte),
    ("Byte", Ty::Byte),
    ("Short", Ty::Short),
    ("Ushort", Ty::Ushort),
    ("Long", Ty::Long),
    ("Ulong", Ty::Ulong),
    ("Longlong", Ty::Longlong),
];

const UNARY: &[(&str, UnaryOp)] = &[
    ("Neg", UnaryOp::Neg),
    ("Not", UnaryOp::Not),
    ("Complement", UnaryOp::Complement),
];

const BINARY: &[(&str, BinaryOp)] = &[
    ("Add", BinaryOp::Add),
    ("Sub", BinaryOp::Sub),
    ("Mul", BinaryOp::Mul),
    ("Div", BinaryOp::Div),
    ("Rem", BinaryOp::Rem),
    ("Shl", BinaryOp::Shl),
    ("Shr", BinaryOp::Shr),
    ("Lt", BinaryOp::Lt),
    ("Le", BinaryOp::Le),
    ("Gt", BinaryOp::Gt),
    ("Ge", BinaryOp::Ge),
    ("Eq", BinaryOp::Eq),
    ("Ne", BinaryOp::Ne),
    ("And", BinaryOp::And),
    ("Or", BinaryOp::Or),
    ("Xor", BinaryOp::Xor),
];

/// A number wrapped to a type.
pub fn wrap_answer(line: &mut Cursor<'_>, answer: &mut Answer) -> Option<()> {
    let ty = line.named(TYPES)?;
    answer.show(&wrap(ty, i128::from(line.number()?)));
    Some(())
}

/// An operator on one number of a type.
pub fn unary_answer(line: &mut Cursor<'_>, answer: &mut Answer) -> Option<()> {
    let op = line.named(UNARY)?;
    let ty = line.named(TYPES)?;
    let value = unary(op, ty, wrap(ty, i128::from(line.number()?)));
    answer.show(&value);
    Some(())
}

/// An operator on two numbers of a type.
pub fn binary_answer(line: &mut Cursor<'_>, answer: &mut Answer) -> Option<()> {
    let ty = line.named(TYPES)?;
    let left = wrap(ty, i128::from(line.number()?));
    let op = line.named(BINARY)?;
    let right = wrap(ty, i128::from(line.number()?));
    match binary(op, ty, left, right) {
        Ok(value) => answer.show(&value),
        Err(fault) => answer.debug(&fault),
    }
    Some(())
}
