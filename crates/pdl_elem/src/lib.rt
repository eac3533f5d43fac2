//! The seven whole-number element types of an array, how a number is wrapped to a type, and the
//! operators on numbers of one type, one by one and in blocks (PDL::Ops, PDL::Core on types).
#![tactic(auto)]

mod blocks;
mod items;
mod known;
mod laws;
mod naming;
mod operators;
mod strings;
mod tables;
mod words;

pub use blocks::{apply_all, binary_all, first_refused, unary_all, wrap_all};
pub use items::Items;
pub use known::{
    KnownOp, ToAdd, ToAnd, ToDiv, ToEq, ToGe, ToGt, ToLe, ToLt, ToMul, ToNe, ToOr, ToRem, ToShl,
    ToShr, ToSub, ToXor,
};
pub use laws::{block_laws, congruence_laws, operator_laws, wrapping_laws};
pub use naming::{type_name, type_named, type_word};
pub use operators::{apply, binary, binary_type, promote, unary, unary_type, wrap};
pub use strings::{Name, Text};
pub use tables::found_in;

/// An element type. The order of the variants is the order of rank: of two types the later one is
/// the one that both are converted to.
///
/// | Type | Range |
/// |---|---|
/// | `Sbyte` | -128 to 127 |
/// | `Byte` | 0 to 255 |
/// | `Short` | -32768 to 32767 |
/// | `Ushort` | 0 to 65535 |
/// | `Long` | -2147483648 to 2147483647 |
/// | `Ulong` | 0 to 4294967295 |
/// | `Longlong` | -9223372036854775808 to 9223372036854775807 |
#[derive(Clone, Copy, PartialEq, Eq, Debug)]
pub enum Ty {
    Sbyte,
    Byte,
    Short,
    Ushort,
    Long,
    Ulong,
    Longlong,
}

/// An operator on one number: `-a`, `!a` and `~a`.
#[derive(Clone, Copy, PartialEq, Eq, Debug)]
pub enum UnaryOp {
    Neg,
    Not,
    Complement,
}

/// An operator on two numbers: `+ - * / % << >> < <= > >= == != & | ^`.
#[derive(Clone, Copy, PartialEq, Eq, Debug)]
pub enum BinaryOp {
    Add,
    Sub,
    Mul,
    Div,
    Rem,
    Shl,
    Shr,
    Lt,
    Le,
    Gt,
    Ge,
    Eq,
    Ne,
    And,
    Or,
    Xor,
}

/// `/` or `%` was asked for with the divisor 0.
#[derive(Clone, Copy, PartialEq, Eq, Debug)]
pub struct DivideByZero;
