//! The operators on one number and on two, and the types of their results.
ghost use Rattle.std.specs.Prelude.{◌≡◌, ◌≢◌, ◌↔◌, ℤ, pos, IsErr, IfOk, IsTrue};
ghost use Rattle.std.specs.Result.{result_ok};
ghost use Rattle.pdl_elem.specs.Numbers.{wrapped, WrapsTo};
ghost use Rattle.pdl_elem.specs.Operators.{unary_value, binary_value, divides, value_of};
ghost use Rattle.pdl_elem.specs.Types.{InRange, promoted, unary_result, binary_result};

use crate::words::{
    bitwise_and, bitwise_or, bitwise_xor, complement, difference, low_word, narrow, negative,
    product, quotient, remainder, shift_left, shift_right, sum, truth_of,
};
use crate::{BinaryOp, DivideByZero, Ty, UnaryOp};

/// The type of higher rank, at which an operation on a number of each of the two types works.
pub fn promote(a: Ty, b: Ty) -> Ty
    ensures { result ≡ promoted a b }
{
    if (a as u8) < b as u8 { b } else { a }
}

/// The type of the operator's result: byte for `!`, else the operand's.
pub fn unary_type(op: UnaryOp, ty: Ty) -> Ty
    ensures { result ≡ unary_result op ty }
{
    match op {
        UnaryOp::Not => Ty::Byte,
        UnaryOp::Neg | UnaryOp::Complement => ty,
    }
}

/// The type of the operator's result: byte for a comparison, else the operand type of higher rank.
pub fn binary_type(op: BinaryOp, a: Ty, b: Ty) -> Ty
    ensures { result ≡ binary_result op a b }
{
    match op {
        BinaryOp::Lt | BinaryOp::Le | BinaryOp::Gt | BinaryOp::Ge | BinaryOp::Eq | BinaryOp::Ne =>
            Ty::Byte,
        _ => promote(a, b),
    }
}

/// The one number in the type's range that is congruent to `n` modulo 2 to the number of its bits.
pub fn wrap(ty: Ty, n: i128) -> i64
    ensures value { result ≡ wrapped ty n }
    ensures wraps { WrapsTo ty n result }
    ensures only { (r : ℤ) → WrapsTo ty n r → r ≡ result }
{
    narrow(ty, low_word(n))
}

/// `op a` at the type, for a number of the type: `!` gives 0 or 1, and the rest is wrapped.
pub fn unary(op: UnaryOp, ty: Ty, a: i64) -> i64
    requires { InRange ty a }
    ensures value { result ≡ unary_value op ty a }
    ensures in_range { InRange (unary_result op ty) result }
{
    match op {
        UnaryOp::Neg => negative(ty, a),
        UnaryOp::Not => truth_of(a == 0),
        UnaryOp::Complement => complement(ty, a),
    }
}

/// `a op b` at the type, for two numbers of the type. A comparison gives 0 or 1, and the rest is
/// wrapped: `/` truncates towards 0, `%` has the sign of the divisor, and a shift by a count below
/// 0 or not below the type's bits shifts all bits out. `DivideByZero` exactly for `/` and `%` by 0.
pub fn binary(op: BinaryOp, ty: Ty, a: i64, b: i64) -> Result<i64, DivideByZero>
    requires left { InRange ty a }
    requires right { InRange ty b }
    ensures value { result_ok result ≡ binary_value op ty a b }
    ensures in_range { IfOk result (InRange (binary_result op ty ty)) }
    ensures refused { IsErr result ↔ (IsTrue (divides op) × (b ≡ pos 0)) }
{
    if matches!(op, BinaryOp::Div | BinaryOp::Rem) && b == 0 {
        return Err(DivideByZero);
    }
    Ok(apply(op, ty, a, b))
}

/// `a op b` at the type, for two numbers of the type, where the divisor of `/` and `%` isn't 0.
pub fn apply(op: BinaryOp, ty: Ty, a: i64, b: i64) -> i64
    requires left { InRange ty a }
    requires right { InRange ty b }
    requires divisor { IsTrue (divides op) → b ≢ pos 0 }
    ensures { result ≡ value_of op ty a b }
{
    match op {
        BinaryOp::Add => sum(ty, a, b),
        BinaryOp::Sub => difference(ty, a, b),
        BinaryOp::Mul => product(ty, a, b),
        BinaryOp::Div => quotient(ty, a, b),
        BinaryOp::Rem => remainder(ty, a, b),
        BinaryOp::Shl => shift_left(ty, a, b),
        BinaryOp::Shr => shift_right(ty, a, b),
        BinaryOp::Lt => truth_of(a < b),
        BinaryOp::Le => truth_of(a <= b),
        BinaryOp::Gt => truth_of(a > b),
        BinaryOp::Ge => truth_of(a >= b),
        BinaryOp::Eq => truth_of(a == b),
        BinaryOp::Ne => truth_of(a != b),
        BinaryOp::And => bitwise_and(ty, a, b),
        BinaryOp::Or => bitwise_or(ty, a, b),
        BinaryOp::Xor => bitwise_xor(ty, a, b),
    }
}
