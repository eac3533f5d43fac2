//! The operators on blocks of numbers: one loop for each operator and type. No call takes memory.
ghost use Rattle.std.specs.Prelude.{◌≡◌, ◌≢◌, ℤ, pos, length, map, All, IsTrue, OnOk, OnErr, IfNone};
ghost use Rattle.std.specs.Result.{result_err};
ghost use Rattle.pdl_elem.specs.Blocks.{pairwise, zero_at};
ghost use Rattle.pdl_elem.specs.Numbers.{wrapped};
ghost use Rattle.pdl_elem.specs.Operators.{divides, unary_value, value_of};
ghost use Rattle.pdl_elem.specs.Types.{InRange, binary_result, unary_result};
ghost use Rattle.pdl_elem.specs.declared.BinaryOp.TheVariants.{Div};

use crate::known::*;
use crate::operators::{apply, unary};
use crate::words::wrap_word;
use crate::{BinaryOp, Ty, UnaryOp};

/// Each element of `into` becomes the operator's value on the two numbers at its place.
fn pairs<O: KnownOp, T: KnownType>(a: &[i64], b: &[i64], into: &mut [i64])
    requires left { length a.now ≡ length into.old }
    requires right { length b.now ≡ length into.old }
    requires left_in_range { All (InRange T.ty) a.now }
    requires right_in_range { All (InRange T.ty) b.now }
    requires divisors { IsTrue (divides O.op) → All (λ y. y ≢ pos 0) b.now }
    ensures value { into.new ≡ pairwise (value_of O.op T.ty) a.now b.now }
    ensures in_range { All (InRange (binary_result O.op T.ty T.ty)) into.new }
{
    for (i, x) in into.iter_mut().enumerate() {
        *x = apply(O::known(), T::known(), a[i], b[i]);
    }
}

/// `pairs` at a type.
fn pairs_at<O: KnownOp>(ty: Ty, a: &[i64], b: &[i64], into: &mut [i64])
    requires left { length a.now ≡ length into.old }
    requires right { length b.now ≡ length into.old }
    requires left_in_range { All (InRange ty) a.now }
    requires right_in_range { All (InRange ty) b.now }
    requires divisors { IsTrue (divides O.op) → All (λ y. y ≢ pos 0) b.now }
    ensures value { into.new ≡ pairwise (value_of O.op ty) a.now b.now }
    ensures in_range { All (InRange (binary_result O.op ty ty)) into.new }
{
    match ty {
        Ty::Sbyte => pairs::<O, AtSbyte>(a, b, into),
        Ty::Byte => pairs::<O, AtByte>(a, b, into),
        Ty::Short => pairs::<O, AtShort>(a, b, into),
        Ty::Ushort => pairs::<O, AtUshort>(a, b, into),
        Ty::Long => pairs::<O, AtLong>(a, b, into),
        Ty::Ulong => pairs::<O, AtUlong>(a, b, into),
        Ty::Longlong => pairs::<O, AtLonglong>(a, b, into),
    }
}

/// The place of the first 0.
fn first_zero(numbers: &[i64]) -> Option<usize>
    ensures place { result ≡ zero_at Div numbers.now }
    ensures none { IfNone result (All (λ y. y ≢ pos 0) numbers.now) }
{
    numbers.iter().position(|y| *y == 0)
}

/// Where the operator divides, the place of the first divisor 0.
pub fn first_refused(op: BinaryOp, divisors: &[i64]) -> Option<usize>
    ensures place { result ≡ zero_at op divisors.now }
    ensures none { IfNone result (IsTrue (divides op) → All (λ y. y ≢ pos 0) divisors.now) }
{
    match op {
        BinaryOp::Div | BinaryOp::Rem => first_zero(divisors),
        _ => None,
    }
}

/// Each element of `into` becomes `a op b` at the type, for the two numbers of the type at its
/// place. The three are as long. Where the operator divides, no divisor is 0.
pub fn apply_all(op: BinaryOp, ty: Ty, a: &[i64], b: &[i64], into: &mut [i64])
    requires left { length a.now ≡ length into.old }
    requires right { length b.now ≡ length into.old }
    requires left_in_range { All (InRange ty) a.now }
    requires right_in_range { All (InRange ty) b.now }
    requires divisors { IsTrue (divides op) → All (λ y. y ≢ pos 0) b.now }
    ensures value { into.new ≡ pairwise (value_of op ty) a.now b.now }
    ensures in_range { All (InRange (binary_result op ty ty)) into.new }
{
    match op {
        BinaryOp::Add => pairs_at::<ToAdd>(ty, a, b, into),
        BinaryOp::Sub => pairs_at::<ToSub>(ty, a, b, into),
        BinaryOp::Mul => pairs_at::<ToMul>(ty, a, b, into),
        BinaryOp::Div => pairs_at::<ToDiv>(ty, a, b, into),
        BinaryOp::Rem => pairs_at::<ToRem>(ty, a, b, into),
        BinaryOp::Shl => pairs_at::<ToShl>(ty, a, b, into),
        BinaryOp::Shr => pairs_at::<ToShr>(ty, a, b, into),
        BinaryOp::Lt => pairs_at::<ToLt>(ty, a, b, into),
        BinaryOp::Le => pairs_at::<ToLe>(ty, a, b, into),
        BinaryOp::Gt => pairs_at::<ToGt>(ty, a, b, into),
        BinaryOp::Ge => pairs_at::<ToGe>(ty, a, b, into),
        BinaryOp::Eq => pairs_at::<ToEq>(ty, a, b, into),
        BinaryOp::Ne => pairs_at::<ToNe>(ty, a, b, into),
        BinaryOp::And => pairs_at::<ToAnd>(ty, a, b, into),
        BinaryOp::Or => pairs_at::<ToOr>(ty, a, b, into),
        BinaryOp::Xor => pairs_at::<ToXor>(ty, a, b, into),
    }
}

/// `apply_all`, but where the operator divides and some divisor is 0, it answers the place of the
/// first one, and `into` stays.
pub fn binary_all(op: BinaryOp, ty: Ty, a: &[i64], b: &[i64], into: &mut [i64]) -> Result<(), usize>
    requires left { length a.now ≡ length into.old }
    requires right { length b.now ≡ length into.old }
    requires left_in_range { All (InRange ty) a.now }
    requires right_in_range { All (InRange ty) b.now }
    ensures value { OnOk result (into.new ≡ pairwise (value_of op ty) a.now b.now) }
    ensures in_range { OnOk result (All (InRange (binary_result op ty ty)) into.new) }
    ensures refused { result_err result ≡ zero_at op b.now }
    ensures kept { OnErr result (into.new ≡ into.old) }
{
    if let Some(place) = first_refused(op, b) {
        return Err(place);
    }
    apply_all(op, ty, a, b, into);
    Ok(())
}

/// Each number becomes the operator's value on it.
fn singles<O: KnownUnary, T: KnownType>(numbers: &mut [i64])
    requires { All (InRange T.ty) numbers.old }
    ensures value { numbers.new ≡ map (unary_value O.op T.ty) numbers.old }
    ensures in_range { All (InRange (unary_result O.op T.ty)) numbers.new }
{
    for x in numbers {
        *x = unary(O::known(), T::known(), *x);
    }
}

/// `singles` at a type.
fn singles_at<O: KnownUnary>(ty: Ty, numbers: &mut [i64])
    requires { All (InRange ty) numbers.old }
    ensures value { numbers.new ≡ map (unary_value O.op ty) numbers.old }
    ensures in_range { All (InRange (unary_result O.op ty)) numbers.new }
{
    match ty {
        Ty::Sbyte => singles::<O, AtSbyte>(numbers),
        Ty::Byte => singles::<O, AtByte>(numbers),
        Ty::Short => singles::<O, AtShort>(numbers),
        Ty::Ushort => singles::<O, AtUshort>(numbers),
        Ty::Long => singles::<O, AtLong>(numbers),
        Ty::Ulong => singles::<O, AtUlong>(numbers),
        Ty::Longlong => singles::<O, AtLonglong>(numbers),
    }
}

/// Each number `a` of the type becomes `op a` at the type.
pub fn unary_all(op: UnaryOp, ty: Ty, numbers: &mut [i64])
    requires { All (InRange ty) numbers.old }
    ensures value { numbers.new ≡ map (unary_value op ty) numbers.old }
    ensures in_range { All (InRange (unary_result op ty)) numbers.new }
{
    match op {
        UnaryOp::Neg => singles_at::<ToNeg>(ty, numbers),
        UnaryOp::Not => singles_at::<ToNot>(ty, numbers),
        UnaryOp::Complement => singles_at::<ToComplement>(ty, numbers),
    }
}

/// Each number becomes the one that it is wrapped to.
fn wraps<T: KnownType>(numbers: &mut [i64])
    ensures value { numbers.new ≡ map (wrapped T.ty) numbers.old }
    ensures in_range { All (InRange T.ty) numbers.new }
{
    for x in numbers {
        *x = wrap_word(T::known(), *x);
    }
}

/// Each number is wrapped to the type: it becomes the one number in the type's range that is
/// congruent to it modulo 2 to the number of the type's bits.
pub fn wrap_all(ty: Ty, numbers: &mut [i64])
    ensures value { numbers.new ≡ map (wrapped ty) numbers.old }
    ensures in_range { All (InRange ty) numbers.new }
{
    match ty {
        Ty::Sbyte => wraps::<AtSbyte>(numbers),
        Ty::Byte => wraps::<AtByte>(numbers),
        Ty::Short => wraps::<AtShort>(numbers),
        Ty::Ushort => wraps::<AtUshort>(numbers),
        Ty::Long => wraps::<AtLong>(numbers),
        Ty::Ulong => wraps::<AtUlong>(numbers),
        Ty::Longlong => wraps::<AtLonglong>(numbers),
    }
}
