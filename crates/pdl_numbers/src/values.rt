//! An operator's values on numbers that were read, packed as they are found.
ghost use Rattle.std.specs.Prelude.{◌≡◌, ◌≢◌, ◌++◌, ℤ, pos, length, map, All, IsTrue, OnOk, OnErr};
ghost use Rattle.pdl_elem.specs.Blocks.{pairwise};
ghost use Rattle.pdl_elem.specs.Operators.{divides, value_of};
ghost use Rattle.pdl_elem.specs.Types.{InRange};
ghost use Rattle.pdl_numbers.specs.Bytes.{number_of};

use crate::packed::Packed;
use crate::types::PackedType;
use pdl_elem::{
    BinaryOp, ToAdd, ToAnd, ToDiv, ToEq, ToGe, ToGt, ToLe, ToLt, ToMul, ToNe, ToOr, ToRem, ToShl,
    ToShr, ToSub, ToXor,
};
use std::alloc::AllocError;

/// Puts an operator's values on each two numbers of the type after the others. The operator is
/// looked at once.
pub(crate) fn extend_values<T: PackedType<N>, const N: usize>(
    numbers: &mut Packed<T, N>,
    op: BinaryOp,
    left: &[i64],
    right: &[i64],
) -> Result<(), AllocError>
    requires paired { length left.now ≡ length right.now }
    requires left_in_range { All (InRange T.ty) left.now }
    requires right_in_range { All (InRange T.ty) right.now }
    requires divisors { IsTrue (divides op) → All (λ y. y ≢ pos 0) right.now }
    ensures ok { let values = pairwise (value_of op T.ty) left.now right.now in
        OnOk result (numbers.new ≡ numbers.old ++ values) }
    ensures err { OnErr result (numbers.new ≡ numbers.old) }
{
    match op {
        BinaryOp::Add => numbers.extend_values::<ToAdd>(left, right),
        BinaryOp::Sub => numbers.extend_values::<ToSub>(left, right),
        BinaryOp::Mul => numbers.extend_values::<ToMul>(left, right),
        BinaryOp::Div => numbers.extend_values::<ToDiv>(left, right),
        BinaryOp::Rem => numbers.extend_values::<ToRem>(left, right),
        BinaryOp::Shl => numbers.extend_values::<ToShl>(left, right),
        BinaryOp::Shr => numbers.extend_values::<ToShr>(left, right),
        BinaryOp::Lt => numbers.extend_values::<ToLt>(left, right),
        BinaryOp::Le => numbers.extend_values::<ToLe>(left, right),
        BinaryOp::Gt => numbers.extend_values::<ToGt>(left, right),
        BinaryOp::Ge => numbers.extend_values::<ToGe>(left, right),
        BinaryOp::Eq => numbers.extend_values::<ToEq>(left, right),
        BinaryOp::Ne => numbers.extend_values::<ToNe>(left, right),
        BinaryOp::And => numbers.extend_values::<ToAnd>(left, right),
        BinaryOp::Or => numbers.extend_values::<ToOr>(left, right),
        BinaryOp::Xor => numbers.extend_values::<ToXor>(left, right),
    }
}

/// Puts an operator's values on the numbers in each two cells of the type after the others. The
/// operator is looked at once.
pub(crate) fn extend_values_of<T: PackedType<N>, const N: usize>(
    numbers: &mut Packed<T, N>,
    op: BinaryOp,
    left: &[[u8; N]],
    right: &[[u8; N]],
) -> Result<(), AllocError>
    requires paired { length left.now ≡ length right.now }
    requires divisors { IsTrue (divides op) →
        All (λ y. y ≢ pos 0) (map (number_of T.ty) right.now) }
    ensures ok { let number = number_of T.ty in
        let values = pairwise (value_of op T.ty) (map number left.now) (map number right.now) in
        OnOk result (numbers.new ≡ numbers.old ++ values) }
    ensures err { OnErr result (numbers.new ≡ numbers.old) }
{
    match op {
        BinaryOp::Add => numbers.extend_values_of::<ToAdd>(left, right),
        BinaryOp::Sub => numbers.extend_values_of::<ToSub>(left, right),
        BinaryOp::Mul => numbers.extend_values_of::<ToMul>(left, right),
        BinaryOp::Div => numbers.extend_values_of::<ToDiv>(left, right),
        BinaryOp::Rem => numbers.extend_values_of::<ToRem>(left, right),
        BinaryOp::Shl => numbers.extend_values_of::<ToShl>(left, right),
        BinaryOp::Shr => numbers.extend_values_of::<ToShr>(left, right),
        BinaryOp::Lt => numbers.extend_values_of::<ToLt>(left, right),
        BinaryOp::Le => numbers.extend_values_of::<ToLe>(left, right),
        BinaryOp::Gt => numbers.extend_values_of::<ToGt>(left, right),
        BinaryOp::Ge => numbers.extend_values_of::<ToGe>(left, right),
        BinaryOp::Eq => numbers.extend_values_of::<ToEq>(left, right),
        BinaryOp::Ne => numbers.extend_values_of::<ToNe>(left, right),
        BinaryOp::And => numbers.extend_values_of::<ToAnd>(left, right),
        BinaryOp::Or => numbers.extend_values_of::<ToOr>(left, right),
        BinaryOp::Xor => numbers.extend_values_of::<ToXor>(left, right),
    }
}
