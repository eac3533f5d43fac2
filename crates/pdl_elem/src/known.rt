//! Operators and types that are known where a loop is compiled, so that a loop has no test of them.
ghost use Rattle.std.specs.Prelude.{◌≡◌};
ghost use Rattle.pdl_elem.specs.declared.BinaryOp.{BinaryOp};
ghost use Rattle.pdl_elem.specs.declared.BinaryOp.TheVariants.{Add, Sub, Mul, Div, Rem, Shl, Shr, Lt, Le, Gt, Ge, Eq, Ne, And, Or, Xor};
ghost use Rattle.pdl_elem.specs.declared.Ty.{Ty};
ghost use Rattle.pdl_elem.specs.declared.Ty.TheVariants.{Sbyte, Byte, Short, Ushort, Long, Ulong, Longlong};
ghost use Rattle.pdl_elem.specs.declared.UnaryOp.{UnaryOp};
ghost use Rattle.pdl_elem.specs.declared.UnaryOp.TheVariants.{Neg, Not, Complement};

use crate::{BinaryOp, Ty, UnaryOp};

/// An element type.
pub trait KnownType {
    ghost ty: { Ty };

    fn known() -> Ty
        ensures { result ≡ ty };
}

/// An operator on two numbers.
pub trait KnownOp {
    ghost op: { BinaryOp };

    fn known() -> BinaryOp
        ensures { result ≡ op };
}

/// An operator on one number.
pub trait KnownUnary {
    ghost op: { UnaryOp };

    fn known() -> UnaryOp
        ensures { result ≡ op };
}

pub struct AtSbyte;

impl KnownType for AtSbyte {
    ghost ty = { Sbyte };

    fn known() -> Ty {
        Ty::Sbyte
    }
}

pub struct AtByte;

impl KnownType for AtByte {
    ghost ty = { Byte };

    fn known() -> Ty {
        Ty::Byte
    }
}

pub struct AtShort;

impl KnownType for AtShort {
    ghost ty = { Short };

    fn known() -> Ty {
        Ty::Short
    }
}

pub struct AtUshort;

impl KnownType for AtUshort {
    ghost ty = { Ushort };

    fn known() -> Ty {
        Ty::Ushort
    }
}

pub struct AtLong;

impl KnownType for AtLong {
    ghost ty = { Long };

    fn known() -> Ty {
        Ty::Long
    }
}

pub struct AtUlong;

impl KnownType for AtUlong {
    ghost ty = { Ulong };

    fn known() -> Ty {
        Ty::Ulong
    }
}

pub struct AtLonglong;

impl KnownType for AtLonglong {
    ghost ty = { Longlong };

    fn known() -> Ty {
        Ty::Longlong
    }
}

pub struct ToAdd;

impl KnownOp for ToAdd {
    ghost op = { Add };

    fn known() -> BinaryOp {
        BinaryOp::Add
    }
}

pub struct ToSub;

impl KnownOp for ToSub {
    ghost op = { Sub };

    fn known() -> BinaryOp {
        BinaryOp::Sub
    }
}

pub struct ToMul;

impl KnownOp for ToMul {
    ghost op = { Mul };

    fn known() -> BinaryOp {
        BinaryOp::Mul
    }
}

pub struct ToDiv;

impl KnownOp for ToDiv {
    ghost op = { Div };

    fn known() -> BinaryOp {
        BinaryOp::Div
    }
}

pub struct ToRem;

impl KnownOp for ToRem {
    ghost op = { Rem };

    fn known() -> BinaryOp {
        BinaryOp::Rem
    }
}

pub struct ToShl;

impl KnownOp for ToShl {
    ghost op = { Shl };

    fn known() -> BinaryOp {
        BinaryOp::Shl
    }
}

pub struct ToShr;

impl KnownOp for ToShr {
    ghost op = { Shr };

    fn known() -> BinaryOp {
        BinaryOp::Shr
    }
}

pub struct ToLt;

impl KnownOp for ToLt {
    ghost op = { Lt };

    fn known() -> BinaryOp {
        BinaryOp::Lt
    }
}

pub struct ToLe;

impl KnownOp for ToLe {
    ghost op = { Le };

    fn known() -> BinaryOp {
        BinaryOp::Le
    }
}

pub struct ToGt;

impl KnownOp for ToGt {
    ghost op = { Gt };

    fn known() -> BinaryOp {
        BinaryOp::Gt
    }
}

pub struct ToGe;

impl KnownOp for ToGe {
    ghost op = { Ge };

    fn known() -> BinaryOp {
        BinaryOp::Ge
    }
}

pub struct ToEq;

impl KnownOp for ToEq {
    ghost op = { Eq };

    fn known() -> BinaryOp {
        BinaryOp::Eq
    }
}

pub struct ToNe;

impl KnownOp for ToNe {
    ghost op = { Ne };

    fn known() -> BinaryOp {
        BinaryOp::Ne
    }
}

pub struct ToAnd;

impl KnownOp for ToAnd {
    ghost op = { And };

    fn known() -> BinaryOp {
        BinaryOp::And
    }
}

pub struct ToOr;

impl KnownOp for ToOr {
    ghost op = { Or };

    fn known() -> BinaryOp {
        BinaryOp::Or
    }
}

pub struct ToXor;

impl KnownOp for ToXor {
    ghost op = { Xor };

    fn known() -> BinaryOp {
        BinaryOp::Xor
    }
}

pub struct ToNeg;

impl KnownUnary for ToNeg {
    ghost op = { Neg };

    fn known() -> UnaryOp {
        UnaryOp::Neg
    }
}

pub struct ToNot;

impl KnownUnary for ToNot {
    ghost op = { Not };

    fn known() -> UnaryOp {
        UnaryOp::Not
    }
}

pub struct ToComplement;

impl KnownUnary for ToComplement {
    ghost op = { Complement };

    fn known() -> UnaryOp {
        UnaryOp::Complement
    }
}
