//! Operations on longlongs that may have a fault.
ghost use Rattle.std.specs.Prelude.{◌≡◌};
ghost use Rattle.pdl_elem.specs.Numbers.{wrapped};
ghost use Rattle.pdl_kernel.specs.Meaning.{changed, operate};

use crate::faults::Fault;
use pdl_elem::{BinaryOp, Ty, binary, wrap};

/// An operation of a longlong.
pub fn operate(op: BinaryOp, a: i64, b: i64) -> Result<i64, Fault>
    ensures { result ≡ operate op a b }
{
    match binary(op, Ty::Longlong, a, b) {
        Ok(x) => Ok(x),
        Err(_) => Err(Fault::DivideByZero),
    }
}

/// What an assignment puts where there was a number.
#[inline(always)]
pub fn change(op: Option<BinaryOp>, before: i64, x: i64) -> Result<i64, Fault>
    ensures { result ≡ changed op before x }
{
    match op {
        None => Ok(x),
        Some(op) => operate(op, before, x),
    }
}

/// The number wrapped to a type.
pub fn wrap_to(ty: Ty, x: i64) -> i64
    ensures { result ≡ wrapped ty x }
{
    wrap(ty, i128::from(x))
}
