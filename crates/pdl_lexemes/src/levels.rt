//! The levels of binary operators.
ghost use Rattle.std.specs.Prelude.{◌≡◌};
ghost use Rattle.pdl_lexemes.specs.Levels.{level_of};

use pdl_elem::BinaryOp;

/// The level of an operator: the lower one binds tighter.
pub fn level_of(op: BinaryOp) -> u8
    ensures { result ≡ level_of op }
{
    match op {
        BinaryOp::Mul | BinaryOp::Div | BinaryOp::Rem => 1,
        BinaryOp::Add | BinaryOp::Sub => 2,
        BinaryOp::Shl | BinaryOp::Shr => 3,
        BinaryOp::Lt | BinaryOp::Gt | BinaryOp::Le | BinaryOp::Ge => 4,
        BinaryOp::Eq | BinaryOp::Ne => 5,
        BinaryOp::And => 6,
        BinaryOp::Or | BinaryOp::Xor => 7,
    }
}
