//! The operators of expressions and reductions on numbers of 32 bits (C11 6.5).

ghost use Rattle.std.specs.Prelude.{◌≡◌};
ghost use Rattle.c_model.specs.Constructs.{reduction_result};
ghost use Rattle.c_model.specs.Value.{truth, quotient, remainder, binary_result, unary_result, deciding_value};

use c_model::{OVERFLOW, ZERO_DIVIDE};
use c_syntax::{BinaryOp, ReductionOp, UnaryOp};

/// What an operator makes of two numbers, or its trap.
#[inline(always)]
pub(crate) fn binary_result(operator: BinaryOp, left: i32, right: i32) -> Result<i32, u8>
    ensures { result ≡ binary_result operator left right }
{
    match operator {
        BinaryOp::Equal => Ok(truth(left == right)),
        BinaryOp::NotEqual => Ok(truth(left != right)),
        BinaryOp::Less => Ok(truth(left < right)),
        BinaryOp::LessEqual => Ok(truth(left <= right)),
        BinaryOp::Greater => Ok(truth(right < left)),
        BinaryOp::GreaterEqual => Ok(truth(right <= left)),
        BinaryOp::Add => left.checked_add(right).ok_or(OVERFLOW),
        BinaryOp::Subtract => left.checked_sub(right).ok_or(OVERFLOW),
        BinaryOp::Multiply => left.checked_mul(right).ok_or(OVERFLOW),
        BinaryOp::Divide => quotient(left, right),
        BinaryOp::Remainder => remainder(left, right),
        BinaryOp::Or | BinaryOp::And => Ok(truth(right != 0)),
    }
}

/// What an operator makes of a number, or its trap.
pub(crate) fn unary_result(operator: UnaryOp, number: i32) -> Result<i32, u8>
    ensures { result ≡ unary_result operator number }
{
    match operator {
        UnaryOp::Negate => number.checked_neg().ok_or(OVERFLOW),
        UnaryOp::Not => Ok(truth(number == 0)),
    }
}

/// The value of `||` or `&&` where the left operand decides it.
#[inline(always)]
pub(crate) fn deciding_value(operator: BinaryOp, left: i32) -> Option<i32>
    ensures { result ≡ deciding_value operator left }
{
    match operator {
        BinaryOp::Or => { if left == 0 { None } else { Some(1) } }
        BinaryOp::And => { if left == 0 { Some(0) } else { None } }
        _ => None,
    }
}

/// What a reduction makes of the number of a variable and that of a construct's copy of it, or its trap (OpenMP 5.2, 5.5.5).
pub(crate) fn reduction_result(operator: ReductionOp, around: i32, own: i32) -> Result<i32, u8>
    ensures { result ≡ reduction_result operator around own }
{
    match operator {
        ReductionOp::Add => around.checked_add(own).ok_or(OVERFLOW),
        ReductionOp::Multiply => around.checked_mul(own).ok_or(OVERFLOW),
        ReductionOp::Max => { if around <= own { Ok(own) } else { Ok(around) } }
        ReductionOp::Min => { if around <= own { Ok(around) } else { Ok(own) } }
    }
}

/// 1 or 0.
#[inline(always)]
fn truth(holds: bool) -> i32
    ensures { result ≡ truth holds }
{
    if holds { 1 } else { 0 }
}

/// Toward 0.
#[inline(always)]
fn quotient(left: i32, right: i32) -> Result<i32, u8>
    ensures { result ≡ quotient left right }
{
    if right == 0 {
        return Err(ZERO_DIVIDE);
    }
    left.checked_div(right).ok_or(OVERFLOW)
}

/// What a division toward 0 leaves.
#[inline(always)]
fn remainder(left: i32, right: i32) -> Result<i32, u8>
    ensures { result ≡ remainder left right }
{
    if right == 0 {
        return Err(ZERO_DIVIDE);
    }
    left.checked_rem(right).ok_or(OVERFLOW)
}
