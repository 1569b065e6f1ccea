//! Operators on two numbers (ECMA-262, 3rd edition, sections 11.5 to 11.7 and 11.10).
ghost use Rattle.std.specs.Prelude.{◌≡◌, true, IfSome};
ghost use Rattle.wjs_base.specs.Text.{Table};
ghost use Rattle.wjs_num.specs.Exact.{answer};
ghost use Rattle.wjs_by_content.specs.Tables.{value_in};
ghost use Rattle.wjs_by_content.specs.Values.{Number};
ghost use Rattle.wjs_meaning.specs.Deeds.{Env, give};
ghost use Rattle.wjs_meaning.specs.Operators as line;
ghost use Rattle.wjs_frames.specs.Shortening.{Shortens};
ghost use Rattle.wjs_quick.specs.Operating.{is_calculation};

use wjs_base::{Value, Whole};
use wjs_num::{NumFault, add, bit_and, bit_or, bit_xor, div, mul, rem, shl, shr, sub, ushr};
use wjs_tree::BinaryOperator;

/// The number that the operator makes of two numbers, with which the operation ends at once. None where a value is no number,
/// or the operation makes none or throws.
#[inline(always)]
pub fn calculated(operator: BinaryOperator, left: Value, right: Value) -> Option<Whole>
    ensures { IfSome result (λ number. (t : Table) (env : Env) →
        Shortens (line.operate operator (value_in t left) (value_in t right) env) (give (Number number.number))) }
{
    let Value::Number(x) = left else {
        return None;
    };
    let Value::Number(y) = right else {
        return None;
    };
    number_of(operator, x, y)
}

#[inline(always)]
fn number_of(operator: BinaryOperator, x: Whole, y: Whole) -> Option<Whole>
    ensures { IfSome result (λ number. (env : Env) → Shortens (line.operate operator (Number x.number) (Number y.number) env) (give (Number number.number))) }
{
    match operator {
        BinaryOperator::Add => sum(x, y),
        BinaryOperator::Subtract => calculation(BinaryOperator::Subtract, x, y),
        BinaryOperator::Multiply => calculation(BinaryOperator::Multiply, x, y),
        BinaryOperator::Divide => calculation(BinaryOperator::Divide, x, y),
        BinaryOperator::Remainder => calculation(BinaryOperator::Remainder, x, y),
        BinaryOperator::ShiftLeft => calculation(BinaryOperator::ShiftLeft, x, y),
        BinaryOperator::ShiftRight => calculation(BinaryOperator::ShiftRight, x, y),
        BinaryOperator::ShiftRightUnsigned => calculation(BinaryOperator::ShiftRightUnsigned, x, y),
        BinaryOperator::BitAnd => calculation(BinaryOperator::BitAnd, x, y),
        BinaryOperator::BitXor => calculation(BinaryOperator::BitXor, x, y),
        BinaryOperator::BitOr => calculation(BinaryOperator::BitOr, x, y),
        _ => None,
    }
}

#[inline(always)]
fn sum(x: Whole, y: Whole) -> Option<Whole>
    ensures { IfSome result (λ number. (env : Env) →
        Shortens (line.operate BinaryOperator.Add (Number x.number) (Number y.number) env) (give (Number number.number))) }
{
    match add(x, y) {
        Ok(number) => Some(number),
        Err(_) => None,
    }
}

#[inline(always)]
fn calculation(operator: BinaryOperator, x: Whole, y: Whole) -> Option<Whole>
    requires { is_calculation operator ≡ true }
    ensures { IfSome result (λ number. (env : Env) → Shortens (line.operate operator (Number x.number) (Number y.number) env) (give (Number number.number))) }
{
    match arithmetic(operator, x, y) {
        Ok(number) => Some(number),
        Err(_) => None,
    }
}

/// The arithmetic of an operator.
#[inline(always)]
pub fn arithmetic(operator: BinaryOperator, x: Whole, y: Whole) -> Result<Whole, NumFault>
    ensures { answer result ≡ line.arithmetic operator x.number y.number }
{
    match operator {
        BinaryOperator::Multiply => mul(x, y),
        BinaryOperator::Divide => div(x, y),
        BinaryOperator::Remainder => rem(x, y),
        BinaryOperator::Subtract => sub(x, y),
        BinaryOperator::ShiftLeft => Ok(shl(x, y)),
        BinaryOperator::ShiftRight => Ok(shr(x, y)),
        BinaryOperator::ShiftRightUnsigned => Ok(ushr(x, y)),
        BinaryOperator::BitAnd => Ok(bit_and(x, y)),
        BinaryOperator::BitXor => Ok(bit_xor(x, y)),
        BinaryOperator::BitOr => Ok(bit_or(x, y)),
        _ => Ok(Whole::NAN),
    }
}
