//! The numbers of `++` and `--` (ECMA-262, 3rd edition, sections 11.3, 11.4.4 and 11.4.5).
ghost use Rattle.std.specs.Prelude.{◌≡◌, Some, pos};
ghost use Rattle.wjs_num.specs.Exact.{answer};
ghost use Rattle.wjs_meaning.specs.Expressions as line;
ghost use Rattle.wjs_model.specs.Waiting.{fix_in};

use wjs_base::Whole;
use wjs_model::Fix;
use wjs_num::{NumFault, add, sub};
use wjs_tree::UpdateOperator;

/// The number after, or before.
#[inline(always)]
pub fn updated(operator: UpdateOperator, number: Whole) -> Result<Whole, NumFault>
    ensures { answer result ≡ line.updated operator number.number }
{
    match operator {
        UpdateOperator::Increment => add(number, one()),
        UpdateOperator::Decrement => sub(number, one()),
    }
}

/// 1.
fn one() -> Whole
    ensures { result.number ≡ Some (pos 1) }
{
    Whole::new(1).unwrap()
}

/// The number that is given: the old one where the operator stands behind its target.
#[inline(always)]
pub fn given(fix: Fix, old: Whole, new: Whole) -> Whole
    ensures { result.number ≡ line.given (fix_in fix) old.number new.number }
{
    match fix {
        Fix::Post => old,
        Fix::Pre => new,
    }
}
