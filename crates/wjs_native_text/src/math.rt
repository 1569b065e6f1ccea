//! Math (ECMA-262, 3rd edition, section 15.8).
ghost use Rattle.std.specs.Prelude.{◌≡◌, IfSome, MatchOption, map, false};
ghost use Rattle.wjs_base.specs.Text.{Table};
ghost use Rattle.wjs_base.specs.declared.values.Value.{Value as NumberedValue};
ghost use Rattle.wjs_num.specs.Exact.{answer};
ghost use Rattle.wjs_by_content.specs.Tables.{value_in};
ghost use Rattle.wjs_by_content.specs.Values.{Number, Undefined};
ghost use Rattle.wjs_meaning.specs.Deeds as line;
ghost use Rattle.wjs_meaning.specs.Deeds.{Env};
ghost use Rattle.wjs_meaning.specs.Errors as errors;
ghost use Rattle.wjs_meaning.specs.Natives.{native_line};
ghost use Rattle.wjs_frames.specs.Handling.{IsRunning, GoesOn};

use wjs_arena::{MathNative, Native};
use wjs_base::{OutOfMemory, Value, Whole};
use wjs_model::{Config, Frame, Trouble};
use wjs_natives::whole_at;
use wjs_num::{NumFault, pow};
use wjs_step_common::{give, give_result, throw};
use wjs_store::WorldStore;
use wjs_strings::{absolute, greatest, least};

/// The number without its sign (section 15.8.2.1).
pub(crate) fn abs<S: WorldStore>(
    config: &mut Config<S>,
    frame: Frame,
    args: &[Value],
) -> Result<(), OutOfMemory>
    requires running { IsRunning S.meaning config.old }
    ensures { GoesOn S.meaning frame config.old config.new result (λ t env.
        native_line (Native.Math MathNative.Abs) false Undefined (map (value_in t) args.now) env) }
{
    give(config, frame, Value::Number(absolute(whole_at(args, 0))))
}

/// The number, which is whole: also what `floor`, `ceil` and `round` give (sections 15.8.2.6, 15.8.2.9 and 15.8.2.15).
pub(crate) fn whole<S: WorldStore>(
    config: &mut Config<S>,
    frame: Frame,
    args: &[Value],
) -> Result<(), OutOfMemory>
    requires running { IsRunning S.meaning config.old }
    ensures { GoesOn S.meaning frame config.old config.new result (λ t env.
        native_line (Native.Math MathNative.Floor) false Undefined (map (value_in t) args.now) env) }
{
    give(config, frame, Value::Number(whole_at(args, 0)))
}

/// The greatest of the numbers (section 15.8.2.11).
pub(crate) fn max<S: WorldStore>(
    config: &mut Config<S>,
    frame: Frame,
    args: &[Value],
) -> Result<(), OutOfMemory>
    requires running { IsRunning S.meaning config.old }
    ensures { GoesOn S.meaning frame config.old config.new result (λ t env.
        native_line (Native.Math MathNative.Max) false Undefined (map (value_in t) args.now) env) }
{
    match greatest_of(args) {
        None => throw(config, frame, Trouble::OutOfRange),
        Some(number) => give(config, frame, Value::Number(number)),
    }
}

/// The greatest of the numbers; None where none is given.
fn greatest_of(args: &[Value]) -> Option<Whole>
    ensures { (t : Table) (env : Env) → MatchOption result
        (native_line (Native.Math MathNative.Max) false Undefined (map (value_in t) args.now) env ≡ errors.throw Trouble.OutOfRange env)
        (λ number. native_line (Native.Math MathNative.Max) false Undefined (map (value_in t) args.now) env ≡ line.give (Number number.number)) }
{
    match args.split_first() {
        None => None,
        Some((first, others)) => Some(greatest(*first, others)),
    }
}

/// The least of the numbers (section 15.8.2.12).
pub(crate) fn min<S: WorldStore>(
    config: &mut Config<S>,
    frame: Frame,
    args: &[Value],
) -> Result<(), OutOfMemory>
    requires running { IsRunning S.meaning config.old }
    ensures { GoesOn S.meaning frame config.old config.new result (λ t env.
        native_line (Native.Math MathNative.Min) false Undefined (map (value_in t) args.now) env) }
{
    match least_of(args) {
        None => throw(config, frame, Trouble::OutOfRange),
        Some(number) => give(config, frame, Value::Number(number)),
    }
}

/// The least of the numbers; None where none is given.
fn least_of(args: &[Value]) -> Option<Whole>
    ensures { (t : Table) (env : Env) → MatchOption result
        (native_line (Native.Math MathNative.Min) false Undefined (map (value_in t) args.now) env ≡ errors.throw Trouble.OutOfRange env)
        (λ number. native_line (Native.Math MathNative.Min) false Undefined (map (value_in t) args.now) env ≡ line.give (Number number.number)) }
{
    match args.split_first() {
        None => None,
        Some((first, others)) => Some(least(*first, others)),
    }
}

/// A power (section 15.8.2.13).
pub(crate) fn power<S: WorldStore>(
    config: &mut Config<S>,
    frame: Frame,
    args: &[Value],
) -> Result<(), OutOfMemory>
    requires running { IsRunning S.meaning config.old }
    ensures { GoesOn S.meaning frame config.old config.new result (λ t env.
        native_line (Native.Math MathNative.Pow) false Undefined (map (value_in t) args.now) env) }
{
    let outcome = power_of(args);
    give_result(config, frame, outcome)
}

/// What `pow` comes to.
fn power_of(args: &[Value]) -> Result<Whole, NumFault>
    ensures { (t : Table) (env : Env) →
        native_line (Native.Math MathNative.Pow) false Undefined (map (value_in t) args.now) env ≡ errors.give_result (answer result) env }
{
    pow(whole_at(args, 0), whole_at(args, 1))
}

/// The number that a function of Math gives; None where it throws.
pub(crate) fn number_given(native: MathNative, args: &[Value]) -> Option<Whole>
    ensures { IfSome result (λ number. (t : Table) (this : NumberedValue) (env : Env) →
        native_line (Native.Math native) false (value_in t this) (map (value_in t) args.now) env ≡ line.give (Number number.number)) }
{
    match native {
        MathNative::Abs => Some(absolute(whole_at(args, 0))),
        MathNative::Floor | MathNative::Ceil | MathNative::Round => Some(whole_at(args, 0)),
        MathNative::Max => greatest_of(args),
        MathNative::Min => least_of(args),
        MathNative::Pow => power_of(args).ok(),
    }
}
