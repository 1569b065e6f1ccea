//! The global functions (ECMA-262, 3rd edition, section 15.1.2).
ghost use Rattle.std.specs.Prelude.{◌≡◌, IfSome, All, map, false};
ghost use Rattle.wjs_base.specs.Text.{Table};
ghost use Rattle.wjs_base.specs.declared.values.Value.{Value as NumberedValue};
ghost use Rattle.wjs_by_content.specs.Tables.{value_in};
ghost use Rattle.wjs_by_content.specs.Values.{Boolean};
ghost use Rattle.wjs_num.specs.Bits.{int32};
ghost use Rattle.wjs_num.specs.Exact.{answer};
ghost use Rattle.wjs_num.specs.Numerals.{integer_of_text};
ghost use Rattle.wjs_meaning.specs.Deeds as line;
ghost use Rattle.wjs_meaning.specs.Deeds.{Env};
ghost use Rattle.wjs_meaning.specs.Natives.{native_line};
ghost use Rattle.wjs_model.specs.Soundness.{HasValue};
ghost use Rattle.wjs_frames.specs.Handling.{IsRunning, GoesOn};

use wjs_arena::{GlobalNative, Native};
use wjs_base::{OutOfMemory, Value, Whole};
use wjs_heap_steps::emit;
use wjs_model::{Config, Frame};
use wjs_natives::{text_at, whole_at};
use wjs_num::{NumFault, to_int32};
use wjs_step_common::{give, give_result};
use wjs_store::WorldStore;
use wjs_strings::line_of;

/// Writes a text and the end of its line.
pub(crate) fn print<S: WorldStore>(
    config: &mut Config<S>,
    frame: Frame,
    this: Value,
    args: &[Value],
) -> Result<(), OutOfMemory>
    requires running { IsRunning S.meaning config.old }
    requires args { All (HasValue config.old) args.now }
    ensures { GoesOn S.meaning frame config.old config.new result (λ t env.
        native_line (Native.Global GlobalNative.Print) false (value_in t this) (map (value_in t) args.now) env) }
{
    let alloc = config.heap.arena.allocator();
    let bytes = line_of(alloc, text_at(config, args, 0))?;
    emit(config, bytes.as_slice())?;
    give(config, frame, Value::Undefined)
}

/// The integer at the front of a text (section 15.1.2.2).
pub(crate) fn parse_int<S: WorldStore>(
    config: &mut Config<S>,
    frame: Frame,
    this: Value,
    args: &[Value],
) -> Result<(), OutOfMemory>
    requires running { IsRunning S.meaning config.old }
    requires args { All (HasValue config.old) args.now }
    ensures { GoesOn S.meaning frame config.old config.new result (λ t env.
        native_line (Native.Global GlobalNative.ParseInt) false (value_in t this) (map (value_in t) args.now) env) }
{
    let outcome = integer_of(text_at(config, args, 0), whole_at(args, 1));
    give_result(config, frame, outcome)
}

/// The integer at the front of a text, whose digits are of a radix.
fn integer_of(text: &[u16], radix: Whole) -> Result<Whole, NumFault>
    ensures { answer result ≡ integer_of_text text.now (int32 radix.number) }
{
    wjs_num::parse_int(text, to_int32(radix))
}

/// Whether a number is NaN (section 15.1.2.4).
pub(crate) fn is_nan<S: WorldStore>(
    config: &mut Config<S>,
    frame: Frame,
    this: Value,
    args: &[Value],
) -> Result<(), OutOfMemory>
    requires running { IsRunning S.meaning config.old }
    ensures { GoesOn S.meaning frame config.old config.new result (λ t env.
        native_line (Native.Global GlobalNative.IsNaN) false (value_in t this) (map (value_in t) args.now) env) }
{
    let answer = nan_given(args);
    give(config, frame, Value::Bool(answer))
}

/// What a global function gives, where that is told at once.
pub(crate) fn truth_given(native: GlobalNative, args: &[Value]) -> Option<bool>
    ensures { IfSome result (λ truth. (t : Table) (this : NumberedValue) (env : Env) →
        native_line (Native.Global native) false (value_in t this) (map (value_in t) args.now) env ≡ line.give (Boolean truth)) }
{
    match native {
        GlobalNative::IsNaN => Some(nan_given(args)),
        GlobalNative::Print | GlobalNative::ParseInt => None,
    }
}

/// What `isNaN` gives.
fn nan_given(args: &[Value]) -> bool
    ensures { (t : Table) (this : NumberedValue) (env : Env) →
        native_line (Native.Global GlobalNative.IsNaN) false (value_in t this) (map (value_in t) args.now) env ≡ line.give (Boolean result) }
{
    whole_at(args, 0).get().is_none()
}
