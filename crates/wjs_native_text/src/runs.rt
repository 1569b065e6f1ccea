//! Which native function runs, after its conversions.
ghost use Rattle.std.specs.Prelude.{◌≡◌, All, Bool, map, false};
ghost use Rattle.wjs_base.specs.declared.values.Value.{Value as NumberedValue};
ghost use Rattle.wjs_by_content.specs.Tables.{value_in};
ghost use Rattle.wjs_meaning.specs.Natives.{native_line, native_run};
ghost use Rattle.wjs_model.specs.Soundness.{HasValue};
ghost use Rattle.wjs_natives.specs.Cores.{is_core};
ghost use Rattle.wjs_frames.specs.Handling.{Runs, GoesOn};

use crate::globals::{is_nan, parse_int, print};
use crate::glue::glue;
use crate::math::{abs, max, min, power, whole};
use crate::numbers::{new_boolean, new_number, number_text};
use crate::places::{char_at, char_code_at, give_slice, give_substring, index_of, last_index_of};
use crate::receivers::{own_number, own_text, own_truth, truth_text};
use crate::splits::give_parts;
use crate::strings::{concat, from_char_code, new_string};
use wjs_arena::{BooleanNative, GlobalNative, MathNative, Native, NumberNative, StringNative};
use wjs_base::{OutOfMemory, Value};
use wjs_frames::finish;
use wjs_model::{Completion, Config, Frame};
use wjs_store::WorldStore;

/// Runs a native function on converted values, its receiver first.
pub(crate) fn run<S: WorldStore>(
    config: &mut Config<S>,
    frame: Frame,
    native: Native,
    by_new: bool,
    values: &[Value],
) -> Result<(), OutOfMemory>
    requires runs { Runs S.meaning config.old frame }
    requires core { is_core native ≡ false }
    requires values { All (HasValue config.old) values.now }
    ensures { GoesOn S.meaning frame config.old config.new result (λ t env. native_run native by_new (map (value_in t) values.now) env) }
{
    match values.split_first() {
        None => finish(config, frame, Completion::Normal),
        Some((this, args)) => run_line(config, frame, native, by_new, *this, args),
    }
}

/// Runs a native function on its receiver and arguments.
fn run_line<S: WorldStore>(
    config: &mut Config<S>,
    frame: Frame,
    native: Native,
    by_new: bool,
    this: Value,
    args: &[Value],
) -> Result<(), OutOfMemory>
    requires runs { Runs S.meaning config.old frame }
    requires core { is_core native ≡ false }
    requires this { HasValue config.old this }
    requires args { All (HasValue config.old) args.now }
    ensures { GoesOn S.meaning frame config.old config.new result (λ t env.
        native_line native by_new (value_in t this) (map (value_in t) args.now) env) }
{
    match native {
        Native::Global(native) => run_global(config, frame, native, this, args),
        Native::String(native) => run_string(config, frame, native, by_new, this, args),
        Native::Number(native) => run_number(config, frame, native, by_new, this, args),
        Native::Boolean(native) => run_boolean(config, frame, native, by_new, this, args),
        Native::Math(native) => run_math(config, frame, native, args),
        Native::Object(_)
        | Native::Function(_)
        | Native::Error(_)
        | Native::World(_)
        | Native::Array(_) => unreachable!(),
    }
}

/// Those of the global object.
fn run_global<S: WorldStore>(
    config: &mut Config<S>,
    frame: Frame,
    native: GlobalNative,
    this: Value,
    args: &[Value],
) -> Result<(), OutOfMemory>
    requires runs { Runs S.meaning config.old frame }
    requires this { HasValue config.old this }
    requires args { All (HasValue config.old) args.now }
    ensures { (by_new : Bool) → GoesOn S.meaning frame config.old config.new result (λ t env.
        native_line (Native.Global native) by_new (value_in t this) (map (value_in t) args.now) env) }
{
    match native {
        GlobalNative::Print => print(config, frame, this, args),
        GlobalNative::ParseInt => parse_int(config, frame, this, args),
        GlobalNative::IsNaN => is_nan(config, frame, this, args),
    }
}

/// Those of String.
fn run_string<S: WorldStore>(
    config: &mut Config<S>,
    frame: Frame,
    native: StringNative,
    by_new: bool,
    this: Value,
    args: &[Value],
) -> Result<(), OutOfMemory>
    requires runs { Runs S.meaning config.old frame }
    requires this { HasValue config.old this }
    requires args { All (HasValue config.old) args.now }
    ensures { GoesOn S.meaning frame config.old config.new result (λ t env.
        native_line (Native.String native) by_new (value_in t this) (map (value_in t) args.now) env) }
{
    match native {
        StringNative::Constructor => new_string(config, frame, by_new, args),
        StringNative::FromCharCode => from_char_code(config, frame, args),
        StringNative::Glue => glue(config, frame, args),
        StringNative::ToString | StringNative::ValueOf => own_text(config, frame, this),
        StringNative::CharAt => char_at(config, frame, this, args),
        StringNative::CharCodeAt => char_code_at(config, frame, this, args),
        StringNative::Concat => concat(config, frame, this, args),
        StringNative::IndexOf => index_of(config, frame, this, args),
        StringNative::LastIndexOf => last_index_of(config, frame, this, args),
        StringNative::Substring => give_substring(config, frame, this, args),
        StringNative::Slice => give_slice(config, frame, this, args),
        StringNative::Split => give_parts(config, frame, this, args),
    }
}

/// Those of Number.
fn run_number<S: WorldStore>(
    config: &mut Config<S>,
    frame: Frame,
    native: NumberNative,
    by_new: bool,
    this: Value,
    args: &[Value],
) -> Result<(), OutOfMemory>
    requires runs { Runs S.meaning config.old frame }
    requires this { HasValue config.old this }
    requires args { All (HasValue config.old) args.now }
    ensures { GoesOn S.meaning frame config.old config.new result (λ t env.
        native_line (Native.Number native) by_new (value_in t this) (map (value_in t) args.now) env) }
{
    match native {
        NumberNative::Constructor => new_number(config, frame, by_new, args),
        NumberNative::ToString => number_text(config, frame, this, args),
        NumberNative::ValueOf => own_number(config, frame, this),
    }
}

/// Those of Boolean.
fn run_boolean<S: WorldStore>(
    config: &mut Config<S>,
    frame: Frame,
    native: BooleanNative,
    by_new: bool,
    this: Value,
    args: &[Value],
) -> Result<(), OutOfMemory>
    requires runs { Runs S.meaning config.old frame }
    requires this { HasValue config.old this }
    requires args { All (HasValue config.old) args.now }
    ensures { GoesOn S.meaning frame config.old config.new result (λ t env.
        native_line (Native.Boolean native) by_new (value_in t this) (map (value_in t) args.now) env) }
{
    match native {
        BooleanNative::Constructor => new_boolean(config, frame, by_new, args),
        BooleanNative::ToString => truth_text(config, frame, this),
        BooleanNative::ValueOf => own_truth(config, frame, this),
    }
}

/// Those of Math, which take no receiver.
fn run_math<S: WorldStore>(
    config: &mut Config<S>,
    frame: Frame,
    native: MathNative,
    args: &[Value],
) -> Result<(), OutOfMemory>
    requires runs { Runs S.meaning config.old frame }
    requires args { All (HasValue config.old) args.now }
    ensures { (by_new : Bool) (this : NumberedValue) → GoesOn S.meaning frame config.old config.new result (λ t env.
        native_line (Native.Math native) by_new (value_in t this) (map (value_in t) args.now) env) }
{
    match native {
        MathNative::Abs => abs(config, frame, args),
        MathNative::Floor | MathNative::Ceil | MathNative::Round => whole(config, frame, args),
        MathNative::Max => max(config, frame, args),
        MathNative::Min => min(config, frame, args),
        MathNative::Pow => power(config, frame, args),
    }
}
