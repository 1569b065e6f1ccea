//! Which native function runs, after its conversions.
ghost use Rattle.std.specs.Prelude.{◌≡◌, All, Bool, List, map, true};
ghost use Rattle.wjs_base.specs.declared.values.Value.{Value as NumberedValue};
ghost use Rattle.wjs_by_content.specs.Tables.{value_in};
ghost use Rattle.wjs_meaning.specs.Natives.{native_line, native_run};
ghost use Rattle.wjs_model.specs.Soundness.{HasValue};
ghost use Rattle.wjs_natives.specs.Cores.{is_core};
ghost use Rattle.wjs_frames.specs.Handling.{Runs, GoesOn};

use crate::applies::apply;
use crate::arrays::{give_is_array, new_array};
use crate::errors::{give_error_text, new_error};
use crate::functions::{call_on, give_source};
use crate::objects::{as_object, give_class, has_own, is_prototype_of, new_object};
use crate::worlds::{commit_to_parent, give_child};
use wjs_arena::{ArrayNative, ErrorNative, FunctionNative, Native, ObjectNative, WorldNative};
use wjs_base::{OutOfMemory, Value};
use wjs_frames::finish;
use wjs_meaning::Builtin;
use wjs_model::{Completion, Config, Frame, Trouble};
use wjs_natives::value_at;
use wjs_step_common::{give, throw};
use wjs_store::WorldStore;

/// Runs a native function on converted values, its receiver first. None of these asks whether `new` calls it.
pub(crate) fn run<S: WorldStore>(
    config: &mut Config<S>,
    frame: Frame,
    native: Native,
    values: &[Value],
) -> Result<(), OutOfMemory>
    requires runs { Runs S.meaning config.old frame }
    requires core { is_core native ≡ true }
    requires values { All (HasValue config.old) values.now }
    ensures { (by_new : Bool) → GoesOn S.meaning frame config.old config.new result (λ t env. native_run native by_new (map (value_in t) values.now) env) }
{
    match values.split_first() {
        None => finish(config, frame, Completion::Normal),
        Some((this, args)) => run_line(config, frame, native, *this, args),
    }
}

/// Runs a native function on its receiver and arguments.
fn run_line<S: WorldStore>(
    config: &mut Config<S>,
    frame: Frame,
    native: Native,
    this: Value,
    args: &[Value],
) -> Result<(), OutOfMemory>
    requires runs { Runs S.meaning config.old frame }
    requires core { is_core native ≡ true }
    requires this { HasValue config.old this }
    requires args { All (HasValue config.old) args.now }
    ensures { (by_new : Bool) → GoesOn S.meaning frame config.old config.new result (λ t env.
        native_line native by_new (value_in t this) (map (value_in t) args.now) env) }
{
    match native {
        Native::Object(native) => run_object(config, frame, native, this, args),
        Native::Function(native) => run_function(config, frame, native, this, args),
        Native::Error(native) => run_error(config, frame, native, this, args),
        Native::World(native) => run_world(config, frame, native, this),
        Native::Array(native) => run_array(config, frame, native, args),
        Native::Global(_)
        | Native::String(_)
        | Native::Number(_)
        | Native::Boolean(_)
        | Native::Math(_) => unreachable!(),
    }
}

/// Those of Object.
fn run_object<S: WorldStore>(
    config: &mut Config<S>,
    frame: Frame,
    native: ObjectNative,
    this: Value,
    args: &[Value],
) -> Result<(), OutOfMemory>
    requires runs { Runs S.meaning config.old frame }
    requires this { HasValue config.old this }
    requires args { All (HasValue config.old) args.now }
    ensures { (by_new : Bool) → GoesOn S.meaning frame config.old config.new result (λ t env.
        native_line (Native.Object native) by_new (value_in t this) (map (value_in t) args.now) env) }
{
    match native {
        ObjectNative::Constructor => new_object(config, frame, value_at(args, 0)),
        ObjectNative::ToString => give_class(config, frame, this),
        ObjectNative::ValueOf => as_object(config, frame, this),
        ObjectNative::HasOwnProperty => has_own(config, frame, false, this, args),
        ObjectNative::PropertyIsEnumerable => has_own(config, frame, true, this, args),
        ObjectNative::IsPrototypeOf => is_prototype_of(config, frame, this, value_at(args, 0)),
    }
}

/// Those of Function.
fn run_function<S: WorldStore>(
    config: &mut Config<S>,
    frame: Frame,
    native: FunctionNative,
    this: Value,
    args: &[Value],
) -> Result<(), OutOfMemory>
    requires runs { Runs S.meaning config.old frame }
    requires this { HasValue config.old this }
    requires args { All (HasValue config.old) args.now }
    ensures { (by_new : Bool) → GoesOn S.meaning frame config.old config.new result (λ t env.
        native_line (Native.Function native) by_new (value_in t this) (map (value_in t) args.now) env) }
{
    match native {
        FunctionNative::Constructor => throw(config, frame, Trouble::NoCodeFromText),
        FunctionNative::Prototype => give(config, frame, Value::Undefined),
        FunctionNative::ToString => give_source(config, frame, this),
        FunctionNative::Call => call_on(config, frame, this, args),
        FunctionNative::Apply => apply(config, frame, this, args),
    }
}

/// Those of the errors.
fn run_error<S: WorldStore>(
    config: &mut Config<S>,
    frame: Frame,
    native: ErrorNative,
    this: Value,
    args: &[Value],
) -> Result<(), OutOfMemory>
    requires runs { Runs S.meaning config.old frame }
    requires this { HasValue config.old this }
    requires args { All (HasValue config.old) args.now }
    ensures { (by_new : Bool) → GoesOn S.meaning frame config.old config.new result (λ t env.
        native_line (Native.Error native) by_new (value_in t this) (map (value_in t) args.now) env) }
{
    let message = value_at(args, 0);
    match native {
        ErrorNative::Error => new_error(config, frame, Builtin::ErrorPrototype, message),
        ErrorNative::TypeError => new_error(config, frame, Builtin::TypeErrorPrototype, message),
        ErrorNative::RangeError => new_error(config, frame, Builtin::RangeErrorPrototype, message),
        ErrorNative::ReferenceError => new_error(
            config,
            frame,
            Builtin::ReferenceErrorPrototype,
            message,
        ),
        ErrorNative::ToString => give_error_text(config, frame, this),
    }
}

/// Those of World, which take no argument.
fn run_world<S: WorldStore>(
    config: &mut Config<S>,
    frame: Frame,
    native: WorldNative,
    this: Value,
) -> Result<(), OutOfMemory>
    requires runs { Runs S.meaning config.old frame }
    requires this { HasValue config.old this }
    ensures { (by_new : Bool) (args : List NumberedValue) → GoesOn S.meaning frame config.old config.new result (λ t env.
        native_line (Native.World native) by_new (value_in t this) (map (value_in t) args) env) }
{
    match native {
        WorldNative::Constructor => throw(config, frame, Trouble::NotAConstructor),
        WorldNative::Sprout => give_child(config, frame, false, this),
        WorldNative::SproutStrict => give_child(config, frame, true, this),
        WorldNative::Commit => commit_to_parent(config, frame, this),
    }
}

/// Those of Array, which take no receiver.
fn run_array<S: WorldStore>(
    config: &mut Config<S>,
    frame: Frame,
    native: ArrayNative,
    args: &[Value],
) -> Result<(), OutOfMemory>
    requires runs { Runs S.meaning config.old frame }
    requires args { All (HasValue config.old) args.now }
    ensures { (by_new : Bool) (this : NumberedValue) → GoesOn S.meaning frame config.old config.new result (λ t env.
        native_line (Native.Array native) by_new (value_in t this) (map (value_in t) args.now) env) }
{
    match native {
        ArrayNative::Constructor => new_array(config, frame, args),
        ArrayNative::IsArray => give_is_array(config, frame, value_at(args, 0)),
    }
}
