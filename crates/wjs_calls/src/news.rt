//! `new` (ECMA-262, 3rd edition, sections 11.2.2 and 13.2.2).
ghost use Rattle.std.specs.Prelude.{◌≡◌};
ghost use Rattle.wjs_by_content.specs.Names.{prototype_name};
ghost use Rattle.wjs_by_content.specs.Tables.{value_in, arena_in};
ghost use Rattle.wjs_by_content.specs.Objects.{object_at};
ghost use Rattle.wjs_meaning.specs.Properties.{get_value};
ghost use Rattle.wjs_meaning.specs.Constructions as line;
ghost use Rattle.wjs_model.specs.Contents.{holding_in};
ghost use Rattle.wjs_model.specs.Soundness.{HasObject, HasValue};
ghost use Rattle.wjs_frames.specs.Handling.{Runs, GoesOn};

use crate::calls::call_below;
use crate::enters::enter_constructor;
use wjs_arena::{Class, Code, Native};
use wjs_base::{ObjId, OutOfMemory, Value};
use wjs_frames::hold;
use wjs_heap_steps::{Known, builtin, code_of, create, function_of, get_known, object_of};
use wjs_meaning::{Builtin, row_of};
use wjs_model::{Config, ExprPoint, Frame, Held, Point, Trouble};
use wjs_step_common::throw;
use wjs_store::WorldStore;

/// The frame of a `new` makes an object and calls a function on it, with the values that the frame holds as the arguments. A
/// native function is entered in the frame's place; what makes no objects is thrown as an error.
pub fn construct<S: WorldStore>(
    config: &mut Config<S>,
    frame: Frame,
    callee: Value,
) -> Result<(), OutOfMemory>
    requires runs { Runs S.meaning config.old frame }
    requires callee { HasValue config.old callee }
    ensures { GoesOn S.meaning frame config.old config.new result (λ t env. line.construct (value_in t callee) env (holding_in t frame.held).values) }
{
    match function_of(config, callee) {
        None => throw(config, frame, Trouble::NotAConstructor),
        Some(function) => construct_function(config, frame, function),
    }
}

fn construct_function<S: WorldStore>(
    config: &mut Config<S>,
    frame: Frame,
    function: ObjId,
) -> Result<(), OutOfMemory>
    requires runs { Runs S.meaning config.old frame }
    requires function { HasObject config.old function }
    ensures { GoesOn S.meaning frame config.old config.new result (λ t env.
        line.new_code (object_at (arena_in t config.old.heap.arena) function).code function (holding_in t frame.held).values env) }
{
    match code_of(config, function) {
        Code::None => throw(config, frame, Trouble::NotAConstructor),
        Code::Script { .. } => construct_script(config, frame, function),
        Code::Native(native) => construct_native(config, frame, native),
    }
}

fn construct_native<S: WorldStore>(
    config: &mut Config<S>,
    frame: Frame,
    native: Native,
) -> Result<(), OutOfMemory>
    requires runs { Runs S.meaning config.old frame }
    ensures { (function : ObjId) → GoesOn S.meaning frame config.old config.new result (λ t env.
        line.new_code (Code.Native native) function (holding_in t frame.held).values env) }
{
    if is_constructor(native) {
        enter_constructor(config, frame, native)
    } else {
        throw(config, frame, Trouble::NotAConstructor)
    }
}

/// The object is made on the function's `prototype`, where that is an object.
fn construct_script<S: WorldStore>(
    config: &mut Config<S>,
    frame: Frame,
    function: ObjId,
) -> Result<(), OutOfMemory>
    requires runs { Runs S.meaning config.old frame }
    requires function { HasObject config.old function }
    ensures { GoesOn S.meaning frame config.old config.new result (λ t env.
        get_value function prototype_name env (line.new_prototype function (holding_in t frame.held).values env)) }
{
    let found = get_known(config, &frame, function, Known::Prototype)?;
    match found {
        Value::Object(prototype) => construct_on(config, frame, function, prototype),
        _ => {
            let prototype = builtin(config, Builtin::ObjectPrototype);
            construct_on(config, frame, function, prototype)
        }
    }
}

/// The frame waits for the call, and holds the new object alone.
fn construct_on<S: WorldStore>(
    config: &mut Config<S>,
    frame: Frame,
    function: ObjId,
    prototype: ObjId,
) -> Result<(), OutOfMemory>
    requires runs { Runs S.meaning config.old frame }
    requires function { HasObject config.old function }
    requires prototype { HasObject config.old prototype }
    ensures { GoesOn S.meaning frame config.old config.new result (λ t env. line.new_on prototype function (holding_in t frame.held).values env) }
{
    let alloc = config.heap.arena.allocator();
    let object = create(config, object_of(alloc, Class::Plain, Some(prototype)))?;
    let mut frame = frame;
    let arguments = frame.replace_held(config.frames.nothing_held());
    hold(&mut frame, Held::Value(Value::Object(object)))?;
    call_below(
        config,
        frame,
        Point::Expr(ExprPoint::NewCall),
        function,
        Value::Object(object),
        arguments,
    )
}

/// Whether `new` takes a native function.
fn is_constructor(native: Native) -> bool
    ensures { result ≡ line.is_constructor native }
{
    row_of(native).prototype.is_some()
}
