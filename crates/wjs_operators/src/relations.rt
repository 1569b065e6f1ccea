//! `in` and `instanceof` (ECMA-262, 3rd edition, sections 11.8.6, 11.8.7 and 15.3.5.3).
ghost use Rattle.std.specs.Prelude.{◌≡◌, false, Some};
ghost use Rattle.wjs_by_content.specs.Names.{prototype_name};
ghost use Rattle.wjs_by_content.specs.Objects.{is_past};
ghost use Rattle.wjs_meaning.specs.Properties.{get_value};
ghost use Rattle.wjs_by_content.specs.Tables.{value_in, text_in, name_in};
ghost use Rattle.wjs_meaning.specs.Operators as line;
ghost use Rattle.wjs_model.specs.Waiting.{in_right};
ghost use Rattle.wjs_model.specs.Contents.{value_held};
ghost use Rattle.wjs_model.specs.Soundness.{HasObject, HasName, HasValue};
ghost use Rattle.wjs_base.specs.Text.{Table, Has};
ghost use Rattle.wjs_by_content.specs.Conversions.{is_object, primitive_text};
ghost use Rattle.wjs_meaning.specs.Conversions.{to_text};
ghost use Rattle.wjs_meaning.specs.Deeds.{Do, Look, Sub, Gives, then_text};
ghost use Rattle.wjs_frames.specs.Handling.{Runs, GoesOn};

use wjs_base::{Name, ObjId, OutOfMemory, TextId, Value};
use wjs_frames::{convert, finish, hold};
use wjs_heap_steps::{Known, function_of, get_known, has, is_past, name_of};
use wjs_model::{Completion, Config, Conversion, ExprPoint, Frame, Held, Point, Trouble};
use wjs_step_common::{held_value, is_object, name_of_value, throw};
use wjs_store::WorldStore;
use wjs_tree::BinaryOperator;

/// `in`: the right side must be an object.
pub(crate) fn in_values<S: WorldStore>(
    config: &mut Config<S>,
    frame: Frame,
    left: Value,
    right: Value,
) -> Result<(), OutOfMemory>
    requires runs { Runs S.meaning config.old frame }
    requires left { HasValue config.old left }
    requires right { HasValue config.old right }
    ensures { GoesOn S.meaning frame config.old config.new result (λ t env. line.in_values (value_in t left) (value_in t right) env) }
{
    match right {
        Value::Object(object) => in_object(config, frame, left, object),
        _ => throw(config, frame, Trouble::BadRightOperand),
    }
}

/// A name's text is made of the left value.
fn in_object<S: WorldStore>(
    config: &mut Config<S>,
    frame: Frame,
    left: Value,
    object: ObjId,
) -> Result<(), OutOfMemory>
    requires runs { Runs S.meaning config.old frame }
    requires left { HasValue config.old left }
    requires object { HasObject config.old object }
    ensures { GoesOn S.meaning frame config.old config.new result (λ t env. Sub (to_text (value_in t left) env) (then_text (line.in_name object env))) }
{
    if is_object(left) {
        in_converted(config, frame, left, object)
    } else {
        in_primitive(config, frame, left, object)
    }
}

/// The left value is converted, and the object is held.
fn in_converted<S: WorldStore>(
    config: &mut Config<S>,
    frame: Frame,
    left: Value,
    object: ObjId,
) -> Result<(), OutOfMemory>
    requires runs { Runs S.meaning config.old frame }
    requires left { HasValue config.old left }
    requires object { HasObject config.old object }
    ensures { GoesOn S.meaning frame config.old config.new result (λ t env. Sub (to_text (value_in t left) env) (then_text (line.in_name object env))) }
{
    let mut frame = frame;
    hold(&mut frame, Held::Value(Value::Object(object)))?;
    let point = Point::Expr(ExprPoint::OperandFirst(BinaryOperator::In));
    convert(config, frame, point, Conversion::Text, left)
}

/// A primitive's text is the name.
fn in_primitive<S: WorldStore>(
    config: &mut Config<S>,
    frame: Frame,
    left: Value,
    object: ObjId,
) -> Result<(), OutOfMemory>
    requires runs { Runs S.meaning config.old frame }
    requires left { HasValue config.old left }
    requires primitive { (t : Table) → is_object (value_in t left) ≡ false }
    requires object { HasObject config.old object }
    ensures { GoesOn S.meaning frame config.old config.new result (λ t env. line.in_name object env (primitive_text (value_in t left))) }
{
    let name = name_of_value(config, left)?;
    in_name(config, frame, object, name)
}

/// Whether the object has the name.
fn in_name<S: WorldStore>(
    config: &mut Config<S>,
    frame: Frame,
    object: ObjId,
    name: Name,
) -> Result<(), OutOfMemory>
    requires runs { Runs S.meaning config.old frame }
    requires object { HasObject config.old object }
    requires name { HasName config.old name }
    ensures { GoesOn S.meaning frame config.old config.new result (λ t env. line.in_name object env (name_in t name)) }
{
    let found = has(config, &frame, object, name)?;
    finish(config, frame, Completion::Gives(Value::Bool(found)))
}

/// After the conversion of the left value, which is a text.
pub(crate) fn in_left<S: WorldStore>(
    config: &mut Config<S>,
    frame: Frame,
    value: Value,
) -> Result<(), OutOfMemory>
    requires runs { Runs S.meaning config.old frame }
    requires value { HasValue config.old value }
    ensures { GoesOn S.meaning frame config.old config.new result (λ t env.
        then_text (in_right (value_in t (value_held frame.held)) env) (Gives (value_in t value))) }
{
    match value {
        Value::Text(text) => in_after(config, frame, text),
        _ => finish(config, frame, Completion::Gives(value)),
    }
}

/// After the text of the left value: the right one is held.
fn in_after<S: WorldStore>(
    config: &mut Config<S>,
    frame: Frame,
    text: TextId,
) -> Result<(), OutOfMemory>
    requires runs { Runs S.meaning config.old frame }
    requires text { Has config.old.heap.texts text }
    ensures { GoesOn S.meaning frame config.old config.new result (λ t env. in_right (value_in t (value_held frame.held)) env (text_in t text)) }
{
    match held_value(config, &frame) {
        Value::Object(object) => in_text(config, frame, object, text),
        _ => finish(config, frame, Completion::Normal),
    }
}

/// Whether the object has the name that a text is.
fn in_text<S: WorldStore>(
    config: &mut Config<S>,
    frame: Frame,
    object: ObjId,
    text: TextId,
) -> Result<(), OutOfMemory>
    requires runs { Runs S.meaning config.old frame }
    requires object { HasObject config.old object }
    requires text { Has config.old.heap.texts text }
    ensures { GoesOn S.meaning frame config.old config.new result (λ t env. line.in_name object env (text_in t text)) }
{
    let name = name_of(config, text);
    in_name(config, frame, object, name)
}

/// `instanceof`: the right side must be a function.
pub(crate) fn instance_values<S: WorldStore>(
    config: &mut Config<S>,
    frame: Frame,
    left: Value,
    right: Value,
) -> Result<(), OutOfMemory>
    requires runs { Runs S.meaning config.old frame }
    requires left { HasValue config.old left }
    requires right { HasValue config.old right }
    ensures { GoesOn S.meaning frame config.old config.new result (λ t env. line.instance_values (value_in t left) (value_in t right) env) }
{
    match function_of(config, right) {
        Some(function) => instance_function(config, frame, left, function),
        None => throw(config, frame, Trouble::BadRightOperand),
    }
}

/// A primitive is no instance; an object is one of the function whose `prototype` it has among its prototypes.
fn instance_function<S: WorldStore>(
    config: &mut Config<S>,
    frame: Frame,
    left: Value,
    function: ObjId,
) -> Result<(), OutOfMemory>
    requires runs { Runs S.meaning config.old frame }
    requires left { HasValue config.old left }
    requires function { HasObject config.old function }
    ensures { GoesOn S.meaning frame config.old config.new result (λ t env. line.instance_function (value_in t left) (Some function) env) }
{
    match left {
        Value::Object(object) => instance_object(config, frame, object, function),
        _ => finish(config, frame, Completion::Gives(Value::Bool(false))),
    }
}

/// The function's `prototype` is got.
fn instance_object<S: WorldStore>(
    config: &mut Config<S>,
    frame: Frame,
    object: ObjId,
    function: ObjId,
) -> Result<(), OutOfMemory>
    requires runs { Runs S.meaning config.old frame }
    requires object { HasObject config.old object }
    requires function { HasObject config.old function }
    ensures { GoesOn S.meaning frame config.old config.new result (λ t env. get_value function prototype_name env (line.instance_prototype object env)) }
{
    let prototype = get_known(config, &frame, function, Known::Prototype)?;
    instance_prototype(config, frame, object, prototype)
}

/// Whether the function's `prototype` is among the object's prototypes.
fn instance_prototype<S: WorldStore>(
    config: &mut Config<S>,
    frame: Frame,
    object: ObjId,
    prototype: Value,
) -> Result<(), OutOfMemory>
    requires runs { Runs S.meaning config.old frame }
    requires object { HasObject config.old object }
    requires prototype { HasValue config.old prototype }
    ensures { GoesOn S.meaning frame config.old config.new result (λ t env. line.instance_prototype object env (value_in t prototype)) }
{
    match prototype {
        Value::Object(prototype) => instance_told(config, frame, object, prototype),
        _ => throw(config, frame, Trouble::BadRightOperand),
    }
}

/// Whether an object is among another's prototypes.
fn instance_told<S: WorldStore>(
    config: &mut Config<S>,
    frame: Frame,
    object: ObjId,
    prototype: ObjId,
) -> Result<(), OutOfMemory>
    requires runs { Runs S.meaning config.old frame }
    requires object { HasObject config.old object }
    requires prototype { HasObject config.old prototype }
    ensures { GoesOn S.meaning frame config.old config.new result (λ t env. Do Look (λ arena. line.give_truth (is_past arena prototype object))) }
{
    let past = is_past(config, prototype, object);
    finish(config, frame, Completion::Gives(Value::Bool(past)))
}
