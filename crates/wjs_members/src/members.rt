//! Members by name and by value (ECMA-262, 3rd edition, section 11.2.1), for their value and as targets.
ghost use Rattle.wjs_base.specs.Text.{Has};
ghost use Rattle.wjs_by_content.specs.Tables.{value_in, text_in, name_in};
ghost use Rattle.wjs_by_content.specs.Conversions.{primitive_text};
ghost use Rattle.wjs_meaning.specs.Conversions.{to_text};
ghost use Rattle.wjs_meaning.specs.Deeds as deed;
ghost use Rattle.wjs_meaning.specs.Deeds.{Eval, AtExpr, Sub, Gives, then_value, then_text};
ghost use Rattle.wjs_meaning.specs.Expressions as line;
ghost use Rattle.wjs_meaning.specs.Reading.{node_in, spelt_in};
ghost use Rattle.wjs_model.specs.Contents.{value_held};
ghost use Rattle.wjs_model.specs.Lists.{if_dot};
ghost use Rattle.wjs_model.specs.Texts.{KnowsSpelt};
ghost use Rattle.wjs_model.specs.Waiting.{taken};
ghost use Rattle.wjs_model.specs.Soundness.{HasName, HasValue, StandsHere};
ghost use Rattle.wjs_frames.specs.Parts.{node_now};
ghost use Rattle.wjs_frames.specs.Handling.{Runs, IsAt, GoesOn};

use crate::keys::spelt_name;
use wjs_base::{Name, OutOfMemory, TextId, Value};
use wjs_frames::{Part, convert, enter, finish, hold, node_of};
use wjs_heap_steps::name_of;
use wjs_model::{
    Completion, Config, Conversion, ExprPoint, Frame, Held, Point, Purpose, Reference, Trouble,
};
use wjs_quick::quick;
use wjs_step_common::{give_value_of, held_value, is_nullish, is_object, name_of_value, throw};
use wjs_store::WorldStore;
use wjs_tree::{Node, NodeId, Spelt};

/// A member by name: its base has its value at once, or is entered.
pub fn dot_start<S: WorldStore>(
    config: &mut Config<S>,
    frame: Frame,
    base: NodeId,
    name: Spelt,
    purpose: Purpose,
) -> Result<(), OutOfMemory>
    requires runs { Runs S.meaning config.old frame }
    requires node { IsAt S.meaning config.old frame (Node.Dot base name) }
    ensures { GoesOn S.meaning frame config.old config.new result (λ t env.
        Eval (AtExpr base.0) env (then_value (line.dot_base (spelt_in t name) env (taken purpose env)))) }
{
    match quick(config, &frame, Part::Expr(base)) {
        Some(value) => dot_named(config, frame, purpose, name, value),
        None => {
            let point = Point::Expr(ExprPoint::DotBase(purpose));
            enter(config, frame, point, Part::Expr(base))
        }
    }
}

/// A member by value: its base has its value at once, or is entered.
pub fn at_start<S: WorldStore>(
    config: &mut Config<S>,
    frame: Frame,
    base: NodeId,
    index: NodeId,
    purpose: Purpose,
) -> Result<(), OutOfMemory>
    requires runs { Runs S.meaning config.old frame }
    requires node { IsAt S.meaning config.old frame (Node.At base index) }
    ensures { GoesOn S.meaning frame config.old config.new result (λ t env.
        Eval (AtExpr base.0) env (then_value (line.at_base index.0 env (taken purpose env)))) }
{
    match quick(config, &frame, Part::Expr(base)) {
        Some(value) => at_base(config, frame, purpose, index, value),
        None => {
            let point = Point::Expr(ExprPoint::IndexBase(purpose, index));
            enter(config, frame, point, Part::Expr(base))
        }
    }
}

/// After the base of a member by value: the index has its value at once, or is entered with the base held.
pub fn at_base<S: WorldStore>(
    config: &mut Config<S>,
    frame: Frame,
    purpose: Purpose,
    index: NodeId,
    value: Value,
) -> Result<(), OutOfMemory>
    requires runs { Runs S.meaning config.old frame }
    requires index { StandsHere config.old frame index }
    requires value { HasValue config.old value }
    ensures { GoesOn S.meaning frame config.old config.new result (λ t env. line.at_base index.0 env (taken purpose env) (value_in t value)) }
{
    match quick(config, &frame, Part::Expr(index)) {
        Some(found) => at_both(config, frame, purpose, value, found),
        None => enter_index(config, frame, purpose, index, value),
    }
}

/// The base is held, and the index is entered.
fn enter_index<S: WorldStore>(
    config: &mut Config<S>,
    frame: Frame,
    purpose: Purpose,
    index: NodeId,
    base: Value,
) -> Result<(), OutOfMemory>
    requires runs { Runs S.meaning config.old frame }
    requires index { StandsHere config.old frame index }
    requires value { HasValue config.old base }
    ensures { GoesOn S.meaning frame config.old config.new result (λ t env.
        Eval (AtExpr index.0) env (then_value (line.at_index (value_in t base) env (taken purpose env)))) }
{
    let mut frame = frame;
    hold(&mut frame, Held::Value(base))?;
    let point = Point::Expr(ExprPoint::Index(purpose));
    enter(config, frame, point, Part::Expr(index))
}

/// After the base of a member by name, which the frame's node tells.
pub fn dot_base<S: WorldStore>(
    config: &mut Config<S>,
    frame: Frame,
    purpose: Purpose,
    base: Value,
) -> Result<(), OutOfMemory>
    requires runs { Runs S.meaning config.old frame }
    requires value { HasValue config.old base }
    ensures { GoesOn S.meaning frame config.old config.new result (λ t env.
        if_dot (node_in t (node_now S.meaning config.old frame)) (λ name. line.dot_base name env (taken purpose env) (value_in t base))) }
{
    match node_of(config, &frame) {
        Some(Node::Dot(_, name)) => {
            let name = *name;
            dot_named(config, frame, purpose, name, base)
        }
        _ => finish(config, frame, Completion::Normal),
    }
}

/// The member of a base by a name: undefined and null have no members.
fn dot_named<S: WorldStore>(
    config: &mut Config<S>,
    frame: Frame,
    purpose: Purpose,
    name: Spelt,
    base: Value,
) -> Result<(), OutOfMemory>
    requires runs { Runs S.meaning config.old frame }
    requires name { KnowsSpelt config.old.heap.texts name }
    requires value { HasValue config.old base }
    ensures { GoesOn S.meaning frame config.old config.new result (λ t env. line.dot_base (spelt_in t name) env (taken purpose env) (value_in t base)) }
{
    if is_nullish(base) {
        throw(config, frame, Trouble::NotAnObject)
    } else {
        dot_member(config, frame, purpose, name, base)
    }
}

/// The member of a base that is neither undefined nor null.
fn dot_member<S: WorldStore>(
    config: &mut Config<S>,
    frame: Frame,
    purpose: Purpose,
    spelt: Spelt,
    base: Value,
) -> Result<(), OutOfMemory>
    requires runs { Runs S.meaning config.old frame }
    requires name { KnowsSpelt config.old.heap.texts spelt }
    requires value { HasValue config.old base }
    ensures { GoesOn S.meaning frame config.old config.new result (λ t env. taken purpose env (deed.Member (value_in t base) (spelt_in t spelt))) }
{
    let name = spelt_name(config, spelt)?;
    take(config, frame, purpose, base, name)
}

/// Goes on with a member: an expression with its value, a target with the reference.
fn take<S: WorldStore>(
    config: &mut Config<S>,
    frame: Frame,
    purpose: Purpose,
    base: Value,
    name: Name,
) -> Result<(), OutOfMemory>
    requires runs { Runs S.meaning config.old frame }
    requires value { HasValue config.old base }
    requires name { HasName config.old name }
    ensures { GoesOn S.meaning frame config.old config.new result (λ t env. taken purpose env (deed.Member (value_in t base) (name_in t name))) }
{
    let reference = Reference::Member(base, name);
    match purpose {
        Purpose::Value => give_value_of(config, frame, reference),
        Purpose::Target => finish(config, frame, Completion::Refers(reference)),
    }
}

/// After the index of a member by value: the base is held.
pub fn at_index<S: WorldStore>(
    config: &mut Config<S>,
    frame: Frame,
    purpose: Purpose,
    value: Value,
) -> Result<(), OutOfMemory>
    requires runs { Runs S.meaning config.old frame }
    requires value { HasValue config.old value }
    ensures { GoesOn S.meaning frame config.old config.new result (λ t env.
        line.at_index (value_in t (value_held frame.held)) env (taken purpose env) (value_in t value)) }
{
    let base = held_value(config, &frame);
    at_both(config, frame, purpose, base, value)
}

/// The member of a base by a value: undefined and null have no members.
fn at_both<S: WorldStore>(
    config: &mut Config<S>,
    frame: Frame,
    purpose: Purpose,
    base: Value,
    index: Value,
) -> Result<(), OutOfMemory>
    requires runs { Runs S.meaning config.old frame }
    requires base { HasValue config.old base }
    requires index { HasValue config.old index }
    ensures { GoesOn S.meaning frame config.old config.new result (λ t env.
        line.at_index (value_in t base) env (taken purpose env) (value_in t index)) }
{
    if is_nullish(base) {
        throw(config, frame, Trouble::NotAnObject)
    } else {
        at_name(config, frame, purpose, base, index)
    }
}

/// The index is made a name.
fn at_name<S: WorldStore>(
    config: &mut Config<S>,
    frame: Frame,
    purpose: Purpose,
    base: Value,
    index: Value,
) -> Result<(), OutOfMemory>
    requires runs { Runs S.meaning config.old frame }
    requires base { HasValue config.old base }
    requires index { HasValue config.old index }
    ensures { GoesOn S.meaning frame config.old config.new result (λ t env.
        Sub (to_text (value_in t index) env) (then_text (line.at_name (value_in t base) (taken purpose env)))) }
{
    if is_object(index) {
        at_object(config, frame, purpose, base, index)
    } else {
        at_primitive(config, frame, purpose, base, index)
    }
}

/// The index is converted, and the base is held.
fn at_object<S: WorldStore>(
    config: &mut Config<S>,
    frame: Frame,
    purpose: Purpose,
    base: Value,
    index: Value,
) -> Result<(), OutOfMemory>
    requires runs { Runs S.meaning config.old frame }
    requires base { HasValue config.old base }
    requires index { HasValue config.old index }
    ensures { GoesOn S.meaning frame config.old config.new result (λ t env.
        Sub (to_text (value_in t index) env) (then_text (line.at_name (value_in t base) (taken purpose env)))) }
{
    let mut frame = frame;
    hold(&mut frame, Held::Value(base))?;
    let point = Point::Expr(ExprPoint::IndexName(purpose));
    convert(config, frame, point, Conversion::Text, index)
}

/// The text of a primitive is the name.
fn at_primitive<S: WorldStore>(
    config: &mut Config<S>,
    frame: Frame,
    purpose: Purpose,
    base: Value,
    index: Value,
) -> Result<(), OutOfMemory>
    requires runs { Runs S.meaning config.old frame }
    requires base { HasValue config.old base }
    requires index { HasValue config.old index }
    ensures { GoesOn S.meaning frame config.old config.new result (λ t env.
        line.at_name (value_in t base) (taken purpose env) (primitive_text (value_in t index))) }
{
    let name = name_of_value(config, index)?;
    take(config, frame, purpose, base, name)
}

/// The member of the base that is held.
fn take_held<S: WorldStore>(
    config: &mut Config<S>,
    frame: Frame,
    purpose: Purpose,
    name: Name,
) -> Result<(), OutOfMemory>
    requires runs { Runs S.meaning config.old frame }
    requires name { HasName config.old name }
    ensures { GoesOn S.meaning frame config.old config.new result (λ t env.
        line.at_name (value_in t (value_held frame.held)) (taken purpose env) (name_in t name)) }
{
    let base = held_value(config, &frame);
    take(config, frame, purpose, base, name)
}

/// After the conversion of the index, which is a text.
pub fn at_converted<S: WorldStore>(
    config: &mut Config<S>,
    frame: Frame,
    purpose: Purpose,
    value: Value,
) -> Result<(), OutOfMemory>
    requires runs { Runs S.meaning config.old frame }
    requires value { HasValue config.old value }
    ensures { GoesOn S.meaning frame config.old config.new result (λ t env.
        then_text (line.at_name (value_in t (value_held frame.held)) (taken purpose env)) (Gives (value_in t value))) }
{
    match value {
        Value::Text(text) => at_text(config, frame, purpose, text),
        _ => finish(config, frame, Completion::Gives(value)),
    }
}

/// The name that a text is.
fn at_text<S: WorldStore>(
    config: &mut Config<S>,
    frame: Frame,
    purpose: Purpose,
    text: TextId,
) -> Result<(), OutOfMemory>
    requires runs { Runs S.meaning config.old frame }
    requires text { Has config.old.heap.texts text }
    ensures { GoesOn S.meaning frame config.old config.new result (λ t env.
        line.at_name (value_in t (value_held frame.held)) (taken purpose env) (text_in t text)) }
{
    let name = name_of(config, text);
    take_held(config, frame, purpose, name)
}
