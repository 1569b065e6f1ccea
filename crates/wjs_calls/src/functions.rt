//! Functions that scripts make (ECMA-262, 3rd edition, sections 10.1.3 and 13).
ghost use Rattle.std.specs.Prelude.{◌≡◌, All, IfOk, OnOk, Some};
ghost use Rattle.std.specs.Option.{option_map};
ghost use Rattle.wjs_base.specs.Text.{Has};
ghost use Rattle.wjs_by_content.specs.Tables.{text_in};
ghost use Rattle.wjs_model.specs.Texts.{HasText};
ghost use Rattle.wjs_meaning.specs.Reading.{numbers};
ghost use Rattle.wjs_meaning.specs.Functions as line;
ghost use Rattle.wjs_model.specs.Soundness.{Base, IsThere, HasObject};
ghost use Rattle.wjs_model.specs.Standing.{IsFunction};
ghost use Rattle.wjs_frames.specs.Doing.{Does, DoesFirst};
ghost use Rattle.wjs_frames.specs.Parts.{env_in};
ghost use Rattle.wjs_frames.specs.Following.{Later};
ghost use Rattle.wjs_calls.specs.Making.{prototype_given, declare_one, declared_as};
ghost use Rattle.wjs_calls.specs.Standing.{StandsNamed};

use crate::bodies::own_name;
use crate::makes::{create_function, create_prototype};
use crate::named::create_named;
use wjs_base::{ObjId, OutOfMemory, TextId, Value};
use wjs_heap_steps::{Known, name_of, write, write_known};
use wjs_model::{Config, Frame};
use wjs_store::WorldStore;
use wjs_tree::NodeId;

/// Makes the function of a node in a scope.
fn make_function_in<S: WorldStore>(
    config: &mut Config<S>,
    frame: &Frame,
    body: NodeId,
    scope: ObjId,
) -> Result<ObjId, OutOfMemory>
    requires base { Base S.meaning config.old }
    requires there { IsThere S.meaning config.old frame.now }
    requires scope { HasObject config.old scope }
    requires stands { IsFunction config.old.units.items config.old.heap.arena frame.now.tree body scope 0 }
    ensures does { IfOk result (λ o. Does S.meaning (λ t. line.make_function_in body.0 scope (env_in S.meaning config.old t frame.now))
        (λ t. o) config.old config.new) }
    ensures later { OnOk result (Later S.meaning config.old config.new) }
    ensures found { IfOk result (λ o. HasObject config.new o) }
{
    let function = create_function(config, frame, body, scope)?;
    give_prototype(config, frame, function)?;
    Ok(function)
}

/// Makes the function of a function expression, which may have a name of its own (section 13).
pub fn make_function<S: WorldStore>(
    config: &mut Config<S>,
    frame: &Frame,
    body: NodeId,
    name: Option<TextId>,
) -> Result<ObjId, OutOfMemory>
    requires base { Base S.meaning config.old }
    requires there { IsThere S.meaning config.old frame.now }
    requires name { HasText config.old.heap.texts name }
    requires stands { StandsNamed config.old.units.items config.old.heap.arena frame.now.tree body frame.now.scope name }
    ensures does { IfOk result (λ o. Does S.meaning (λ t. line.make_function body.0 (option_map (text_in t) name) (env_in S.meaning config.old t frame.now))
        (λ t. o) config.old config.new) }
    ensures later { OnOk result (Later S.meaning config.old config.new) }
    ensures found { IfOk result (λ o. HasObject config.new o) }
{
    match name {
        None => make_function_in(config, frame, body, frame.scope()),
        Some(name) => make_named(config, frame, body, name),
    }
}

/// Makes the function of a node inside a scope that has the function's own name.
fn make_named<S: WorldStore>(
    config: &mut Config<S>,
    frame: &Frame,
    body: NodeId,
    name: TextId,
) -> Result<ObjId, OutOfMemory>
    requires base { Base S.meaning config.old }
    requires there { IsThere S.meaning config.old frame.now }
    requires name { Has config.old.heap.texts name }
    requires stands { StandsNamed config.old.units.items config.old.heap.arena frame.now.tree body frame.now.scope (Some name) }
    ensures does { IfOk result (λ o. Does S.meaning (λ t. line.make_function body.0 (Some (text_in t name)) (env_in S.meaning config.old t frame.now))
        (λ t. o) config.old config.new) }
    ensures later { OnOk result (Later S.meaning config.old config.new) }
    ensures found { IfOk result (λ o. HasObject config.new o) }
{
    let function = create_named(config, frame, body, name)?;
    give_prototype(config, frame, function)?;
    Ok(function)
}

/// Makes the object that a function's `prototype` is at first, and the two writes that join them.
fn give_prototype<S: WorldStore>(
    config: &mut Config<S>,
    frame: &Frame,
    function: ObjId,
) -> Result<(), OutOfMemory>
    requires base { Base S.meaning config.old }
    requires there { IsThere S.meaning config.old frame.now }
    requires function { HasObject config.old function }
    ensures does { OnOk result (DoesFirst S.meaning (λ t. prototype_given function (env_in S.meaning config.old t frame.now)) config.old config.new) }
    ensures later { OnOk result (Later S.meaning config.old config.new) }
{
    let prototype = create_prototype(config)?;
    let made = Value::Object(function);
    write_known(config, frame, prototype, Known::Constructor, made)?;
    write_known(
        config,
        frame,
        function,
        Known::Prototype,
        Value::Object(prototype),
    )
}

/// Makes the functions that a body declares, in order, and writes each to an object under its name.
#[inline(always)]
pub fn declare_functions<S: WorldStore>(
    config: &mut Config<S>,
    frame: &Frame,
    functions: &[NodeId],
    holder: ObjId,
) -> Result<(), OutOfMemory>
    requires base { Base S.meaning config.old }
    requires there { IsThere S.meaning config.old frame.now }
    requires holder { HasObject config.old holder }
    requires stand { All (λ i. IsFunction config.old.units.items config.old.heap.arena frame.now.tree i frame.now.scope 0) functions.now }
    ensures does { OnOk result (DoesFirst S.meaning
        (λ t. line.declare_functions (numbers functions.now) holder (env_in S.meaning config.old t frame.now)) config.old config.new) }
    ensures later { OnOk result (Later S.meaning config.old config.new) }
{
    for function in functions {
        declare_function(config, frame, *function, holder)?;
    }
    Ok(())
}

/// Makes one function, and writes it to an object under its name.
fn declare_function<S: WorldStore>(
    config: &mut Config<S>,
    frame: &Frame,
    function: NodeId,
    holder: ObjId,
) -> Result<(), OutOfMemory>
    requires base { Base S.meaning config.old }
    requires there { IsThere S.meaning config.old frame.now }
    requires holder { HasObject config.old holder }
    requires stands { IsFunction config.old.units.items config.old.heap.arena frame.now.tree function frame.now.scope 0 }
    ensures does { OnOk result (DoesFirst S.meaning (λ t. declare_one function.0 holder (env_in S.meaning config.old t frame.now)) config.old config.new) }
    ensures later { OnOk result (Later S.meaning config.old config.new) }
{
    let made = make_function_in(config, frame, function, frame.scope())?;
    let name = own_name(config, frame, function);
    declare_as(config, frame, holder, made, name)
}

/// Writes a function to an object under its name, if it has one.
fn declare_as<S: WorldStore>(
    config: &mut Config<S>,
    frame: &Frame,
    holder: ObjId,
    made: ObjId,
    name: Option<TextId>,
) -> Result<(), OutOfMemory>
    requires base { Base S.meaning config.old }
    requires there { IsThere S.meaning config.old frame.now }
    requires holder { HasObject config.old holder }
    requires made { HasObject config.old made }
    requires name { HasText config.old.heap.texts name }
    ensures does { OnOk result (DoesFirst S.meaning
        (λ t. declared_as (option_map (text_in t) name) holder made (env_in S.meaning config.old t frame.now)) config.old config.new) }
    ensures later { OnOk result (Later S.meaning config.old config.new) }
{
    match name {
        None => Ok(()),
        Some(id) => {
            let name = name_of(config, id);
            write(config, frame, holder, name, Value::Object(made))
        }
    }
}
