//! What operators make of two values at once (ECMA-262, 3rd edition, sections 11.5 to 11.10).
ghost use Rattle.std.specs.Prelude.{◌≡◌, IfNone, IfOk, IfSome, OnOk};
ghost use Rattle.wjs_base.specs.Text.{Table};
ghost use Rattle.wjs_by_content.specs.Tables.{value_in};
ghost use Rattle.wjs_by_content.specs.Values.{Object};
ghost use Rattle.wjs_meaning.specs.Deeds.{Gives, Sub};
ghost use Rattle.wjs_meaning.specs.Operators as line;
ghost use Rattle.wjs_model.specs.Soundness.{Base, HasObject, HasValue, IsThere};
ghost use Rattle.wjs_frames.specs.Doing.{Does};
ghost use Rattle.wjs_frames.specs.Following.{Later};
ghost use Rattle.wjs_frames.specs.Parts.{env_in};

use crate::joins::settle;
use crate::pieces::of_values;
use wjs_base::{ObjId, OutOfMemory, Value};
use wjs_heap_steps::has;
use wjs_model::{Config, Frame};
use wjs_quick::name_there;
use wjs_store::WorldStore;
use wjs_tree::BinaryOperator;

/// What an operator makes of two values; a text that `+` joins is made, and `in` looks up a name that is there. None where an object
/// would be converted, an instance told or an error thrown, and then nothing has changed.
#[inline(always)]
pub fn result_at_once<S: WorldStore>(
    config: &mut Config<S>,
    frame: &Frame,
    operator: BinaryOperator,
    left: Value,
    right: Value,
) -> Result<Option<Value>, OutOfMemory>
    requires base { Base S.meaning config.old }
    requires there { IsThere S.meaning config.old frame.now }
    requires left { HasValue config.old left }
    requires right { HasValue config.old right }
    ensures same { IfOk result (λ done. IfNone done (config.new ≡ config.old)) }
    ensures does { IfOk result (λ done. IfSome done (λ v. Does S.meaning
        (λ t go. Sub (line.operate operator (value_in t left) (value_in t right) (env_in S.meaning config.old t frame.now)) go)
        (λ t. Gives (value_in t v)) config.old config.new)) }
    ensures later { OnOk result (Later S.meaning config.old config.new) }
    ensures found { IfOk result (λ done. IfSome done (λ v. HasValue config.new v)) }
{
    match operator {
        BinaryOperator::In => found_at_once(config, frame, left, right),
        _ => made_at_once(config, frame, operator, left, right),
    }
}

/// What another operator than `in` makes of them.
#[inline(always)]
fn made_at_once<S: WorldStore>(
    config: &mut Config<S>,
    frame: &Frame,
    operator: BinaryOperator,
    left: Value,
    right: Value,
) -> Result<Option<Value>, OutOfMemory>
    requires base { Base S.meaning config.old }
    requires left { HasValue config.old left }
    requires right { HasValue config.old right }
    ensures same { IfOk result (λ done. IfNone done (config.new ≡ config.old)) }
    ensures does { IfOk result (λ done. IfSome done (λ v. Does S.meaning
        (λ t go. Sub (line.operate operator (value_in t left) (value_in t right) (env_in S.meaning config.old t frame.now)) go)
        (λ t. Gives (value_in t v)) config.old config.new)) }
    ensures later { OnOk result (Later S.meaning config.old config.new) }
    ensures found { IfOk result (λ done. IfSome done (λ v. HasValue config.new v)) }
{
    let _frame = frame;
    match of_values(config, operator, left, right) {
        Some(made) => {
            let value = settle(config, made)?;
            Ok(Some(value))
        }
        None => Ok(None),
    }
}

/// Whether the right value, an object, has the name that the left one is (section 11.8.7); None of others.
fn found_at_once<S: WorldStore>(
    config: &mut Config<S>,
    frame: &Frame,
    left: Value,
    right: Value,
) -> Result<Option<Value>, OutOfMemory>
    requires base { Base S.meaning config.old }
    requires there { IsThere S.meaning config.old frame.now }
    requires left { HasValue config.old left }
    requires right { HasValue config.old right }
    ensures same { IfOk result (λ done. IfNone done (config.new ≡ config.old)) }
    ensures does { IfOk result (λ done. IfSome done (λ v. Does S.meaning
        (λ t go. Sub (line.in_values (value_in t left) (value_in t right) (env_in S.meaning config.old t frame.now)) go)
        (λ t. Gives (value_in t v)) config.old config.new)) }
    ensures later { OnOk result (Later S.meaning config.old config.new) }
    ensures found { IfOk result (λ done. IfSome done (λ v. HasValue config.new v)) }
{
    match right {
        Value::Object(object) => found_in(config, frame, left, object),
        _ => Ok(None),
    }
}

/// The same of an object.
fn found_in<S: WorldStore>(
    config: &mut Config<S>,
    frame: &Frame,
    left: Value,
    object: ObjId,
) -> Result<Option<Value>, OutOfMemory>
    requires base { Base S.meaning config.old }
    requires there { IsThere S.meaning config.old frame.now }
    requires left { HasValue config.old left }
    requires object { HasObject config.old object }
    ensures same { IfOk result (λ done. IfNone done (config.new ≡ config.old)) }
    ensures does { IfOk result (λ done. IfSome done (λ v. Does S.meaning
        (λ t go. Sub (line.in_values (value_in t left) (Object object) (env_in S.meaning config.old t frame.now)) go)
        (λ t. Gives (value_in t v)) config.old config.new)) }
    ensures later { OnOk result (Later S.meaning config.old config.new) }
    ensures found { IfOk result (λ done. IfSome done (λ v. HasValue config.new v)) }
{
    match name_there(config, left) {
        Some(name) => {
            let answer = has(config, frame, object, name)?;
            Ok(Some(Value::Bool(answer)))
        }
        None => Ok(None),
    }
}
