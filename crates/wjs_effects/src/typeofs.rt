//! What `typeof` tells of a value (ECMA-262, 3rd edition, section 11.4.3).
ghost use Rattle.std.specs.Prelude.{◌≡◌, ◌≤◌, length, IfOk, OnOk};
ghost use Rattle.wjs_base.specs.Text.{Table, longest};
ghost use Rattle.wjs_by_content.specs.Objects.{Arena};
ghost use Rattle.wjs_by_content.specs.Tables.{value_in};
ghost use Rattle.wjs_meaning.specs.Expressions as line;
ghost use Rattle.wjs_model.specs.Outside.{Sees};
ghost use Rattle.wjs_model.specs.Soundness.{Base, HasValue};
ghost use Rattle.wjs_frames.specs.Doing.{Does};
ghost use Rattle.wjs_frames.specs.Following.{Later};
ghost use Rattle.wjs_effects.specs.Telling.{type_of};

use wjs_base::{OutOfMemory, Value};
use wjs_heap_steps::{intern, is_callable};
use wjs_model::Config;
use wjs_store::WorldStore;

const UNDEFINED: [u16; 9] = [117, 110, 100, 101, 102, 105, 110, 101, 100];

const OBJECT: [u16; 6] = [111, 98, 106, 101, 99, 116];

const BOOLEAN: [u16; 7] = [98, 111, 111, 108, 101, 97, 110];

const NUMBER: [u16; 6] = [110, 117, 109, 98, 101, 114];

const STRING: [u16; 6] = [115, 116, 114, 105, 110, 103];

const FUNCTION: [u16; 8] = [102, 117, 110, 99, 116, 105, 111, 110];

/// The name of the value's type, as a value.
pub fn type_of<S: WorldStore>(config: &mut Config<S>, value: Value) -> Result<Value, OutOfMemory>
    requires base { Base S.meaning config.old }
    requires value { HasValue config.old value }
    ensures does { IfOk result (λ name. Does S.meaning (λ t. type_of (value_in t value)) (λ t. value_in t name) config.old config.new) }
    ensures later { OnOk result (Later S.meaning config.old config.new) }
    ensures found { IfOk result (λ name. HasValue config.new name) }
{
    let units = type_name(config, value);
    let id = intern(config, units)?;
    Ok(Value::Text(id))
}

/// The name of the value's type.
fn type_name<S: WorldStore>(config: &Config<S>, value: Value) -> &'static [u16]
    requires { HasValue config.now value }
    ensures name { (t : Table) (arena : Arena) → Sees S.meaning config.now t arena → line.type_name arena (value_in t value) ≡ result.now }
    ensures short { length result.now ≤ longest }
{
    match value {
        Value::Undefined => &UNDEFINED,
        Value::Null => &OBJECT,
        Value::Bool(_) => &BOOLEAN,
        Value::Number(_) => &NUMBER,
        Value::Text(_) => &STRING,
        Value::Object(object) => {
            if is_callable(config, object) {
                &FUNCTION
            } else {
                &OBJECT
            }
        }
    }
}
