//! What `delete` takes away (ECMA-262, 3rd edition, section 11.4.1).
ghost use Rattle.std.specs.Prelude.{◌≡◌, IfOk, OnOk};
ghost use Rattle.wjs_base.specs.Text.{Table, Grows};
ghost use Rattle.wjs_by_content.specs.Names.{length_name};
ghost use Rattle.wjs_by_content.specs.Tables.{name_in, value_in};
ghost use Rattle.wjs_by_content.specs.Values.{same_text};
ghost use Rattle.wjs_meaning.specs.Deeds.{Member};
ghost use Rattle.wjs_model.specs.Contents.{reference_in};
ghost use Rattle.wjs_model.specs.Soundness.{Base, IsThere, HasName, HasReference, HasValue};
ghost use Rattle.wjs_frames.specs.Doing.{Does};
ghost use Rattle.wjs_frames.specs.Following.{Later};
ghost use Rattle.wjs_frames.specs.Parts.{env_in};
ghost use Rattle.wjs_effects.specs.Telling.{deleted};

use wjs_base::{Name, OutOfMemory, Value};
use wjs_heap_steps::{delete, units_of};
use wjs_model::{Config, Frame, Reference};
use wjs_store::WorldStore;

const LENGTH: [u16; 6] = [108, 101, 110, 103, 116, 104];

/// Takes away what a reference stands for, and tells whether it is gone: a name in a scope stays.
pub fn delete_at<S: WorldStore>(
    config: &mut Config<S>,
    frame: &Frame,
    reference: Reference,
) -> Result<bool, OutOfMemory>
    requires base { Base S.meaning config.old }
    requires there { IsThere S.meaning config.old frame.now }
    requires reference { HasReference config.old reference }
    ensures does { IfOk result (λ gone. Does S.meaning (λ t. deleted (reference_in t reference) (env_in S.meaning config.old t frame.now))
        (λ t. gone) config.old config.new) }
    ensures later { OnOk result (Later S.meaning config.old config.new) }
{
    match reference {
        Reference::Local(_, _) => Ok(false),
        Reference::Global(name) => {
            let global = config.global;
            delete(config, frame, global, name)
        }
        Reference::Member(base, name) => delete_member(config, frame, base, name),
    }
}

/// A member of a value: a text keeps its `length`.
fn delete_member<S: WorldStore>(
    config: &mut Config<S>,
    frame: &Frame,
    base: Value,
    name: Name,
) -> Result<bool, OutOfMemory>
    requires base { Base S.meaning config.old }
    requires there { IsThere S.meaning config.old frame.now }
    requires value { HasValue config.old base }
    requires name { HasName config.old name }
    ensures does { IfOk result (λ gone. Does S.meaning
        (λ t. deleted (Member (value_in t base) (name_in t name)) (env_in S.meaning config.old t frame.now)) (λ t. gone) config.old config.new) }
    ensures later { OnOk result (Later S.meaning config.old config.new) }
{
    match base {
        Value::Object(object) => delete(config, frame, object, name),
        Value::Text(_) => {
            let kept = is_length(config, name);
            Ok(!kept)
        }
        _ => Ok(true),
    }
}

/// Whether the name is `length`.
fn is_length<S: WorldStore>(config: &Config<S>, name: Name) -> bool
    requires { HasName config.now name }
    ensures { (t : Table) → Grows config.now.heap.texts t → same_text (name_in t name) length_name ≡ result }
{
    match name {
        Name::Index(_) => false,
        Name::Text(id) => units_of(config, id) == LENGTH.as_slice(),
    }
}
