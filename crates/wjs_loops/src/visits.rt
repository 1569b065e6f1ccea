//! The visits of a `for`-`in` (section 12.6.4).
ghost use Rattle.std.specs.Prelude.{◌≡◌, ◌<◌, ◌++◌, [], length, IfOk, IfSome, OnOk, MatchResult, is_some};
ghost use Rattle.std.specs.Option.{option_map};
ghost use Rattle.wjs_base.specs.Text.{Table};
ghost use Rattle.wjs_by_content.specs.Tables.{name_in, value_in, slot_in};
ghost use Rattle.wjs_by_content.specs.Renamed.{Holds};
ghost use Rattle.wjs_heap_steps.specs.Visits.{HasVisit};
ghost use Rattle.wjs_meaning.specs.Deeds.{Do, Read};
ghost use Rattle.wjs_model.specs.Contents.{holding_in, visits_held};
ghost use Rattle.wjs_model.specs.Frames.{Uncovers};
ghost use Rattle.wjs_model.specs.Soundness.{Base, IsThere, HasObject, HasValue, HasSlot};
ghost use Rattle.wjs_frames.specs.Doing.{Does};
ghost use Rattle.wjs_frames.specs.Following.{Later};
ghost use Rattle.wjs_frames.specs.Parts.{env_in};
ghost use Rattle.wjs_loops.specs.ForIns.{Reaches, Lists, Refuses, listed};
ghost use Rattle.wjs_step_common.specs.Lists.{visits_as_items};

use wjs_base::{Content, ObjId, OutOfMemory, Slot, Value};
use wjs_frames::hold;
use wjs_heap_steps::{builtin, create_error, read_content, visits};
use wjs_meaning::Builtin;
use wjs_model::{Config, Frame, Held, Trouble};
use wjs_props::Visits;
use wjs_store::WorldStore;

/// The next visit, which is taken off what is held with all that was held later.
pub(crate) fn next_visit<S: WorldStore>(config: &Config<S>, frame: &mut Frame) -> Option<Slot>
    requires there { IsThere S.meaning config.now frame.old }
    ensures next { Uncovers (visits_held frame.old.held) result (visits_held frame.new.held) }
    ensures frame { frame.new ≡ record frame.old { held = frame.new.held } }
    ensures there { IsThere S.meaning config.now frame.new }
    ensures found { IfSome result (HasSlot config.now) }
    ensures shorter { IfSome result (λ _. length frame.new.held < length frame.old.held) }
{
    let _config = config;
    while let Some(item) = frame.pop() {
        if let Held::Visit(slot) = item {
            return Some(slot);
        }
    }
    None
}

/// Whether a slot is present.
fn is_present<S: WorldStore>(
    config: &mut Config<S>,
    frame: &Frame,
    slot: Slot,
) -> Result<bool, OutOfMemory>
    requires base { Base S.meaning config.old }
    requires there { IsThere S.meaning config.old frame.now }
    requires slot { HasSlot config.old slot }
    ensures does { IfOk result (λ answer. Does S.meaning (λ t go. Do (Read frame.now.world (slot_in t slot)) (λ found. go (is_some found)))
        (λ t. answer) config.old config.new) }
    ensures later { OnOk result (Later S.meaning config.old config.new) }
{
    let found = read_content(config, frame, slot.object, slot.name)?;
    match found {
        Content::Present(_) => Ok(true),
        Content::Absent => Ok(false),
    }
}

/// The next visit whose slot is present; those before it and it itself are taken off what is held.
pub fn next_present<S: WorldStore>(
    config: &mut Config<S>,
    frame: &mut Frame,
) -> Result<Option<Slot>, OutOfMemory>
    requires base { Base S.meaning config.old }
    requires there { IsThere S.meaning config.old frame.old }
    ensures reaches { IfOk result (λ found. Reaches S.meaning (λ t. (holding_in t frame.old.held).visits) (λ t. (holding_in t frame.new.held).visits)
        (λ t. option_map (λ s. name_in t s.name) found) (λ t. env_in S.meaning config.old t frame.old) config.old config.new) }
    ensures later { OnOk result (Later S.meaning config.old config.new) }
    ensures frame { OnOk result (frame.new ≡ record frame.old { held = frame.new.held }) }
    ensures there { OnOk result (IsThere S.meaning config.new frame.new) }
    ensures found { IfOk result (λ found. IfSome found (HasSlot config.new)) }
{
    while let Some(slot) = next_visit(config, frame) {
        if is_present(config, frame, slot)? {
            return Ok(Some(slot));
        }
    }
    Ok(None)
}

/// The object that lists the names of a value; none of undefined and null.
fn listed_of<S: WorldStore>(config: &Config<S>, value: Value) -> Option<ObjId>
    requires base { Base S.meaning config.now }
    requires value { HasValue config.now value }
    ensures is { (t : Table) → listed (value_in t value) ≡ result }
    ensures found { IfSome result (HasObject config.now) }
{
    match value {
        Value::Undefined | Value::Null => None,
        Value::Object(object) => Some(object),
        Value::Text(_) => Some(builtin(config, Builtin::StringPrototype)),
        Value::Number(_) => Some(builtin(config, Builtin::NumberPrototype)),
        Value::Bool(_) => Some(builtin(config, Builtin::BooleanPrototype)),
    }
}

/// The frame holds the visits over a value and nothing else; of undefined and null what is thrown.
pub fn hold_visits<S: WorldStore>(
    config: &mut Config<S>,
    frame: &mut Frame,
    value: Value,
) -> Result<Result<(), Value>, OutOfMemory>
    requires base { Base S.meaning config.old }
    requires there { IsThere S.meaning config.old frame.old }
    requires value { HasValue config.old value }
    ensures lists { IfOk result (λ answer. MatchResult answer
        (λ _. Lists S.meaning (λ t. value_in t value) (λ t. (holding_in t frame.new.held).visits)
        (λ t. env_in S.meaning config.old t frame.old) config.old config.new)
        (λ error. Refuses S.meaning (λ t. value_in t value) (λ t. value_in t error) (λ t. env_in S.meaning config.old t frame.old) config.old config.new)) }
    ensures later { OnOk result (Later S.meaning config.old config.new) }
    ensures frame { OnOk result (frame.new ≡ record frame.old { held = frame.new.held }) }
    ensures there { OnOk result (IsThere S.meaning config.new frame.new) }
    ensures found { IfOk result (λ answer. MatchResult answer (λ _. Unit {0}) (λ error. HasValue config.new error)) }
{
    match listed_of(config, value) {
        Some(object) => {
            let visits = visits(config, frame, object)?;
            frame.set_held(config.frames.nothing_held());
            push_visits(frame, visits)?;
            Ok(Ok(()))
        }
        None => {
            let error = create_error(config, Trouble::NotAnObject)?;
            Ok(Err(Value::Object(error)))
        }
    }
}

/// The visits are held, the first of them as the latest.
fn push_visits(frame: &mut Frame, visits: Visits) -> Result<(), OutOfMemory>
    ensures { OnOk result (frame.new ≡ record frame.old { held = visits_as_items visits ++ frame.old.held }) }
{
    let mut visits = visits;
    while let Some(visit) = visits.pop() {
        let slot = Slot {
            object: visit.object,
            name: visit.name,
        };
        hold(frame, Held::Visit(slot))?;
    }
    Ok(())
}
