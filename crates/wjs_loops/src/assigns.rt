//! Stores to declared names.
ghost use Rattle.std.specs.Prelude.{IfOk, OnOk, MatchResult};
ghost use Rattle.wjs_base.specs.Text.{Has};
ghost use Rattle.wjs_by_content.specs.Tables.{text_in, value_in};
ghost use Rattle.wjs_meaning.specs.References as line;
ghost use Rattle.wjs_model.specs.Soundness.{Base, IsThere, HasValue};
ghost use Rattle.wjs_model.specs.Units.{place_in};
ghost use Rattle.wjs_frames.specs.Doing.{DoesFirst, FailsFirst};
ghost use Rattle.wjs_frames.specs.Following.{Later};
ghost use Rattle.wjs_frames.specs.Parts.{env_in};

use wjs_base::{OutOfMemory, TextId, Value};
use wjs_heap_steps::{reference_at, store};
use wjs_model::{Config, Frame};
use wjs_scope::Place;
use wjs_store::WorldStore;

/// A store to a name at its place, or what is thrown.
pub fn assign<S: WorldStore>(
    config: &mut Config<S>,
    frame: &Frame,
    place: Place,
    name: TextId,
    value: Value,
) -> Result<Result<(), Value>, OutOfMemory>
    requires base { Base S.meaning config.old }
    requires there { IsThere S.meaning config.old frame.now }
    requires name { Has config.old.heap.texts name }
    requires value { HasValue config.old value }
    ensures does { IfOk result (λ answer. MatchResult answer
        (λ _. DoesFirst S.meaning (λ t act. line.reference_at (place_in place) (text_in t name) (env_in S.meaning config.old t frame.now)
        (λ r. line.store r (value_in t value) (env_in S.meaning config.old t frame.now) act)) config.old config.new)
        (λ error. FailsFirst S.meaning
        (λ t act. line.reference_at (place_in place) (text_in t name) (env_in S.meaning config.old t frame.now)
        (λ r. line.store r (value_in t value) (env_in S.meaning config.old t frame.now) act)) (λ t. value_in t error) config.old config.new)) }
    ensures later { OnOk result (Later S.meaning config.old config.new) }
    ensures found { IfOk result (λ answer. MatchResult answer (λ _. Unit {0}) (λ error. HasValue config.new error)) }
{
    let reference = reference_at(config, frame, place, name);
    store(config, frame, reference, value)
}
