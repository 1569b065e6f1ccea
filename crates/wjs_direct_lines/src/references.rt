//! Values of references: told by a look, or read where a world has still to note that they are (ECMA-262, 3rd edition, section 8.7.1).
ghost use Rattle.std.specs.Prelude.{[], None};
ghost use Rattle.wjs_model.specs.Soundness.{Base, HasReference, HasValue, IsThere};
ghost use Rattle.wjs_frames.specs.Following.{Later};
ghost use Rattle.wjs_stopping.specs.Ends.{gives_in};
ghost use Rattle.wjs_stopping.specs.Evaluating.{Evaluates, HasOutcome, InMemory};
ghost use Rattle.wjs_direct_lines.specs.References.{read_here};

use crate::stores::value_or_thrown;
use wjs_base::Value;
use wjs_heap_steps::{peek_value_of, reference_completion};
use wjs_model::{Config, Frame, Reference};
use wjs_stopping::Broken;
use wjs_store::WorldStore;

/// The value of a reference, or what its read throws; no frame stops. Mostly a look tells it.
#[inline(always)]
pub fn reference_value<S: WorldStore>(
    config: &mut Config<S>,
    frame: &Frame,
    reference: Reference,
) -> Result<Value, Broken>
    requires base { Base S.meaning config.old }
    requires there { IsThere S.meaning config.old frame.now }
    requires reference { HasReference config.old reference }
    ensures later { InMemory result (Later S.meaning config.old config.new) }
    ensures found { HasOutcome S.meaning HasValue config.new result [] None }
    ensures does { Evaluates S.meaning (read_here S.meaning config.old frame.now reference) gives_in result [] None config.old config.new }
{
    match peek_value_of(config, frame, reference) {
        Some(value) => Ok(value),
        None => value_read(config, frame, reference),
    }
}

/// The same, where no look tells it.
#[inline(never)]
pub(crate) fn value_read<S: WorldStore>(
    config: &mut Config<S>,
    frame: &Frame,
    reference: Reference,
) -> Result<Value, Broken>
    requires base { Base S.meaning config.old }
    requires there { IsThere S.meaning config.old frame.now }
    requires reference { HasReference config.old reference }
    ensures later { InMemory result (Later S.meaning config.old config.new) }
    ensures found { HasOutcome S.meaning HasValue config.new result [] None }
    ensures does { Evaluates S.meaning (read_here S.meaning config.old frame.now reference) gives_in result [] None config.old config.new }
{
    let end = reference_completion(config, frame, reference)?;
    value_or_thrown(end)
}
