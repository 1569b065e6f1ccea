//! The arguments of calls and `new` (ECMA-262, 3rd edition, section 11.2.4).
ghost use Rattle.std.specs.Prelude.{◌≡◌, Some, slice_get, unwrap_or, IfOk};
ghost use Rattle.wjs_frames.specs.Handling.{Runs};
ghost use Rattle.wjs_frames.specs.Parts.{node_now};
ghost use Rattle.wjs_literals.specs.Arguments.{arguments_in, ArgumentsHeld};

use wjs_base::OutOfMemory;
use wjs_frames::{Part, hold, node_of};
use wjs_model::{Config, Frame, Held};
use wjs_quick::quick;
use wjs_step_common::number_after;
use wjs_store::WorldStore;
use wjs_tree::{Node, NodeId};

/// The arguments from a number on that have their values at once, one after another: the frame holds these then. Gives the number of
/// the first that it does not hold. The rest may go on from wherever this stops, so the bound is none that counts.
pub(crate) fn arguments_at_once<S: WorldStore>(
    config: &mut Config<S>,
    frame: &mut Frame,
    from: u32,
) -> Result<u32, OutOfMemory>
    requires runs { Runs S.meaning config.old frame.old }
    ensures { IfOk result (λ at. ArgumentsHeld S.meaning config.old frame.old from config.new frame.new at) }
{
    let mut at = from;
    for _turn in 0..u64::MAX {
        let next = argument_at_once(config, frame, at)?;
        match next {
            Some(number) => at = number,
            None => return Ok(at),
        }
    }
    Ok(at)
}

/// The number after that of an argument, where its value is had at once: the frame holds it then. After None nothing has changed.
#[inline(always)]
fn argument_at_once<S: WorldStore>(
    config: &mut Config<S>,
    frame: &mut Frame,
    at: u32,
) -> Result<Option<u32>, OutOfMemory>
    requires runs { Runs S.meaning config.old frame.old }
    ensures { IfOk result (λ next. ArgumentsHeld S.meaning config.old frame.old at config.new frame.new (unwrap_or next at)) }
{
    match argument(config, frame, at as usize) {
        Some(node) => hold_at_once(config, frame, at, node),
        None => Ok(None),
    }
}

/// The same of an argument that was found.
#[inline(always)]
fn hold_at_once<S: WorldStore>(
    config: &mut Config<S>,
    frame: &mut Frame,
    at: u32,
    node: NodeId,
) -> Result<Option<u32>, OutOfMemory>
    requires runs { Runs S.meaning config.old frame.old }
    requires argument { slice_get (arguments_in (node_now S.meaning config.old frame.old)) at ≡ Some node }
    ensures { IfOk result (λ next. ArgumentsHeld S.meaning config.old frame.old at config.new frame.new (unwrap_or next at)) }
{
    let next = number_after(at)?;
    match quick(config, frame, Part::Expr(node)) {
        Some(value) => {
            hold(frame, Held::Value(value))?;
            Ok(Some(next))
        }
        None => Ok(None),
    }
}

/// The argument of a number of a call or `new`.
pub(crate) fn argument<S: WorldStore>(
    config: &Config<S>,
    frame: &Frame,
    at: usize,
) -> Option<NodeId>
    ensures { result ≡ slice_get (arguments_in (node_now S.meaning config.now frame.now)) at }
{
    match node_of(config, frame) {
        Some(Node::Call(_, arguments)) => number_at(arguments.as_slice(), at),
        Some(Node::NewWith(_, arguments)) => number_at(arguments.as_slice(), at),
        _ => None,
    }
}

fn number_at(ids: &[NodeId], at: usize) -> Option<NodeId>
    ensures { result ≡ slice_get ids.now at }
{
    match ids.get(at) {
        Some(id) => Some(*id),
        None => None,
    }
}
