//! The statement `try` (section 12.14).
ghost use Rattle.std.specs.Prelude.{◌≡◌, Some, IfSome};
ghost use Rattle.std.specs.Option.{option_map};
ghost use Rattle.wjs_base.specs.Text.{Has};
ghost use Rattle.wjs_by_content.specs.Tables.{text_in, value_in};
ghost use Rattle.wjs_meaning.specs.Reading.{node_in, number, handler_in};
ghost use Rattle.wjs_meaning.specs.Statements.{try_block, try_catch, try_finally, finally_done};
ghost use Rattle.wjs_model.specs.Contents.{completion_in, holding_in};
ghost use Rattle.wjs_model.specs.Lists.{handler_of};
ghost use Rattle.wjs_model.specs.Soundness.{Base, HasValue, HasCompletion, StandsIf};
ghost use Rattle.wjs_frames.specs.Parts.{node_among, node_now};
ghost use Rattle.wjs_frames.specs.Handling.{Runs, GoesOn};
ghost use Rattle.wjs_blocks.specs.Tries.{catch_in};

use crate::enters::enter_in;
use wjs_base::{OutOfMemory, Value};
use wjs_effects::enter_at_once;
use wjs_frames::{Part, finish, hold, node_at};
use wjs_heap_steps::{create_scope, name_of, write};
use wjs_model::{Completion, Config, Frame, Held, Point, StmtPoint};
use wjs_store::WorldStore;
use wjs_tree::{Handler, Node, NodeId};

/// The handler of the `try` at a node; None where it has none, and of every other node.
pub fn handler_at<S: WorldStore>(config: &Config<S>, frame: &Frame, node: NodeId) -> Option<Handler>
    requires { Base S.meaning config.now }
    ensures is { result ≡ catch_in (node_among config.now.units.items frame.now.tree node) }
    ensures known { IfSome result (λ handler. Has config.now.heap.texts handler.name) }
{
    match node_at(config, frame, node) {
        Some(Node::Try(_, handler, _)) => *handler,
        _ => None,
    }
}

/// After the block: a throw goes to the handler, if there is one.
pub fn try_block<S: WorldStore>(
    config: &mut Config<S>,
    frame: Frame,
    last: Option<NodeId>,
    completion: Completion,
) -> Result<(), OutOfMemory>
    requires runs { Runs S.meaning config.old frame }
    requires last { StandsIf config.old frame last }
    requires completion { HasCompletion config.old completion }
    ensures { GoesOn S.meaning frame config.old config.new result (λ t env.
        try_block (handler_of (node_in t (node_now S.meaning config.old frame))) (number last) env (completion_in t completion)) }
{
    let handler = handler_at(config, &frame, frame.node());
    block_ended(config, frame, handler, last, completion)
}

/// A throw goes to the handler, if there is one, and each other completion to the `finally`.
fn block_ended<S: WorldStore>(
    config: &mut Config<S>,
    frame: Frame,
    handler: Option<Handler>,
    last: Option<NodeId>,
    completion: Completion,
) -> Result<(), OutOfMemory>
    requires runs { Runs S.meaning config.old frame }
    requires handler { catch_in (node_now S.meaning config.old frame) ≡ handler }
    requires name { IfSome handler (λ handler. Has config.old.heap.texts handler.name) }
    requires last { StandsIf config.old frame last }
    requires completion { HasCompletion config.old completion }
    ensures { GoesOn S.meaning frame config.old config.new result (λ t env.
        try_block (option_map (handler_in t) handler) (number last) env (completion_in t completion)) }
{
    match (completion, handler) {
        (Completion::Throws(value), Some(caught)) => catch(config, frame, caught, last, value),
        _ => try_handler(config, frame, last, completion),
    }
}

/// The handler, in a new scope with the name of what was thrown, and in the world of the `try`.
fn catch<S: WorldStore>(
    config: &mut Config<S>,
    frame: Frame,
    handler: Handler,
    last: Option<NodeId>,
    value: Value,
) -> Result<(), OutOfMemory>
    requires runs { Runs S.meaning config.old frame }
    requires handler { catch_in (node_now S.meaning config.old frame) ≡ Some handler }
    requires name { Has config.old.heap.texts handler.name }
    requires last { StandsIf config.old frame last }
    requires value { HasValue config.old value }
    ensures { GoesOn S.meaning frame config.old config.new result (λ t env.
        try_catch (text_in t handler.name) handler.block.0 (number last) env (value_in t value)) }
{
    let scope = create_scope(config, frame.scope())?;
    let name = name_of(config, handler.name);
    write(config, &frame, scope, name, value)?;
    let point = Point::Stmt(StmtPoint::TryHandler(last));
    enter_in(config, frame, point, scope, Part::Stmt(handler.block))
}

/// After the handler, or after a block without one: the `finally`, if there is one; the completion that it may replace is held.
pub fn try_handler<S: WorldStore>(
    config: &mut Config<S>,
    frame: Frame,
    last: Option<NodeId>,
    completion: Completion,
) -> Result<(), OutOfMemory>
    requires runs { Runs S.meaning config.old frame }
    requires last { StandsIf config.old frame last }
    requires completion { HasCompletion config.old completion }
    ensures { GoesOn S.meaning frame config.old config.new result (λ t env. try_finally (number last) env (completion_in t completion)) }
{
    match last {
        Some(s) => {
            let mut frame = frame;
            hold(&mut frame, Held::Earlier(completion))?;
            let point = Point::Stmt(StmtPoint::TryFinally);
            enter_at_once(config, frame, point, s)
        }
        None => finish(config, frame, completion),
    }
}

/// After the `finally`, whose completion replaces the earlier one where it is not normal.
pub fn try_finally<S: WorldStore>(
    config: &mut Config<S>,
    frame: Frame,
    completion: Completion,
) -> Result<(), OutOfMemory>
    requires runs { Runs S.meaning config.old frame }
    requires completion { HasCompletion config.old completion }
    ensures { GoesOn S.meaning frame config.old config.new result (λ t env. finally_done (holding_in t frame.held).earlier (completion_in t completion)) }
{
    match completion {
        Completion::Normal => {
            let earlier = frame.earlier();
            finish(config, frame, earlier)
        }
        other => finish(config, frame, other),
    }
}
