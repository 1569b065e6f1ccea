//! A loop that waits for its body, a block, which waits for one of its statements.
ghost use Rattle.std.specs.Prelude.{drop};
ghost use Rattle.wjs_meaning.specs.Deeds.{Eval, Sub, AtStmt, node_here, then_normal};
ghost use Rattle.wjs_meaning.specs.Statements.{block_from};
ghost use Rattle.wjs_model.specs.Lists.{block_items};
ghost use Rattle.wjs_model.specs.Soundness.{HasPoint, StandsHere};
ghost use Rattle.wjs_frames.specs.Handling.{Runs, GoesOn};
ghost use Rattle.wjs_frames.specs.Parts.{then_at};

use wjs_base::OutOfMemory;
use wjs_effects::{enter_statement, wait_below};
use wjs_model::{Config, Frame, Point, StmtPoint};
use wjs_store::WorldStore;
use wjs_tree::NodeId;

/// The frame waits at a point for a block that stands where it is run, and the block for a statement, which is entered; the one of
/// this number comes next.
pub(crate) fn enter_in_block<S: WorldStore>(
    config: &mut Config<S>,
    frame: Frame,
    point: Point,
    block: NodeId,
    statement: NodeId,
    next: u32,
) -> Result<(), OutOfMemory>
    requires runs { Runs S.meaning config.old frame }
    requires point { HasPoint config.old frame point }
    requires block { StandsHere config.old frame block }
    requires statement { StandsHere config.old frame statement }
    ensures { GoesOn S.meaning frame config.old config.new result (λ t env.
        Sub (Eval (AtStmt statement.0) env (then_normal (block_from (drop next (block_items (node_here env block.0))) env)))
        (then_at S.meaning config.old frame point t env)) }
{
    let inner = wait_below(config, frame, point, block)?;
    let behind = Point::Stmt(StmtPoint::BlockStatement(next));
    enter_statement(config, inner, behind, statement)
}
