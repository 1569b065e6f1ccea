//! The iterations of loops: what one enters is entered by its own step.
ghost use Rattle.wjs_meaning.specs.Deeds.{Sub};
ghost use Rattle.wjs_meaning.specs.Expressions.{expr_at};
ghost use Rattle.wjs_meaning.specs.Statements.{stmt_at};
ghost use Rattle.wjs_model.specs.Soundness.{StandsHere, HasPoint};
ghost use Rattle.wjs_frames.specs.Parts.{then_at};
ghost use Rattle.wjs_frames.specs.Handling.{Runs, GoesOn};

use wjs_base::OutOfMemory;
use wjs_frames::nest;
use wjs_model::{Config, Frame, Point, Start};
use wjs_store::WorldStore;
use wjs_tree::NodeId;

/// The frame waits at a point for an expression, which begins with no step of its own.
pub fn expr_iteration<S: WorldStore>(
    config: &mut Config<S>,
    frame: Frame,
    point: Point,
    e: NodeId,
) -> Result<(), OutOfMemory>
    requires runs { Runs S.meaning config.old frame }
    requires point { HasPoint config.old frame point }
    requires part { StandsHere config.old frame e }
    ensures { GoesOn S.meaning frame config.old config.new result (λ t env. Sub (expr_at e.0 env) (then_at S.meaning config.old frame point t env)) }
{
    let held = config.frames.nothing_held();
    nest(config, frame, point, Start::Expr, e, held)
}

/// The frame waits at a point for a statement, which begins with no step of its own.
pub fn stmt_iteration<S: WorldStore>(
    config: &mut Config<S>,
    frame: Frame,
    point: Point,
    s: NodeId,
) -> Result<(), OutOfMemory>
    requires runs { Runs S.meaning config.old frame }
    requires point { HasPoint config.old frame point }
    requires part { StandsHere config.old frame s }
    ensures { GoesOn S.meaning frame config.old config.new result (λ t env. Sub (stmt_at s.0 env) (then_at S.meaning config.old frame point t env)) }
{
    let held = config.frames.nothing_held();
    nest(config, frame, point, Start::Stmt, s, held)
}
