//! The entry of statements by frames (ECMA-262, 3rd edition, sections 12.4 and 12.9): one that is an expression, or returns one, is
//! entered together with it. One that is an expression has no frame of its own where it stands in a block, a body or a program.
ghost use Rattle.std.specs.Prelude.{◌≡◌, Some, IfSome};
ghost use Rattle.wjs_meaning.specs.Deeds.{Eval, Sub, AtStmt};
ghost use Rattle.wjs_meaning.specs.Programs.{entry};
ghost use Rattle.wjs_model.specs.Soundness.{HasPoint, StandsHere};
ghost use Rattle.wjs_frames.specs.Handling.{Runs, GoesOn};
ghost use Rattle.wjs_frames.specs.Parts.{node_among, then_at};
ghost use Rattle.wjs_effects.specs.Only.{IsOnly, value_point, dropped};

use crate::above::wait_below;
use wjs_base::OutOfMemory;
use wjs_frames::{Part, enter, node_at};
use wjs_model::{CallPoint, Completion, Config, Frame, Point, StmtPoint};
use wjs_store::WorldStore;
use wjs_tree::{Node, NodeId};

/// The expression that is a statement's only part, and where its frame waits for it.
#[derive(Clone, Copy)]
pub(crate) struct Only {
    pub expression: NodeId,
    pub behind: StmtPoint,
}

/// The frame waits at a point for a statement, which is entered; one that has an expression alone is entered together with it, where
/// a step is left.
pub fn enter_statement<S: WorldStore>(
    config: &mut Config<S>,
    frame: Frame,
    point: Point,
    s: NodeId,
) -> Result<(), OutOfMemory>
    requires runs { Runs S.meaning config.old frame }
    requires point { HasPoint config.old frame point }
    requires part { StandsHere config.old frame s }
    ensures { GoesOn S.meaning frame config.old config.new result (λ t env. Eval (AtStmt s.0) env (then_at S.meaning config.old frame point t env)) }
{
    if config.left == 0 {
        return enter(config, frame, point, Part::Stmt(s));
    }
    match only_part(config, &frame, s) {
        Some(only) => {
            config.left -= 1;
            enter_only(config, frame, point, s, only)
        }
        None => enter(config, frame, point, Part::Stmt(s)),
    }
}

/// The expression that is a statement's only part; None of every other statement.
#[inline(always)]
fn only_part<S: WorldStore>(config: &Config<S>, frame: &Frame, s: NodeId) -> Option<Only>
    ensures { IfSome result (λ only. IsOnly (node_among config.now.units.items frame.now.tree s) only) }
{
    match node_at(config, frame, s) {
        Some(Node::Expr(e, _)) => Some(Only {
            expression: *e,
            behind: StmtPoint::ExprValue,
        }),
        Some(Node::Return(Some(e), _)) => Some(Only {
            expression: *e,
            behind: StmtPoint::ReturnValue,
        }),
        _ => None,
    }
}

/// The frame waits at a point for a statement whose step is taken, and whose expression is entered: without a frame of its own where
/// its value is dropped.
fn enter_only<S: WorldStore>(
    config: &mut Config<S>,
    frame: Frame,
    point: Point,
    s: NodeId,
    only: Only,
) -> Result<(), OutOfMemory>
    requires runs { Runs S.meaning config.old frame }
    requires point { HasPoint config.old frame point }
    requires part { StandsHere config.old frame s }
    requires only { IsOnly (node_among config.old.units.items frame.tree s) only }
    ensures { GoesOn S.meaning frame config.old config.new result (λ t env.
        Sub (entry (AtStmt s.0) env) (then_at S.meaning config.old frame point t env)) }
{
    match only.behind {
        StmtPoint::ExprValue => enter_value(config, frame, point, s, only),
        _ => enter_nested(config, frame, point, s, only),
    }
}

/// The frame waits for the expression that is its statement, by itself where it is that of a sequence.
fn enter_value<S: WorldStore>(
    config: &mut Config<S>,
    frame: Frame,
    point: Point,
    s: NodeId,
    only: Only,
) -> Result<(), OutOfMemory>
    requires runs { Runs S.meaning config.old frame }
    requires point { HasPoint config.old frame point }
    requires part { StandsHere config.old frame s }
    requires only { IsOnly (node_among config.old.units.items frame.tree s) only }
    requires value { only.behind ≡ StmtPoint.ExprValue }
    ensures { GoesOn S.meaning frame config.old config.new result (λ t env.
        Sub (entry (AtStmt s.0) env) (then_at S.meaning config.old frame point t env)) }
{
    match value_point(point) {
        Some(waits) => enter(config, frame, waits, Part::Expr(only.expression)),
        None => enter_nested(config, frame, point, s, only),
    }
}

/// Where the frame of a sequence waits for the expression that is its statement; None of every other frame.
#[inline(always)]
fn value_point(point: Point) -> Option<Point>
    ensures { IfSome result (λ waits. value_point point ≡ Some waits) }
{
    match point {
        Point::Stmt(StmtPoint::BlockStatement(next)) => {
            Some(Point::Stmt(StmtPoint::BlockValue(next)))
        }
        Point::Call(CallPoint::BodyElement(next)) => Some(Point::Call(CallPoint::BodyValue(next))),
        Point::Call(CallPoint::ProgramElement(next)) => {
            Some(Point::Call(CallPoint::ProgramValue(next)))
        }
        _ => None,
    }
}

/// The frame waits at a point for a statement whose step is taken, and the statement for its expression, which is entered.
fn enter_nested<S: WorldStore>(
    config: &mut Config<S>,
    frame: Frame,
    point: Point,
    s: NodeId,
    only: Only,
) -> Result<(), OutOfMemory>
    requires runs { Runs S.meaning config.old frame }
    requires point { HasPoint config.old frame point }
    requires part { StandsHere config.old frame s }
    requires only { IsOnly (node_among config.old.units.items frame.tree s) only }
    ensures { GoesOn S.meaning frame config.old config.new result (λ t env.
        Sub (entry (AtStmt s.0) env) (then_at S.meaning config.old frame point t env)) }
{
    let inner = wait_below(config, frame, point, s)?;
    enter(
        config,
        inner,
        Point::Stmt(only.behind),
        Part::Expr(only.expression),
    )
}

/// How a statement ends by the completion of its expression, whose value is dropped.
pub fn dropped(completion: Completion) -> Completion
    ensures { result ≡ dropped completion }
{
    match completion {
        Completion::Gives(_) => Completion::Normal,
        other => other,
    }
}
