//! The parts of nodes, and the frames that run them.
ghost use Rattle.std.specs.Prelude.{◌≡◌};
ghost use Rattle.wjs_frames.specs.Parts.{start_of, node_of};

use wjs_model::{Frame, Phase, Point, Start};
use wjs_tree::NodeId;

/// What is entered by a step: an expression for its value or as a target, a statement, a loop at its next iteration.
#[derive(Clone, Copy)]
pub enum Part {
    Expr(NodeId),
    Target(NodeId),
    Stmt(NodeId),
    Again(NodeId),
}

impl Part {
    /// What its frame begins with.
    pub(crate) fn start(&self) -> Start
        ensures { result ≡ start_of self.now }
    {
        match self {
            Part::Expr(_) => Start::Expr,
            Part::Target(_) => Start::Target,
            Part::Stmt(_) => Start::Stmt,
            Part::Again(_) => Start::Again,
        }
    }

    pub(crate) fn node(&self) -> NodeId
        ensures { result ≡ node_of self.now }
    {
        match self {
            Part::Expr(node) | Part::Target(node) | Part::Stmt(node) | Part::Again(node) => *node,
        }
    }
}

/// The frame, waiting at a point.
pub(crate) fn waiting_at(frame: Frame, point: Point) -> Frame
    ensures { result ≡ record frame { phase = Phase.Waiting point } }
{
    let mut frame = frame;
    frame.wait_at(point);
    frame
}
