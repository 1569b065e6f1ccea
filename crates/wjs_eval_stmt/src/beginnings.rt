//! What a statement begins with.
ghost use Rattle.std.specs.Prelude.{◌≡◌};
ghost use Rattle.wjs_frames.specs.Parts.{node_now};
ghost use Rattle.wjs_eval_stmt.specs.Beginnings.{beginning_of};

use wjs_base::Value;
use wjs_frames::{Part, node_of};
use wjs_model::{Completion, Config, Frame, StmtPoint};
use wjs_store::WorldStore;
use wjs_tree::{ForInit, Node, NodeId};

/// What a statement begins with.
#[derive(Clone, Copy)]
pub(crate) enum Beginning {
    /// A part is entered, and the statement goes on at the point after it.
    Enters(StmtPoint, Part),
    /// It ends at once.
    Ends(Completion),
    /// The statements of a block.
    Block,
    /// The initialisers of a `var`.
    Variables,
    /// A `for` at its first iteration: its test, its update and its body.
    Loop(Option<NodeId>, Option<NodeId>, NodeId),
    /// The `var`s of a `for`, which come before its first iteration.
    Declares,
}

/// What the statement begins with that the frame runs.
#[inline(always)]
pub(crate) fn beginning_of<S: WorldStore>(config: &Config<S>, frame: &Frame) -> Beginning
    ensures { result ≡ beginning_of (node_now S.meaning config.now frame.now) }
{
    match node_of(config, frame) {
        Some(node) => node_beginning(node),
        None => Beginning::Ends(Completion::Normal),
    }
}

/// By the statement's node; `;` and a function that is declared already do nothing.
#[inline(always)]
fn node_beginning(node: &Node) -> Beginning
    ensures { result ≡ beginning_of node.now }
{
    match node {
        Node::Block(_) => Beginning::Block,
        Node::Var(_, _) => Beginning::Variables,
        Node::Expr(e, _) => Beginning::Enters(StmtPoint::ExprValue, Part::Expr(*e)),
        Node::If(e, s, other) => Beginning::Enters(StmtPoint::IfTest(*s, *other), Part::Expr(*e)),
        Node::DoWhile(s, e, _) => Beginning::Enters(StmtPoint::DoBody(*e), Part::Stmt(*s)),
        Node::While(e, s) => Beginning::Enters(StmtPoint::WhileTest(*s), Part::Expr(*e)),
        Node::For(ForInit::Nothing, t, u, s) => Beginning::Loop(*t, *u, *s),
        Node::For(ForInit::Expr(e), _, _, _) => {
            Beginning::Enters(StmtPoint::ForFirst, Part::Expr(*e))
        }
        Node::For(ForInit::Var(_), _, _, _) => Beginning::Declares,
        Node::ForIn(_, e, s) => Beginning::Enters(StmtPoint::VisitsObject(*s), Part::Expr(*e)),
        Node::ForVarIn(_, e, s) => Beginning::Enters(StmtPoint::VisitsObject(*s), Part::Expr(*e)),
        Node::Continue(label, _) => Beginning::Ends(Completion::Continues(*label)),
        Node::Break(label, _) => Beginning::Ends(Completion::Breaks(*label)),
        Node::Return(Some(e), _) => Beginning::Enters(StmtPoint::ReturnValue, Part::Expr(*e)),
        Node::Return(None, _) => Beginning::Ends(Completion::Returns(Value::Undefined)),
        Node::Throw(e, _) => Beginning::Enters(StmtPoint::ThrowValue, Part::Expr(*e)),
        Node::Label(_, s) => Beginning::Enters(StmtPoint::LabelBody, Part::Stmt(*s)),
        Node::Switch(e, _) => Beginning::Enters(StmtPoint::SwitchValue, Part::Expr(*e)),
        Node::Try(s, _, last) => Beginning::Enters(StmtPoint::TryBlock(*last), Part::Stmt(*s)),
        Node::Within(e, s) => Beginning::Enters(StmtPoint::WithinWorld(*s), Part::Expr(*e)),
        _ => Beginning::Ends(Completion::Normal),
    }
}
