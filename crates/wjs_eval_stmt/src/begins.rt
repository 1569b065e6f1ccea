//! Statements at their entry, loops at their next iteration, and the `var`s of a `for`.
ghost use Rattle.std.specs.Prelude.{◌≡◌, IfSome, IfNone};
ghost use Rattle.wjs_by_content.specs.Tables.{value_in};
ghost use Rattle.wjs_meaning.specs.Deeds.{Eval, Gives};
ghost use Rattle.wjs_model.specs.Soundness.{Base, IsThere, HasPoint, HasValue, StandsHere};
ghost use Rattle.wjs_frames.specs.Doing.{Does};
ghost use Rattle.wjs_frames.specs.Following.{Later};
ghost use Rattle.wjs_frames.specs.Parts.{goal_of, env_in, node_of, then_at};
ghost use Rattle.wjs_frames.specs.Handling.{Runs, Begins, GoesOn};

use crate::beginnings::{Beginning, beginning_of};
use crate::blocks::block_from;
use crate::resumes::stmt_after;
use wjs_base::{OutOfMemory, Value};
use wjs_frames::{Part, enter, finish, node_of};
use wjs_loops::{for_again, for_from, for_variables, stmt_iteration, variables_from, while_again};
use wjs_model::{Completion, Config, Frame, Point, Start, StmtPoint};
use wjs_quick::quick;
use wjs_store::WorldStore;
use wjs_tree::Node;

/// A statement at its entry (ECMA-262, 3rd edition, section 12).
pub fn statement<S: WorldStore>(config: &mut Config<S>, frame: Frame) -> Result<(), OutOfMemory>
    requires runs { Runs S.meaning config.old frame }
    ensures { Begins S.meaning frame Start.Stmt config.old config.new result }
{
    match beginning_of(config, &frame) {
        Beginning::Enters(point, part) => begin_part(config, frame, point, part),
        Beginning::Ends(completion) => finish(config, frame, completion),
        Beginning::Block => block_from(config, frame, 0),
        Beginning::Variables => variables_from(config, frame, 0),
        Beginning::Loop(t, u, s) => for_from(config, frame, t, u, s),
        Beginning::Declares => for_variables(config, frame),
    }
}

/// The first part of a statement: it has its value at once, with which the statement goes on, or is entered.
fn begin_part<S: WorldStore>(
    config: &mut Config<S>,
    frame: Frame,
    point: StmtPoint,
    part: Part,
) -> Result<(), OutOfMemory>
    requires runs { Runs S.meaning config.old frame }
    requires point { HasPoint config.old frame (Point.Stmt point) }
    requires part { StandsHere config.old frame (node_of part) }
    ensures { GoesOn S.meaning frame config.old config.new result (λ t env.
        Eval (goal_of part) env (then_at S.meaning config.old frame (Point.Stmt point) t env)) }
{
    match value_at_once(config, &frame, point, part) {
        Some(value) => stmt_after(config, frame, point, Completion::Gives(value)),
        None => enter(config, frame, Point::Stmt(point), part),
    }
}

/// What `quick` finds; an expression that is a statement isn't asked, since it is there for an effect.
#[inline(always)]
fn value_at_once<S: WorldStore>(
    config: &mut Config<S>,
    frame: &Frame,
    point: StmtPoint,
    part: Part,
) -> Option<Value>
    requires base { Base S.meaning config.old }
    requires there { IsThere S.meaning config.old frame.now }
    ensures only { config.new ≡ record config.old { left = config.new.left } }
    ensures same { IfNone result (config.new ≡ config.old) }
    ensures does { IfSome result (λ v. Does S.meaning (λ t go. Eval (goal_of part) (env_in S.meaning config.old t frame.now) go)
        (λ t. Gives (value_in t v)) config.old config.new) }
    ensures later { Later S.meaning config.old config.new }
    ensures found { IfSome result (λ v. HasValue config.new v) }
{
    match point {
        StmtPoint::ExprValue => None,
        _ => quick(config, frame, part),
    }
}

/// A loop at its next iteration (section 12.6).
pub fn again<S: WorldStore>(config: &mut Config<S>, frame: Frame) -> Result<(), OutOfMemory>
    requires runs { Runs S.meaning config.old frame }
    ensures { Begins S.meaning frame Start.Again config.old config.new result }
{
    match node_of(config, &frame) {
        Some(Node::While(e, s)) => {
            let (e, s) = (*e, *s);
            while_again(config, frame, e, s)
        }
        Some(Node::For(_, t, u, s)) => {
            let (t, u, s) = (*t, *u, *s);
            for_again(config, frame, t, u, s)
        }
        Some(Node::DoWhile(s, e, _)) => {
            let (s, e) = (*s, *e);
            stmt_iteration(config, frame, Point::Stmt(StmtPoint::DoBody(e)), s)
        }
        _ => finish(config, frame, Completion::Normal),
    }
}

/// The `var`s of a `for` (section 12.6.3).
pub fn variables<S: WorldStore>(config: &mut Config<S>, frame: Frame) -> Result<(), OutOfMemory>
    requires runs { Runs S.meaning config.old frame }
    ensures { Begins S.meaning frame Start.Variables config.old config.new result }
{
    variables_from(config, frame, 0)
}
