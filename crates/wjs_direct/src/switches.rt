//! The statement `switch` (ECMA-262, 3rd edition, section 12.11): its value, its cases up to the first equal one, and the statements from
//! there on.
ghost use Rattle.std.specs.Prelude.{◌≡◌, ◌≤◌, IfOk, IfSome, [], slice_get};
ghost use Rattle.wjs_meaning.specs.Deeds.{AtExpr};
ghost use Rattle.wjs_model.specs.Contents.{completion_in};
ghost use Rattle.wjs_model.specs.Soundness.{Base, HasCompletion, HasValue, IsThere, StandsHere};
ghost use Rattle.wjs_frames.specs.Following.{Later};
ghost use Rattle.wjs_frames.specs.Parts.{node_among};
ghost use Rattle.wjs_step_common.specs.Lists.{clauses_in, statements_of_clauses};
ghost use Rattle.wjs_stopping.specs.Evaluating.{Evaluates, HasOutcome, InMemory};
ghost use Rattle.wjs_direct_lines.specs.Deeds.{form_here, line_here};
ghost use Rattle.wjs_direct.specs.Switches.{BeginsAt, DefaultsAt, IsCase, NextCase};
ghost use Rattle.wjs_direct.specs.Switches.{cases_left, clauses_left, sought_then, statements_left, switch_end};

use crate::expressions::value;
use crate::statements::statement;
use wjs_base::{OutOfMemory, Value};
use wjs_blocks::{Case, case_from, clauses_at, default_of, statement_at, statements_before};
use wjs_model::{Completion, Config, Frame, Held, Point, StmtPoint};
use wjs_step_common::{number_after, number_of, strictly_equal};
use wjs_stopping::{Broken, Stops, waits, waits_holding};
use wjs_store::WorldStore;
use wjs_tree::NodeId;

/// A `switch`: its value, and then its cases.
#[cycle(direct)]
#[inline(never)]
pub(crate) fn switch<S: WorldStore>(
    config: &mut Config<S>,
    frame: &Frame,
    node: NodeId,
    e: NodeId,
    room: u16,
    stops: &mut Stops,
) -> Result<Completion, Broken>
    requires base { Base S.meaning config.old }
    requires there { IsThere S.meaning config.old frame.now }
    requires node { StandsHere config.old frame.now node }
    requires empty { stops.old.waits ≡ [] }
    requires part { StandsHere config.old frame.now e }
    ensures later { InMemory result (Later S.meaning config.old config.new) }
    ensures found { HasOutcome S.meaning HasCompletion config.new result stops.new.waits stops.new.top }
    ensures does { Evaluates S.meaning (form_here S.meaning config.old frame.now (AtExpr e.0) (sought_then config.old frame.now node))
        completion_in result stops.new.waits stops.new.top config.old config.new }
{
    match value(config, frame, e, room, stops) {
        Ok(sought) => cases(config, frame, node, sought, room, stops),
        Err(end) => {
            let point = Point::Stmt(StmtPoint::SwitchValue);
            Err(waits(config, frame, node, point, end, stops))
        }
    }
}

/// The cases in order, in one Rust loop, up to the first whose value is equal to the `switch`'s, and then the statements from its clause
/// on; without one those from `default` on. The `switch`'s value is held where one stops.
#[cycle(direct)]
#[inline(never)]
fn cases<S: WorldStore>(
    config: &mut Config<S>,
    frame: &Frame,
    node: NodeId,
    sought: Value,
    room: u16,
    stops: &mut Stops,
) -> Result<Completion, Broken>
    requires base { Base S.meaning config.old }
    requires there { IsThere S.meaning config.old frame.now }
    requires node { StandsHere config.old frame.now node }
    requires empty { stops.old.waits ≡ [] }
    requires sought { HasValue config.old sought }
    ensures later { InMemory result (Later S.meaning config.old config.new) }
    ensures found { HasOutcome S.meaning HasCompletion config.new result stops.new.waits stops.new.top }
    ensures does { Evaluates S.meaning (line_here S.meaning config.old frame.now (cases_left config.old frame.now node sought 0))
        completion_in result stops.new.waits stops.new.top config.old config.new }
{
    let mut from = 0u32;
    while let Some(case) = case_at(config, frame, node, from) {
        let at = number_of(case.at)?;
        let next = number_after(at)?;
        match value(config, frame, case.test, room, stops) {
            Ok(tested) => {
                if strictly_equal(config, sought, tested) {
                    return run_clauses(config, frame, node, sought, at, room, stops);
                }
                from = next;
            }
            Err(end) => {
                let held = Held::Value(sought);
                let point = Point::Stmt(StmtPoint::CaseValue(at));
                return Err(waits_holding(config, frame, node, held, point, end, stops));
            }
        }
    }
    let first = default_at(config, frame, node)?;
    run_statements(config, frame, node, sought, first, room, stops)
}

/// The statements of the clauses from the one of a number on.
#[cycle(direct)]
fn run_clauses<S: WorldStore>(
    config: &mut Config<S>,
    frame: &Frame,
    node: NodeId,
    sought: Value,
    clause: u32,
    room: u16,
    stops: &mut Stops,
) -> Result<Completion, Broken>
    requires base { Base S.meaning config.old }
    requires there { IsThere S.meaning config.old frame.now }
    requires node { StandsHere config.old frame.now node }
    requires empty { stops.old.waits ≡ [] }
    requires sought { HasValue config.old sought }
    ensures later { InMemory result (Later S.meaning config.old config.new) }
    ensures found { HasOutcome S.meaning HasCompletion config.new result stops.new.waits stops.new.top }
    ensures does { Evaluates S.meaning (line_here S.meaning config.old frame.now (clauses_left config.old frame.now node clause))
        completion_in result stops.new.waits stops.new.top config.old config.new }
{
    let first = first_statement(config, frame, node, clause as usize)?;
    run_statements(config, frame, node, sought, first, room, stops)
}

/// The first case from a number on.
fn case_at<S: WorldStore>(
    config: &Config<S>,
    frame: &Frame,
    node: NodeId,
    from: u32,
) -> Option<Case>
    ensures goes { NextCase config.now frame.now node from result }
    ensures is { IfSome result (λ case. IsCase config.now frame.now node case.at case.test) }
    ensures past { IfSome result (λ case. from ≤ case.at) }
{
    case_from(clauses_at(config, frame, node), from as usize)
}

/// The number of the first statement of the clauses from one of a number on.
fn first_statement<S: WorldStore>(
    config: &Config<S>,
    frame: &Frame,
    node: NodeId,
    clause: usize,
) -> Result<u32, OutOfMemory>
    ensures { IfOk result (λ at. BeginsAt config.now frame.now node clause at) }
{
    let at = statements_before(clauses_at(config, frame, node), clause)?;
    Ok(at)
}

/// The number of the first statement from `default` on.
fn default_at<S: WorldStore>(
    config: &Config<S>,
    frame: &Frame,
    node: NodeId,
) -> Result<u32, OutOfMemory>
    ensures { IfOk result (λ at. DefaultsAt config.now frame.now node at) }
{
    let clause = default_of(clauses_at(config, frame, node));
    let at = first_statement(config, frame, node, clause)?;
    Ok(at)
}

/// The statements of all clauses from the one of a number on, in one Rust loop; the `switch`'s value is held where one stops.
#[cycle(direct)]
#[inline(never)]
fn run_statements<S: WorldStore>(
    config: &mut Config<S>,
    frame: &Frame,
    node: NodeId,
    sought: Value,
    from: u32,
    room: u16,
    stops: &mut Stops,
) -> Result<Completion, Broken>
    requires base { Base S.meaning config.old }
    requires there { IsThere S.meaning config.old frame.now }
    requires node { StandsHere config.old frame.now node }
    requires empty { stops.old.waits ≡ [] }
    requires sought { HasValue config.old sought }
    ensures later { InMemory result (Later S.meaning config.old config.new) }
    ensures found { HasOutcome S.meaning HasCompletion config.new result stops.new.waits stops.new.top }
    ensures does { Evaluates S.meaning (line_here S.meaning config.old frame.now (statements_left config.old frame.now node from))
        completion_in result stops.new.waits stops.new.top config.old config.new }
{
    let mut at = from;
    while let Some(part) = part_at(config, frame, node, at) {
        let next = number_after(at)?;
        match statement(config, frame, part, room, stops) {
            Ok(end) => match end {
                Completion::Normal => at = next,
                _ => return Ok(ended(end)),
            },
            Err(end) => {
                let held = Held::Value(sought);
                let point = Point::Stmt(StmtPoint::ClauseStatement(next));
                return Err(waits_holding(config, frame, node, held, point, end, stops));
            }
        }
    }
    Ok(Completion::Normal)
}

/// The statement of a number among all clauses'.
#[inline(always)]
fn part_at<S: WorldStore>(
    config: &Config<S>,
    frame: &Frame,
    node: NodeId,
    at: u32,
) -> Option<NodeId>
    ensures { result ≡ slice_get (statements_of_clauses (clauses_in (node_among config.now.units.items frame.now.tree node))) at }
{
    statement_at(clauses_at(config, frame, node), at)
}

/// How a `switch` ends by a statement that didn't end normally: a `break` without a label ends it.
fn ended(end: Completion) -> Completion
    ensures { result ≡ switch_end end }
{
    match end {
        Completion::Breaks(None) => Completion::Normal,
        other => other,
    }
}
