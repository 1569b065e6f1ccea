//! The statement `switch` (section 12.11). Its value is held while the cases are compared.
ghost use Rattle.std.specs.Prelude.{◌≡◌, drop};
ghost use Rattle.wjs_by_content.specs.Tables.{value_in};
ghost use Rattle.wjs_meaning.specs.Deeds.{then_value};
ghost use Rattle.wjs_meaning.specs.Reading.{node_in};
ghost use Rattle.wjs_meaning.specs.Statements.{statements_of, switch_next, switch_from, switch_cases, switch_value};
ghost use Rattle.wjs_model.specs.Contents.{completion_in, holding_in};
ghost use Rattle.wjs_model.specs.Lists.{clauses_of};
ghost use Rattle.wjs_model.specs.Waiting.{after_case};
ghost use Rattle.wjs_model.specs.Soundness.{HasValue, HasCompletion};
ghost use Rattle.wjs_frames.specs.Parts.{node_now};
ghost use Rattle.wjs_frames.specs.Handling.{Runs, GoesOn};
ghost use Rattle.wjs_step_common.specs.Lists.{clauses_in};

use crate::clauses::{case_from, clauses_at, default_of, statement_at, statements_before};
use wjs_base::{OutOfMemory, Value};
use wjs_effects::enter_at_once;
use wjs_frames::{Part, finish, hold};
use wjs_model::{Completion, Config, Frame, Held, Point, StmtPoint};
use wjs_quick::enter_quickly;
use wjs_step_common::{held_value, number_after, number_of, strictly_equal};
use wjs_store::WorldStore;
use wjs_tree::Clause;

/// The clauses of the `switch` that the frame runs; none where it runs none.
fn clauses_of<'a, S: WorldStore>(config: &'a Config<S>, frame: &Frame) -> &'a [Clause]
    ensures { result.now ≡ clauses_in (node_now S.meaning config.now frame.now) }
{
    clauses_at(config, frame, frame.node())
}

/// After the value of a `switch`: its cases come.
pub fn switch_value<S: WorldStore>(
    config: &mut Config<S>,
    frame: Frame,
    completion: Completion,
) -> Result<(), OutOfMemory>
    requires runs { Runs S.meaning config.old frame }
    requires completion { HasCompletion config.old completion }
    ensures { GoesOn S.meaning frame config.old config.new result (λ t env.
        then_value (switch_value (clauses_of (node_in t (node_now S.meaning config.old frame))) env) (completion_in t completion)) }
{
    match completion {
        Completion::Gives(value) => {
            let mut frame = frame;
            hold(&mut frame, Held::Value(value))?;
            cases_from(config, frame, 0)
        }
        other => finish(config, frame, other),
    }
}

/// The cases from one of a number on, for the value that is held: the first of them is asked for, or without one the statements
/// from `default` on are.
fn cases_from<S: WorldStore>(
    config: &mut Config<S>,
    frame: Frame,
    from: usize,
) -> Result<(), OutOfMemory>
    requires runs { Runs S.meaning config.old frame }
    ensures { GoesOn S.meaning frame config.old config.new result (λ t env.
        let all = clauses_of (node_in t (node_now S.meaning config.old frame)) in switch_cases (holding_in t frame.held).value all (drop from all) env) }
{
    match case_from(clauses_of(config, &frame), from) {
        Some(case) => {
            let at = number_of(case.at)?;
            let point = Point::Stmt(StmtPoint::CaseValue(at));
            enter_quickly(config, frame, point, Part::Expr(case.test))
        }
        None => {
            let clause = default_of(clauses_of(config, &frame));
            clauses_from(config, frame, clause)
        }
    }
}

/// After the value of the case of a number.
pub fn case_value<S: WorldStore>(
    config: &mut Config<S>,
    frame: Frame,
    at: u32,
    completion: Completion,
) -> Result<(), OutOfMemory>
    requires runs { Runs S.meaning config.old frame }
    requires completion { HasCompletion config.old completion }
    ensures { GoesOn S.meaning frame config.old config.new result (λ t env.
        let all = clauses_of (node_in t (node_now S.meaning config.old frame)) in
        then_value (after_case (holding_in t frame.held).value all (drop at all) env) (completion_in t completion)) }
{
    match completion {
        Completion::Gives(value) => case_compared(config, frame, at as usize, value),
        other => finish(config, frame, other),
    }
}

/// Where the value of a case is the `switch`'s, the statements from there on come, and else the next cases.
fn case_compared<S: WorldStore>(
    config: &mut Config<S>,
    frame: Frame,
    at: usize,
    value: Value,
) -> Result<(), OutOfMemory>
    requires runs { Runs S.meaning config.old frame }
    requires value { HasValue config.old value }
    ensures { GoesOn S.meaning frame config.old config.new result (λ t env.
        let all = clauses_of (node_in t (node_now S.meaning config.old frame)) in
        after_case (holding_in t frame.held).value all (drop at all) env (value_in t value)) }
{
    let sought = held_value(config, &frame);
    if at >= clauses_of(config, &frame).len() {
        finish(config, frame, Completion::Normal)
    } else if strictly_equal(config, sought, value) {
        clauses_from(config, frame, at)
    } else {
        cases_from(config, frame, at + 1)
    }
}

/// The statements of the clauses from one of a number on.
fn clauses_from<S: WorldStore>(
    config: &mut Config<S>,
    frame: Frame,
    clause: usize,
) -> Result<(), OutOfMemory>
    requires runs { Runs S.meaning config.old frame }
    ensures { GoesOn S.meaning frame config.old config.new result (λ t env.
        switch_from (statements_of (drop clause (clauses_of (node_in t (node_now S.meaning config.old frame))))) env) }
{
    let at = statements_before(clauses_of(config, &frame), clause)?;
    statements_from(config, frame, at)
}

/// The statements from the one of a number among all clauses' on.
fn statements_from<S: WorldStore>(
    config: &mut Config<S>,
    frame: Frame,
    at: u32,
) -> Result<(), OutOfMemory>
    requires runs { Runs S.meaning config.old frame }
    ensures { GoesOn S.meaning frame config.old config.new result (λ t env.
        switch_from (drop at (statements_of (clauses_of (node_in t (node_now S.meaning config.old frame))))) env) }
{
    match statement_at(clauses_of(config, &frame), at) {
        Some(statement) => {
            let next = number_after(at)?;
            let point = Point::Stmt(StmtPoint::ClauseStatement(next));
            enter_at_once(config, frame, point, statement)
        }
        None => finish(config, frame, Completion::Normal),
    }
}

/// After a statement of a clause, before the one of this number.
pub fn clause_statement<S: WorldStore>(
    config: &mut Config<S>,
    frame: Frame,
    at: u32,
    completion: Completion,
) -> Result<(), OutOfMemory>
    requires runs { Runs S.meaning config.old frame }
    requires completion { HasCompletion config.old completion }
    ensures { GoesOn S.meaning frame config.old config.new result (λ t env.
        switch_next (switch_from (drop at (statements_of (clauses_of (node_in t (node_now S.meaning config.old frame))))) env)
        (completion_in t completion)) }
{
    match completion {
        Completion::Normal => statements_from(config, frame, at),
        Completion::Breaks(None) => finish(config, frame, Completion::Normal),
        other => finish(config, frame, other),
    }
}
