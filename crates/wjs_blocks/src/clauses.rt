//! The clauses of a `switch` (section 12.11).
ghost use Rattle.std.specs.Prelude.{◌≡◌, ◌≤◌, ◌+◌, drop, slice_get, map, Some, IfOk, IfSome};
ghost use Rattle.std.specs.Option.{option_and_then};
ghost use Rattle.wjs_base.specs.Text.{Table};
ghost use Rattle.wjs_by_content.specs.Values.{Value};
ghost use Rattle.wjs_meaning.specs.Deeds.{Env};
ghost use Rattle.wjs_meaning.specs.Reading.{clause_in};
ghost use Rattle.wjs_meaning.specs.Statements.{switch_cases, from_default};
ghost use Rattle.wjs_frames.specs.Parts.{node_among};
ghost use Rattle.wjs_step_common.specs.Lists.{clauses_in, statements_of_clauses};
ghost use Rattle.wjs_blocks.specs.Switches.{case_goes};

use wjs_base::OutOfMemory;
use wjs_frames::node_at;
use wjs_model::{Config, Frame};
use wjs_store::WorldStore;
use wjs_tree::{Clause, Node, NodeId};

/// A clause with an expression, by its number.
#[derive(Clone, Copy)]
pub struct Case {
    pub at: usize,
    pub test: NodeId,
}

/// The clauses of a `switch` in the tree at hand; none where the node is none.
pub fn clauses_at<'a, S: WorldStore>(
    config: &'a Config<S>,
    frame: &Frame,
    node: NodeId,
) -> &'a [Clause]
    ensures { result.now ≡ clauses_in (node_among config.now.units.items frame.now.tree node) }
{
    match node_at(config, frame, node) {
        Some(Node::Switch(_, clauses)) => clauses.as_slice(),
        _ => &[],
    }
}

/// The first clause with an expression from one of a number on.
pub fn case_from(clauses: &[Clause], from: usize) -> Option<Case>
    ensures goes { (t : Table) (v : Value) (env : Env) → let all = map (clause_in t) clauses.now in
        switch_cases v all (drop from all) env ≡ case_goes v all result env }
    ensures is { IfSome result (λ c. option_and_then (λ x. x.test) (slice_get clauses.now c.at) ≡ Some c.test) }
    ensures past { IfSome result (λ c. from ≤ c.at) }
{
    for at in from..clauses.len() {
        let found = clauses[at].test;
        if let Some(test) = found {
            return Some(Case { at, test });
        }
    }
    None
}

/// The number of the clause `default`, and how many clauses there are without one.
pub fn default_of(clauses: &[Clause]) -> usize
    ensures { (t : Table) → from_default (map (clause_in t) clauses.now) ≡ drop result (map (clause_in t) clauses.now) }
{
    for at in 0..clauses.len() {
        let test = clauses[at].test;
        match test {
            Some(_) => {}
            None => return at,
        }
    }
    clauses.len()
}

/// How many statements stand in the clauses before one of a number. More than there are numbers for have no room in memory.
pub fn statements_before(clauses: &[Clause], clause: usize) -> Result<u32, OutOfMemory>
    ensures { IfOk result (λ at. drop at (statements_of_clauses clauses.now) ≡ statements_of_clauses (drop clause clauses.now)) }
{
    let mut before: u32 = 0;
    for at in 0..clauses.len() {
        if at >= clause {
            return Ok(before);
        }
        before = before_more(before, clauses[at].body.as_slice().len())?;
    }
    Ok(before)
}

/// The sum, where there is a number for it.
fn before_more(before: u32, more: usize) -> Result<u32, OutOfMemory>
    ensures { IfOk result (λ sum. sum ≡ before + more) }
{
    let Ok(more) = u32::try_from(more) else {
        return Err(OutOfMemory);
    };
    match before.checked_add(more) {
        Some(sum) => Ok(sum),
        None => Err(OutOfMemory),
    }
}

/// The statement of this number among those of the clauses; none past their end.
pub fn statement_at(clauses: &[Clause], at: u32) -> Option<NodeId>
    ensures { result ≡ slice_get (statements_of_clauses clauses.now) at }
{
    let mut left = at as usize;
    for clause in clauses {
        let statements = clause.body.as_slice();
        if left < statements.len() {
            return Some(statements[left]);
        }
        left -= statements.len();
    }
    None
}
