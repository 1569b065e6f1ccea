//! Which part of a condition its test picks (ECMA-262, 3rd edition, section 11.12).
ghost use Rattle.std.specs.Prelude.{◌≡◌};
ghost use Rattle.wjs_base.specs.Text.{Table, Grows};
ghost use Rattle.wjs_by_content.specs.Tables.{value_in};
ghost use Rattle.wjs_meaning.specs.Deeds.{AtExpr, Env, Eval, Ret};
ghost use Rattle.wjs_meaning.specs.Expressions as line;
ghost use Rattle.wjs_model.specs.Soundness.{Base, HasValue, StandsHere};

use wjs_base::Value;
use wjs_model::{Config, Frame};
use wjs_step_common::to_boolean;
use wjs_store::WorldStore;
use wjs_tree::NodeId;

/// The part of a condition that is entered after its test.
#[inline(always)]
pub fn picked<S: WorldStore>(
    config: &Config<S>,
    frame: &Frame,
    truth: Value,
    yes: NodeId,
    no: NodeId,
) -> NodeId
    requires base { Base S.meaning config.now }
    requires yes { StandsHere config.now frame.now yes }
    requires no { StandsHere config.now frame.now no }
    requires value { HasValue config.now truth }
    ensures is { (t : Table) → Grows config.now.heap.texts t → (env : Env) →
        line.cond_test yes.0 no.0 env (value_in t truth) ≡ Eval (AtExpr result.0) env Ret }
    ensures stands { StandsHere config.now frame.now result }
{
    let _frame = frame;
    if to_boolean(config, truth) { yes } else { no }
}
