//! Targets, expressions and statements that are done at once.
ghost use Rattle.std.specs.Prelude.{◌≡◌, IfNone, IfOk, IfSome, OnOk};
ghost use Rattle.wjs_meaning.specs.Deeds.{Eval, AtExpr, AtStmt, AtTarget, Refers};
ghost use Rattle.wjs_model.specs.Contents.{completion_in, reference_in};
ghost use Rattle.wjs_model.specs.Soundness.{Base, IsThere, HasCompletion, HasReference};
ghost use Rattle.wjs_frames.specs.Doing.{Does};
ghost use Rattle.wjs_frames.specs.Following.{Later};
ghost use Rattle.wjs_frames.specs.Parts.{env_in};

use crate::carries::carry_out;
use crate::statements::effect_at;
use crate::stores::expression_done;
use crate::targets::target_at;
use wjs_base::OutOfMemory;
use wjs_model::{Completion, Config, Frame, Reference};
use wjs_store::WorldStore;
use wjs_tree::NodeId;

/// How many statements stand in one another at most: deeper ones are run by frames.
const HEIGHT: u8 = 8;

/// The reference of a target, a name, `o.k` or `a[i]`, whose parts have their values at once and whose steps are taken: its deeds came
/// to it, and nothing but the steps that are left has changed. None in every other case, also where steps would be wanting; then
/// nothing has changed.
pub fn reference_at_once<S: WorldStore>(
    config: &mut Config<S>,
    frame: &Frame,
    node: NodeId,
) -> Option<Reference>
    requires base { Base S.meaning config.old }
    requires there { IsThere S.meaning config.old frame.now }
    ensures only { config.new ≡ record config.old { left = config.new.left } }
    ensures same { IfNone result (config.new ≡ config.old) }
    ensures does { IfSome result (λ r. Does S.meaning (λ t go. Eval (AtTarget node.0) (env_in S.meaning config.old t frame.now) go)
        (λ t. Refers (reference_in t r)) config.old config.new) }
    ensures later { Later S.meaning config.old config.new }
    ensures found { IfSome result (λ r. HasReference config.new r) }
{
    let mut left = config.left;
    let found = target_at(config, frame, node, &mut left)?;
    config.left = left;
    Some(found)
}

/// How an expression ends that is done at once: an assignment, `++` or `--` whose parts have their values at once. None in every
/// other case, also where steps would be wanting; then nothing has changed.
pub fn expression_at_once<S: WorldStore>(
    config: &mut Config<S>,
    frame: &Frame,
    node: NodeId,
) -> Result<Option<Completion>, OutOfMemory>
    requires base { Base S.meaning config.old }
    requires there { IsThere S.meaning config.old frame.now }
    ensures same { IfOk result (λ done. IfNone done (config.new ≡ config.old)) }
    ensures does { IfOk result (λ done. IfSome done (λ e. Does S.meaning (λ t go. Eval (AtExpr node.0) (env_in S.meaning config.old t frame.now) go)
        (λ t. completion_in t e) config.old config.new)) }
    ensures later { OnOk result (Later S.meaning config.old config.new) }
    ensures found { IfOk result (λ done. IfSome done (λ e. HasCompletion config.new e)) }
{
    let left = config.left;
    expression_done(config, frame, node, left)
}

/// How a statement ends that is done at once: `;`, an expression that stores, a `var` of one variable, `return`, `break`, `continue`,
/// and an `if` or a block of one of these, where all parts have their values at once. None in every other case, also where steps would be wanting; then
/// nothing has changed.
pub fn statement_at_once<S: WorldStore>(
    config: &mut Config<S>,
    frame: &Frame,
    node: NodeId,
) -> Result<Option<Completion>, OutOfMemory>
    requires base { Base S.meaning config.old }
    requires there { IsThere S.meaning config.old frame.now }
    ensures same { IfOk result (λ done. IfNone done (config.new ≡ config.old)) }
    ensures does { IfOk result (λ done. IfSome done (λ e. Does S.meaning (λ t go. Eval (AtStmt node.0) (env_in S.meaning config.old t frame.now) go)
        (λ t. completion_in t e) config.old config.new)) }
    ensures later { OnOk result (Later S.meaning config.old config.new) }
    ensures found { IfOk result (λ done. IfSome done (λ e. HasCompletion config.new e)) }
{
    let mut left = config.left;
    match effect_at(config, frame, node, HEIGHT, &mut left) {
        Some(effect) => carry_out(config, frame, effect, left),
        None => Ok(None),
    }
}
