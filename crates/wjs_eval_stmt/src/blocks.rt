//! Blocks (section 12.1).
ghost use Rattle.std.specs.Prelude.{drop};
ghost use Rattle.wjs_meaning.specs.Deeds.{then_normal};
ghost use Rattle.wjs_meaning.specs.Reading.{node_in};
ghost use Rattle.wjs_meaning.specs.Statements.{block_from};
ghost use Rattle.wjs_model.specs.Contents.{completion_in};
ghost use Rattle.wjs_model.specs.Lists.{block_items};
ghost use Rattle.wjs_model.specs.Soundness.{HasCompletion};
ghost use Rattle.wjs_frames.specs.Parts.{node_now};
ghost use Rattle.wjs_frames.specs.Handling.{Runs, GoesOn, Resumes};

use wjs_base::OutOfMemory;
use wjs_direct::run_elements;
use wjs_effects::{Sequence, dropped};
use wjs_frames::finish;
use wjs_model::{Completion, Config, Frame, Point, StmtPoint};
use wjs_store::WorldStore;

/// The statements of a block, from the one of this number on: those that are done at once, and the next one by recursion or by a frame.
pub(crate) fn block_from<S: WorldStore>(
    config: &mut Config<S>,
    frame: Frame,
    at: u32,
) -> Result<(), OutOfMemory>
    requires runs { Runs S.meaning config.old frame }
    ensures { GoesOn S.meaning frame config.old config.new result (λ t env.
        block_from (drop at (block_items (node_in t (node_now S.meaning config.old frame)))) env) }
{
    run_elements(config, frame, Sequence::Block, at)
}

/// After a statement of a block, before the one of this number.
pub(crate) fn block_statement<S: WorldStore>(
    config: &mut Config<S>,
    frame: Frame,
    at: u32,
    completion: Completion,
) -> Result<(), OutOfMemory>
    requires runs { Runs S.meaning config.old frame }
    requires completion { HasCompletion config.old completion }
    ensures { GoesOn S.meaning frame config.old config.new result (λ t env.
        then_normal (block_from (drop at (block_items (node_in t (node_now S.meaning config.old frame)))) env) (completion_in t completion)) }
{
    match completion {
        Completion::Normal => block_from(config, frame, at),
        other => finish(config, frame, other),
    }
}

/// After the expression of a block's statement, before the statement of this number.
pub(crate) fn block_value<S: WorldStore>(
    config: &mut Config<S>,
    frame: Frame,
    at: u32,
    completion: Completion,
) -> Result<(), OutOfMemory>
    requires runs { Runs S.meaning config.old frame }
    requires completion { HasCompletion config.old completion }
    ensures { Resumes S.meaning frame (Point.Stmt (StmtPoint.BlockValue at)) completion config.old config.new result }
{
    block_statement(config, frame, at, dropped(completion))
}
