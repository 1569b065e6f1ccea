//! Variables with initialisers, of a `var` and of a `for` (sections 12.2 and 12.6.3).
ghost use Rattle.std.specs.Prelude.{◌≡◌, ◌<◌, ◌+◌, ◌^◌, length, drop, slice_get, IfSome};
ghost use Rattle.std.specs.Option.{option_map};
ghost use Rattle.wjs_base.specs.Text.{Table, Has};
ghost use Rattle.wjs_scope.specs.Places.{placed_names};
ghost use Rattle.wjs_by_content.specs.Tables.{value_in};
ghost use Rattle.wjs_meaning.specs.Trees.{name_place};
ghost use Rattle.wjs_meaning.specs.Deeds.{tree_here, then_value};
ghost use Rattle.wjs_meaning.specs.Reading.{node_in};
ghost use Rattle.wjs_meaning.specs.Statements.{vars_from};
ghost use Rattle.wjs_model.specs.Contents.{completion_in};
ghost use Rattle.wjs_model.specs.Lists.{variables_of};
ghost use Rattle.wjs_model.specs.Soundness.{Base, HasValue, HasCompletion};
ghost use Rattle.wjs_model.specs.Units.{place_in};
ghost use Rattle.wjs_model.specs.Waiting.{after_variable, store_variable};
ghost use Rattle.wjs_frames.specs.Parts.{env_in, node_now};
ghost use Rattle.wjs_frames.specs.Handling.{Runs, GoesOn};
ghost use Rattle.wjs_effects.specs.Variables.{declarators_in};

use crate::assigns::assign;
use wjs_base::{OutOfMemory, TextId, Value};
use wjs_effects::initialiser_from;
use wjs_frames::{Part, enter, finish, node_of};
use wjs_model::{Completion, Config, Frame, Point, StmtPoint};
use wjs_quick::enter_quickly;
use wjs_scope::Place;
use wjs_step_common::number_of;
use wjs_store::WorldStore;
use wjs_tree::{Declarator, ForInit, Node};

/// The variables of the frame's node.
fn declarators_of<'a, S: WorldStore>(config: &'a Config<S>, frame: &Frame) -> &'a [Declarator]
    ensures { result.now ≡ declarators_in (node_now S.meaning config.now frame.now) }
{
    match node_of(config, frame) {
        Some(Node::Var(variables, _)) => variables.as_slice(),
        Some(Node::For(ForInit::Var(variables), _, _, _)) => variables.as_slice(),
        _ => &[],
    }
}

/// The name of a variable of this number.
fn name_at<S: WorldStore>(config: &Config<S>, frame: &Frame, at: usize) -> Option<TextId>
    requires { Base S.meaning config.now }
    ensures is { result ≡ option_map (λ d. d.name) (slice_get (declarators_in (node_now S.meaning config.now frame.now)) at) }
    ensures found { IfSome result (Has config.now.heap.texts) }
    ensures within { IfSome result (λ _. at + 1 < 2 ^ 64) }
{
    match declarators_of(config, frame).get(at) {
        Some(declarator) => Some(declarator.name),
        None => None,
    }
}

/// Where the name of a variable of this number is found.
pub fn place_of<S: WorldStore>(config: &Config<S>, frame: &Frame, at: usize) -> Place
    requires named { at < length (placed_names (node_now S.meaning config.now frame.now)) }
    ensures { (t : Table) → name_place (tree_here (env_in S.meaning config.now t frame.now)) frame.now.node.0 at ≡ place_in result }
{
    wjs_frames::place_at(config, frame, frame.node(), at)
}

/// The variables from one of a number on: the first initialiser is asked for.
pub fn variables_from<S: WorldStore>(
    config: &mut Config<S>,
    frame: Frame,
    from: usize,
) -> Result<(), OutOfMemory>
    requires runs { Runs S.meaning config.old frame }
    ensures { GoesOn S.meaning frame config.old config.new result (λ t env.
        vars_from frame.node.0 from (drop from (variables_of (node_in t (node_now S.meaning config.old frame)))) env) }
{
    match initialiser_from(declarators_of(config, &frame), from) {
        Some(initialiser) => {
            let at = number_of(initialiser.at)?;
            let point = Point::Stmt(StmtPoint::VariableValue(at));
            enter_quickly(config, frame, point, Part::Expr(initialiser.value))
        }
        None => finish(config, frame, Completion::Normal),
    }
}

/// After the initialiser of the variable of a number.
pub fn variable_value<S: WorldStore>(
    config: &mut Config<S>,
    frame: Frame,
    at: u32,
    completion: Completion,
) -> Result<(), OutOfMemory>
    requires runs { Runs S.meaning config.old frame }
    requires completion { HasCompletion config.old completion }
    ensures { GoesOn S.meaning frame config.old config.new result (λ t env.
        then_value (after_variable frame.node.0 (variables_of (node_in t (node_now S.meaning config.old frame))) at env) (completion_in t completion)) }
{
    match completion {
        Completion::Gives(value) => variable_stored(config, frame, at as usize, value),
        other => finish(config, frame, other),
    }
}

/// The value is stored to the name, and then come the variables behind it.
fn variable_stored<S: WorldStore>(
    config: &mut Config<S>,
    frame: Frame,
    at: usize,
    value: Value,
) -> Result<(), OutOfMemory>
    requires runs { Runs S.meaning config.old frame }
    requires value { HasValue config.old value }
    ensures { GoesOn S.meaning frame config.old config.new result (λ t env.
        store_variable frame.node.0 (drop at (variables_of (node_in t (node_now S.meaning config.old frame)))) at env (value_in t value)) }
{
    match name_at(config, &frame, at) {
        Some(name) => {
            let place = place_of(config, &frame, at);
            match assign(config, &frame, place, name, value)? {
                Ok(()) => variables_from(config, frame, at + 1),
                Err(error) => finish(config, frame, Completion::Throws(error)),
            }
        }
        None => finish(config, frame, Completion::Normal),
    }
}
