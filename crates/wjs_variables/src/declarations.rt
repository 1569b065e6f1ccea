//! What the body at a frame's node declares.
ghost use Rattle.std.specs.Prelude.{◌≡◌, All, IfOk, OnOk, Some, map, slice_get};
ghost use Rattle.wjs_base.specs.Text.{Table, Grows, Has, IsTable};
ghost use Rattle.wjs_by_content.specs.Tables.{text_in};
ghost use Rattle.wjs_meaning.specs.Deeds.{tree_here};
ghost use Rattle.wjs_meaning.specs.Declarations.{declared_by};
ghost use Rattle.wjs_meaning.specs.Functions as line;
ghost use Rattle.wjs_meaning.specs.Reading.{numbers};
ghost use Rattle.wjs_model.specs.Bodies.{others_by};
ghost use Rattle.wjs_model.specs.declared.loaded.LoadedProgram.{LoadedProgram as Program};
ghost use Rattle.wjs_model.specs.Soundness.{Base, IsThere};
ghost use Rattle.wjs_scope.specs.Bodies.{elements_at};
ghost use Rattle.wjs_scope.specs.Declarations.{functions_among};
ghost use Rattle.wjs_frames.specs.Doing.{DoesFirst};
ghost use Rattle.wjs_frames.specs.Parts.{env_in};
ghost use Rattle.wjs_frames.specs.Following.{Later};
ghost use Rattle.wjs_variables.specs.Filling.{program_filled, variable_declared};

use wjs_base::{Content, OutOfMemory, TextId, Value};
use wjs_calls::declare_functions;
use wjs_heap_steps::{name_of, read_content, write};
use wjs_model::{Config, Frame};
use wjs_scope::Declared;
use wjs_store::WorldStore;
use wjs_tree::NodeId;

/// What the body at the frame's node declares.
pub(crate) fn declared_at<S: WorldStore>(
    config: &Config<S>,
    frame: &Frame,
) -> Result<Declared, OutOfMemory>
    requires { Base S.meaning config.now }
    ensures formals { IfOk result (λ d. (t : Table) →
        map (text_in t) d.formals ≡ (declared_by (tree_here (env_in S.meaning config.now t frame.now)) frame.now.node.0).formals) }
    ensures functions { IfOk result
        (λ d. (t : Table) → numbers d.functions ≡ (declared_by (tree_here (env_in S.meaning config.now t frame.now)) frame.now.node.0).functions) }
    ensures nodes { IfOk result (λ d. (u : Program) → slice_get config.now.units.items frame.now.tree ≡ Some u →
        d.functions ≡ functions_among u.program.nodes (elements_at u.program.nodes frame.now.node.0)) }
    ensures variables { IfOk result
        (λ d. (t : Table) → IsTable t → Grows config.now.heap.texts t →
        map (text_in t) d.variables ≡ (declared_by (tree_here (env_in S.meaning config.now t frame.now)) frame.now.node.0).vars) }
    ensures others { IfOk result
        (λ d. (t : Table) → IsTable t → Grows config.now.heap.texts t →
        map (text_in t) d.others ≡ others_by (tree_here (env_in S.meaning config.now t frame.now))
        (declared_by (tree_here (env_in S.meaning config.now t frame.now)) frame.now.node.0)) }
    ensures formals_found { IfOk result (λ d. All (Has config.now.heap.texts) d.formals) }
    ensures variables_found { IfOk result (λ d. All (Has config.now.heap.texts) d.variables) }
    ensures others_found { IfOk result (λ d. All (Has config.now.heap.texts) d.others) }
{
    match config.units.get(frame.tree() as usize) {
        Some(unit) => unit.declared(frame.node()),
        None => Declared::nothing(config.heap.arena.allocator()),
    }
}

/// Declares a program's functions and variables on the global object.
pub fn declare_program<S: WorldStore>(
    config: &mut Config<S>,
    frame: &Frame,
) -> Result<(), OutOfMemory>
    requires base { Base S.meaning config.old }
    requires there { IsThere S.meaning config.old frame.now }
    requires body { (u : Program) → slice_get config.old.units.items frame.now.tree ≡ Some u → frame.now.node ≡ u.program.body }
    ensures does { OnOk result (DoesFirst S.meaning
        (λ t. program_filled (declared_by (tree_here (env_in S.meaning config.old t frame.now)) frame.now.node.0)
        (env_in S.meaning config.old t frame.now)) config.old config.new) }
    ensures later { OnOk result (Later S.meaning config.old config.new) }
{
    let declared = declared_at(config, frame)?;
    let global = config.global;
    declare_functions(config, frame, declared.functions(), global)?;
    declare_variables(config, frame, declared.variables())
}

/// Reads each variable's slot of the global object, and where it is absent writes undefined.
fn declare_variables<S: WorldStore>(
    config: &mut Config<S>,
    frame: &Frame,
    names: &[TextId],
) -> Result<(), OutOfMemory>
    requires base { Base S.meaning config.old }
    requires there { IsThere S.meaning config.old frame.now }
    requires names { All (Has config.old.heap.texts) names.now }
    ensures does { OnOk result (DoesFirst S.meaning
        (λ t. line.declare_variables (map (text_in t) names.now) (env_in S.meaning config.old t frame.now)) config.old config.new) }
    ensures later { OnOk result (Later S.meaning config.old config.new) }
{
    for name in names {
        declare_variable(config, frame, *name)?;
    }
    Ok(())
}

fn declare_variable<S: WorldStore>(
    config: &mut Config<S>,
    frame: &Frame,
    id: TextId,
) -> Result<(), OutOfMemory>
    requires base { Base S.meaning config.old }
    requires there { IsThere S.meaning config.old frame.now }
    requires text { Has config.old.heap.texts id }
    ensures does { OnOk result (DoesFirst S.meaning (λ t. variable_declared (text_in t id) (env_in S.meaning config.old t frame.now)) config.old config.new) }
    ensures later { OnOk result (Later S.meaning config.old config.new) }
{
    let global = config.global;
    let name = name_of(config, id);
    let found = read_content(config, frame, global, name)?;
    match found {
        Content::Present(_) => Ok(()),
        Content::Absent => write(config, frame, global, name, Value::Undefined),
    }
}

/// The node of the body of the frame's program; where there is no such program, the first node.
pub fn program_body<S: WorldStore>(config: &Config<S>, frame: &Frame) -> NodeId
    ensures is { (t : Table) → (tree_here (env_in S.meaning config.now t frame.now)).body ≡ result.0 }
    ensures body { (u : Program) → slice_get config.now.units.items frame.now.tree ≡ Some u → result ≡ u.program.body }
{
    match config.units.get(frame.tree() as usize) {
        Some(unit) => unit.program.body,
        None => NodeId(0),
    }
}
