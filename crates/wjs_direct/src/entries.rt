//! The frames of functions' bodies: they begin, and go on behind an element (ECMA-262, 3rd edition, sections 10.2.3 and 13.2.1).
ghost use Rattle.std.specs.Prelude.{◌≡◌, [], drop, Some};
ghost use Rattle.std.specs.FinMap as map;
ghost use Rattle.wjs_arena.specs.Entries.{Entry};
ghost use Rattle.wjs_base.specs.Text.{Table};
ghost use Rattle.wjs_by_content.specs.Objects.{object_at};
ghost use Rattle.wjs_by_content.specs.Tables.{arena_in};
ghost use Rattle.wjs_effects.specs.Sequences.{NextIs};
ghost use Rattle.wjs_meaning.specs.Deeds.{AtStmt, Eval};
ghost use Rattle.wjs_meaning.specs.Functions as line;
ghost use Rattle.wjs_meaning.specs.Reading.{node_in};
ghost use Rattle.wjs_meaning.specs.Trees.{elements_of};
ghost use Rattle.wjs_model.specs.Contents.{completion_in, holding_in};
ghost use Rattle.wjs_model.specs.Soundness.{Base, HasObject, HasCompletion, HasValue, IsThere, StandsHere};
ghost use Rattle.wjs_model.specs.Standing.{IsFunction};
ghost use Rattle.wjs_frames.specs.Following.{Later};
ghost use Rattle.wjs_frames.specs.Handling.{Runs, GoesOn, Begins, Resumes};
ghost use Rattle.wjs_frames.specs.Parts.{node_now, then_at};
ghost use Rattle.wjs_stopping.specs.Ends.{gives_in};
ghost use Rattle.wjs_stopping.specs.Evaluating.{Evaluates, HasOutcome, InMemory};
ghost use Rattle.wjs_direct_lines.specs.Deeds.{form_here, line_here};

use crate::bodies::run_body;
use crate::statements::{by_form, is_evaluated};
use wjs_arena::Code;
use wjs_base::{NodeId, ObjId, OutOfMemory, Value};
use wjs_direct_lines::{ROOM, body_ended};
use wjs_effects::{Sequence, dropped, element_at, enter_statement, statement_at_once};
use wjs_frames::finish;
use wjs_heap_steps::{code_of, scope_of};
use wjs_model::{CallPoint, Completion, Config, Frame, Point, Start, Trouble};
use wjs_step_common::{number_after, throw};
use wjs_stopping::{Broken, Stops, finish_value, waits};
use wjs_store::WorldStore;
use wjs_variables::enter_scope;

/// A function's body begins, by its code and its scope; the values that the frame holds are the arguments.
pub fn body<S: WorldStore>(
    config: &mut Config<S>,
    frame: Frame,
    function: ObjId,
) -> Result<(), OutOfMemory>
    requires runs { Runs S.meaning config.old frame }
    requires function { HasObject config.old function }
    ensures { Begins S.meaning frame (Start.Body function) config.old config.new result }
{
    match code_of(config, function) {
        Code::None => throw(config, frame, Trouble::NotAFunction),
        Code::Native(_) => throw(config, frame, Trouble::NotAFunction),
        Code::Script { tree, node } => begin_script(config, frame, function, tree, node),
    }
}

/// The body of a function that a script made, by its scope.
fn begin_script<S: WorldStore>(
    config: &mut Config<S>,
    frame: Frame,
    function: ObjId,
    tree: u32,
    node: NodeId,
) -> Result<(), OutOfMemory>
    requires runs { Runs S.meaning config.old frame }
    requires function { HasObject config.old function }
    requires code { (e : Entry) → map.get config.old.heap.arena function ≡ Some e → e.object.code ≡ Code.Script tree node }
    ensures { GoesOn S.meaning frame config.old config.new result (λ t env.
        line.body_code (Code.Script tree node) (object_at (arena_in t config.old.heap.arena) function).scope function (holding_in t frame.held).values env) }
{
    match scope_of(config, function) {
        None => throw(config, frame, Trouble::NotAFunction),
        Some(scope) => begin_scope(config, frame, function, tree, node, scope),
    }
}

/// The body at a node of a tree runs, in a scope of its own inside the function's scope. The arguments aren't held any more, so that a
/// run which goes deep doesn't keep their lists.
fn begin_scope<S: WorldStore>(
    config: &mut Config<S>,
    frame: Frame,
    function: ObjId,
    tree: u32,
    node: NodeId,
    scope: ObjId,
) -> Result<(), OutOfMemory>
    requires runs { Runs S.meaning config.old frame }
    requires function { HasObject config.old function }
    requires scope { HasObject config.old scope }
    requires stands { IsFunction config.old.units.items config.old.heap.arena tree node scope 0 }
    ensures { GoesOn S.meaning frame config.old config.new result (λ t env.
        line.body_scopes node.0 scope function (holding_in t frame.held).values (record env { tree = tree })) }
{
    let alloc = config.heap.arena.allocator();
    let values = frame.values(alloc)?;
    let mut frame = frame;
    frame.set_held(config.frames.nothing_held());
    enter_scope(
        config,
        &mut frame,
        function,
        tree,
        node,
        scope,
        values.as_slice(),
    )?;
    go_on(config, frame, 0)
}

/// After the element of a function's body before this number: a return gives its value.
pub fn after_body_element<S: WorldStore>(
    config: &mut Config<S>,
    frame: Frame,
    next: u32,
    completion: Completion,
) -> Result<(), OutOfMemory>
    requires runs { Runs S.meaning config.old frame }
    requires body { IsFunction config.old.units.items config.old.heap.arena frame.tree frame.node frame.scope 1 }
    requires completion { HasCompletion config.old completion }
    ensures { Resumes S.meaning frame (Point.Call (CallPoint.BodyElement next)) completion config.old config.new result }
{
    match completion {
        Completion::Normal => go_on(config, frame, next),
        Completion::Returns(value) => finish(config, frame, Completion::Gives(value)),
        _ => finish(config, frame, completion),
    }
}

/// After the expression that is the element of a function's body before this number.
pub fn after_body_value<S: WorldStore>(
    config: &mut Config<S>,
    frame: Frame,
    next: u32,
    completion: Completion,
) -> Result<(), OutOfMemory>
    requires runs { Runs S.meaning config.old frame }
    requires body { IsFunction config.old.units.items config.old.heap.arena frame.tree frame.node frame.scope 1 }
    requires completion { HasCompletion config.old completion }
    ensures { Resumes S.meaning frame (Point.Call (CallPoint.BodyValue next)) completion config.old config.new result }
{
    after_body_element(config, frame, next, dropped(completion))
}

/// The elements of a function's body from one on.
fn go_on<S: WorldStore>(config: &mut Config<S>, frame: Frame, from: u32) -> Result<(), OutOfMemory>
    requires runs { Runs S.meaning config.old frame }
    requires body { IsFunction config.old.units.items config.old.heap.arena frame.tree frame.node frame.scope 1 }
    ensures { GoesOn S.meaning frame config.old config.new result (λ t env.
        line.body_from (drop from (elements_of (node_in t (node_now S.meaning config.old frame)))) env) }
{
    match element_at(config, &frame, from) {
        Some(element) => go_on_with(config, frame, from, element),
        None => finish(config, frame, Completion::Gives(Value::Undefined)),
    }
}

/// The element of a number, which is this one, and those behind it.
fn go_on_with<S: WorldStore>(
    config: &mut Config<S>,
    frame: Frame,
    at: u32,
    element: NodeId,
) -> Result<(), OutOfMemory>
    requires runs { Runs S.meaning config.old frame }
    requires body { IsFunction config.old.units.items config.old.heap.arena frame.tree frame.node frame.scope 1 }
    requires element { (t : Table) → NextIs (elements_of (node_in t (node_now S.meaning config.old frame))) at (Some element) }
    ensures { GoesOn S.meaning frame config.old config.new result (λ t env.
        line.body_from (drop at (elements_of (node_in t (node_now S.meaning config.old frame)))) env) }
{
    let next = number_after(at)?;
    let done = statement_at_once(config, &frame, element)?;
    match done {
        Some(end) => {
            let mut stops = Stops::new(config.heap.arena.allocator());
            let value = rest_after(config, &frame, next, end, &mut stops);
            finish_value(config, frame, value, stops)
        }
        None => enter_element(config, frame, next, element),
    }
}

/// An element that is not done at once, and those from a number on: by its form, or the frame waits for it.
fn enter_element<S: WorldStore>(
    config: &mut Config<S>,
    frame: Frame,
    next: u32,
    element: NodeId,
) -> Result<(), OutOfMemory>
    requires runs { Runs S.meaning config.old frame }
    requires body { IsFunction config.old.units.items config.old.heap.arena frame.tree frame.node frame.scope 1 }
    requires element { StandsHere config.old frame element }
    ensures { GoesOn S.meaning frame config.old config.new result (λ t env. Eval (AtStmt element.0) env
        (then_at S.meaning config.old frame (Point.Call (CallPoint.BodyElement next)) t env)) }
{
    if is_evaluated(config, &frame, Sequence::Function, element) {
        let mut stops = Stops::new(config.heap.arena.allocator());
        let done = element_and_rest(config, &frame, next, element, &mut stops);
        finish_value(config, frame, done, stops)
    } else {
        let point = Point::Call(CallPoint::BodyElement(next));
        enter_statement(config, frame, point, element)
    }
}

/// An element of a body by its form, and those from a number on.
fn element_and_rest<S: WorldStore>(
    config: &mut Config<S>,
    frame: &Frame,
    next: u32,
    element: NodeId,
    stops: &mut Stops,
) -> Result<Value, Broken>
    requires base { Base S.meaning config.old }
    requires there { IsThere S.meaning config.old frame.now }
    requires body { IsFunction config.old.units.items config.old.heap.arena frame.now.tree frame.now.node frame.now.scope 1 }
    requires element { StandsHere config.old frame.now element }
    requires empty { stops.old.waits ≡ [] }
    ensures later { InMemory result (Later S.meaning config.old config.new) }
    ensures found { HasOutcome S.meaning HasValue config.new result stops.new.waits stops.new.top }
    ensures does { Evaluates S.meaning (form_here S.meaning config.old frame.now (AtStmt element.0)
        (λ t env. line.body_next (line.body_from (drop next (elements_of (node_in t (node_now S.meaning config.old frame.now)))) env)))
        gives_in result stops.new.waits stops.new.top config.old config.new }
{
    match by_form(config, frame, element, ROOM, stops) {
        Ok(end) => rest_after(config, frame, next, end, stops),
        Err(end) => {
            let point = Point::Call(CallPoint::BodyElement(next));
            Err(waits(config, frame, frame.node(), point, end, stops))
        }
    }
}

/// The elements of a body from a number on, behind the end of the one before it.
fn rest_after<S: WorldStore>(
    config: &mut Config<S>,
    frame: &Frame,
    next: u32,
    end: Completion,
    stops: &mut Stops,
) -> Result<Value, Broken>
    requires base { Base S.meaning config.old }
    requires there { IsThere S.meaning config.old frame.now }
    requires body { IsFunction config.old.units.items config.old.heap.arena frame.now.tree frame.now.node frame.now.scope 1 }
    requires end { HasCompletion config.old end }
    requires empty { stops.old.waits ≡ [] }
    ensures later { InMemory result (Later S.meaning config.old config.new) }
    ensures found { HasOutcome S.meaning HasValue config.new result stops.new.waits stops.new.top }
    ensures does { Evaluates S.meaning (line_here S.meaning config.old frame.now
        (λ t env. line.body_next (line.body_from (drop next (elements_of (node_in t (node_now S.meaning config.old frame.now)))) env) (completion_in t end)))
        gives_in result stops.new.waits stops.new.top config.old config.new }
{
    match end {
        Completion::Normal => run_body(config, frame, next, ROOM, stops),
        _ => body_ended(config, frame, next, end, stops),
    }
}
