//! What is left of a statement is done: an expression is evaluated, a value is returned or stored (ECMA-262, 3rd edition, sections 8.7.2,
//! 12.2, 12.4 and 12.9).
ghost use Rattle.std.specs.Prelude.{◌≡◌, ◌<◌, ◌∷◌, [], Some, length, IfNone, IfOk, IfSome, OnOk};
ghost use Rattle.wjs_base.specs.Text.{Has};
ghost use Rattle.wjs_scope.specs.Places.{placed_names};
ghost use Rattle.wjs_by_content.specs.Tables.{name_in, text_in, value_in};
ghost use Rattle.wjs_by_content.specs.Values.{Object};
ghost use Rattle.wjs_meaning.specs.Deeds.{Eval, Member, AtExpr, then_value};
ghost use Rattle.wjs_meaning.specs.Statements as line;
ghost use Rattle.wjs_model.specs.Contents.{completion_in, reference_in};
ghost use Rattle.wjs_model.specs.Soundness.{Base, IsThere, HasCompletion, HasName, HasObject, HasReference, HasValue};
ghost use Rattle.wjs_frames.specs.Doing.{Does};
ghost use Rattle.wjs_frames.specs.Following.{Later};
ghost use Rattle.wjs_frames.specs.Parts.{env_in, node_among};
ghost use Rattle.wjs_effects.specs.Effects.{carried, stored, stores, told_in, told_of, EndsOrThrows, HasEffect};
ghost use Rattle.wjs_effects.specs.Leaving.{ActEnds, Ends};
ghost use Rattle.wjs_effects.specs.Making.{made_in, HasMade};

use crate::effect::{Effect, Made, Told};
use crate::entries::dropped;
use crate::joins::settle;
use crate::makes::made_at;
use crate::stores::expression_done;
use wjs_base::{Name, ObjId, OutOfMemory, TextId, Value};
use wjs_by_content::PutAnswer;
use wjs_frames::place_at;
use wjs_heap_steps::{create_error, put, reference_at, store_local};
use wjs_meaning::Trouble;
use wjs_model::{Completion, Config, Frame, Reference};
use wjs_store::WorldStore;
use wjs_tree::NodeId;

/// How a statement ends of which this is left, with so many steps; None where a part has no value at once, and then nothing has changed.
pub(crate) fn carry_out<S: WorldStore>(
    config: &mut Config<S>,
    frame: &Frame,
    effect: Effect,
    left: u64,
) -> Result<Option<Completion>, OutOfMemory>
    requires base { Base S.meaning config.old }
    requires there { IsThere S.meaning config.old frame.now }
    requires effect { HasEffect config.old frame.now effect }
    ensures same { IfOk result (λ done. IfNone done (config.new ≡ config.old)) }
    ensures does { IfOk result (λ done. IfSome done (λ e. Ends S.meaning (carried effect) e config.old frame.now left config.new)) }
    ensures later { OnOk result (Later S.meaning config.old config.new) }
    ensures found { IfOk result (λ done. IfSome done (λ e. HasCompletion config.new e)) }
{
    match effect {
        Effect::Ends(completion) => {
            config.left = left;
            Ok(Some(completion))
        }
        Effect::Evaluates(e) => evaluate(config, frame, e, left),
        Effect::Returns(e) => give_back(config, frame, e, left),
        Effect::Initialises(node, name, e) => initialise(config, frame, node, name, e, left),
    }
}

/// An expression that stores, whose value is dropped.
#[inline(always)]
fn evaluate<S: WorldStore>(
    config: &mut Config<S>,
    frame: &Frame,
    e: NodeId,
    left: u64,
) -> Result<Option<Completion>, OutOfMemory>
    requires base { Base S.meaning config.old }
    requires there { IsThere S.meaning config.old frame.now }
    ensures same { IfOk result (λ done. IfNone done (config.new ≡ config.old)) }
    ensures does { IfOk result (λ done. IfSome done (λ d. ActEnds S.meaning (λ t env. Eval (AtExpr e.0) env (then_value line.expr_done))
        d config.old frame.now left config.new)) }
    ensures later { OnOk result (Later S.meaning config.old config.new) }
    ensures found { IfOk result (λ done. IfSome done (λ d. HasCompletion config.new d)) }
{
    let done = expression_done(config, frame, e, left)?;
    match done {
        Some(completion) => Ok(Some(dropped(completion))),
        None => Ok(None),
    }
}

/// The value of a `return`, which is made first where that is still to be done.
fn give_back<S: WorldStore>(
    config: &mut Config<S>,
    frame: &Frame,
    e: NodeId,
    left: u64,
) -> Result<Option<Completion>, OutOfMemory>
    requires base { Base S.meaning config.old }
    requires there { IsThere S.meaning config.old frame.now }
    ensures same { IfOk result (λ done. IfNone done (config.new ≡ config.old)) }
    ensures does { IfOk result (λ done. IfSome done (λ d. ActEnds S.meaning (λ t env. Eval (AtExpr e.0) env (then_value line.return_value))
        d config.old frame.now left config.new)) }
    ensures later { OnOk result (Later S.meaning config.old config.new) }
    ensures found { IfOk result (λ done. IfSome done (λ d. HasCompletion config.new d)) }
{
    let mut left = left;
    match made_at(config, frame, e, &mut left) {
        Some(made) => {
            config.left = left;
            let value = settle(config, made)?;
            Ok(Some(Completion::Returns(value)))
        }
        None => Ok(None),
    }
}

/// The variable of a `var`, by its name, gets the value of its initialiser.
fn initialise<S: WorldStore>(
    config: &mut Config<S>,
    frame: &Frame,
    node: NodeId,
    name: TextId,
    e: NodeId,
    left: u64,
) -> Result<Option<Completion>, OutOfMemory>
    requires base { Base S.meaning config.old }
    requires there { IsThere S.meaning config.old frame.now }
    requires named { 0 < length (placed_names (node_among config.old.units.items frame.now.tree node)) }
    requires name { Has config.old.heap.texts name }
    ensures same { IfOk result (λ done. IfNone done (config.new ≡ config.old)) }
    ensures does { IfOk result (λ done. IfSome done (λ d. ActEnds S.meaning (λ t env. line.vars_from node.0 0 ((text_in t name, Some e.0) ∷ []) env)
        d config.old frame.now left config.new)) }
    ensures later { OnOk result (Later S.meaning config.old config.new) }
    ensures found { IfOk result (λ done. IfSome done (λ d. HasCompletion config.new d)) }
{
    let mut left = left;
    match made_at(config, frame, e, &mut left) {
        Some(made) => {
            let place = place_at(config, frame, node, 0);
            let reference = reference_at(config, frame, place, name);
            let completion = store_made(config, frame, reference, made, Told::Nothing, left)?;
            Ok(Some(completion))
        }
        None => Ok(None),
    }
}

/// A value is made where that is still to be done, and stored; it is given, or nothing is.
#[inline(always)]
pub(crate) fn store_made<S: WorldStore>(
    config: &mut Config<S>,
    frame: &Frame,
    reference: Reference,
    made: Made,
    told: Told,
    left: u64,
) -> Result<Completion, OutOfMemory>
    requires base { Base S.meaning config.old }
    requires there { IsThere S.meaning config.old frame.now }
    requires reference { HasReference config.old reference }
    requires made { HasMade config.old made }
    ensures does { IfOk result (λ e. Ends S.meaning (stores reference made (λ t. told_in told (made_in t made))) e
        config.old frame.now left config.new) }
    ensures later { OnOk result (Later S.meaning config.old config.new) }
    ensures found { IfOk result (λ e. HasCompletion config.new e) }
{
    config.left = left;
    let value = settle(config, made)?;
    store_and_end(config, frame, reference, value, told_of(told, value))
}

/// How a store of a value ends.
#[inline(always)]
fn told_of(told: Told, value: Value) -> Completion
    ensures { result ≡ told_of told value }
{
    match told {
        Told::Stored => Completion::Gives(value),
        Told::Nothing => Completion::Normal,
    }
}

/// A store to a reference, and then an end: this completion, or what the store throws.
#[inline(always)]
pub fn store_and_end<S: WorldStore>(
    config: &mut Config<S>,
    frame: &Frame,
    reference: Reference,
    value: Value,
    completion: Completion,
) -> Result<Completion, OutOfMemory>
    requires base { Base S.meaning config.old }
    requires there { IsThere S.meaning config.old frame.now }
    requires reference { HasReference config.old reference }
    requires value { HasValue config.old value }
    requires completion { HasCompletion config.old completion }
    ensures does { IfOk result (λ e. Does S.meaning
        (λ t. stored (reference_in t reference) (value_in t value) (env_in S.meaning config.old t frame.now) (completion_in t completion))
        (λ t. completion_in t e) config.old config.new) }
    ensures later { OnOk result (Later S.meaning config.old config.new) }
    ensures found { IfOk result (λ e. HasCompletion config.new e) }
    ensures ends { IfOk result (λ e. EndsOrThrows completion e) }
{
    match reference {
        Reference::Local(scope, name) => {
            store_local(config, frame, scope, name, value)?;
            Ok(completion)
        }
        Reference::Global(name) => {
            let global = config.global;
            put_and_end(config, frame, global, name, value, completion)
        }
        Reference::Member(base, name) => {
            member_and_end(config, frame, base, name, value, completion)
        }
    }
}

/// A store to a member: that of a primitive stays as it is.
#[inline(always)]
fn member_and_end<S: WorldStore>(
    config: &mut Config<S>,
    frame: &Frame,
    base: Value,
    name: Name,
    value: Value,
    completion: Completion,
) -> Result<Completion, OutOfMemory>
    requires base { Base S.meaning config.old }
    requires there { IsThere S.meaning config.old frame.now }
    requires object { HasValue config.old base }
    requires name { HasName config.old name }
    requires value { HasValue config.old value }
    requires completion { HasCompletion config.old completion }
    ensures does { IfOk result (λ e. Does S.meaning
        (λ t. stored (Member (value_in t base) (name_in t name)) (value_in t value) (env_in S.meaning config.old t frame.now) (completion_in t completion))
        (λ t. completion_in t e) config.old config.new) }
    ensures later { OnOk result (Later S.meaning config.old config.new) }
    ensures found { IfOk result (λ e. HasCompletion config.new e) }
    ensures ends { IfOk result (λ e. EndsOrThrows completion e) }
{
    match base {
        Value::Object(object) => put_and_end(config, frame, object, name, value, completion),
        _ => Ok(completion),
    }
}

/// A put, after which a bad length of an Array is thrown.
fn put_and_end<S: WorldStore>(
    config: &mut Config<S>,
    frame: &Frame,
    object: ObjId,
    name: Name,
    value: Value,
    completion: Completion,
) -> Result<Completion, OutOfMemory>
    requires base { Base S.meaning config.old }
    requires there { IsThere S.meaning config.old frame.now }
    requires object { HasObject config.old object }
    requires name { HasName config.old name }
    requires value { HasValue config.old value }
    requires completion { HasCompletion config.old completion }
    ensures does { IfOk result (λ e. Does S.meaning
        (λ t. stored (Member (Object object) (name_in t name)) (value_in t value) (env_in S.meaning config.old t frame.now) (completion_in t completion))
        (λ t. completion_in t e) config.old config.new) }
    ensures later { OnOk result (Later S.meaning config.old config.new) }
    ensures found { IfOk result (λ e. HasCompletion config.new e) }
    ensures ends { IfOk result (λ e. EndsOrThrows completion e) }
{
    let answer = put(config, frame, object, name, value)?;
    match answer {
        PutAnswer::Done => Ok(completion),
        PutAnswer::Ignored => Ok(completion),
        PutAnswer::BadLength => {
            let error = create_error(config, Trouble::InvalidArrayLength)?;
            Ok(Completion::Throws(Value::Object(error)))
        }
    }
}
