//! The completions of literals, `this`, names and references (ECMA-262, 3rd edition, sections 8.7.1 and 11.1.1 to 11.1.3).
ghost use Rattle.std.specs.Prelude.{◌≡◌, IfOk, OnOk};
ghost use Rattle.wjs_base.specs.Text.{Has};
ghost use Rattle.wjs_by_content.specs.Tables.{name_in, text_in};
ghost use Rattle.wjs_meaning.specs.Deeds.{Gives, Local, Global};
ghost use Rattle.wjs_model.specs.Contents.{completion_in, operand_in, reference_in};
ghost use Rattle.wjs_model.specs.Operands.{evaluated, named, with_operand};
ghost use Rattle.wjs_model.specs.Soundness.{Base, IsThere, HasCompletion, HasName, HasObject, HasOperand, HasReference};
ghost use Rattle.wjs_model.specs.Units.{place_in};
ghost use Rattle.wjs_frames.specs.Doing.{Does};
ghost use Rattle.wjs_frames.specs.Following.{Later};
ghost use Rattle.wjs_frames.specs.Parts.{env_in};
ghost use Rattle.wjs_heap_steps.specs.Reads.{GivesOrThrows};

use crate::errors::create_undefined;
use crate::properties::get;
use crate::references::{local_value, reference_at};
use crate::values::member_value;
use wjs_base::{Content, Name, ObjId, OutOfMemory, TextId, Value};
use wjs_model::{Completion, Config, Frame, Operand, Reference};
use wjs_scope::Place;
use wjs_store::WorldStore;

/// The completion of an operand, where a frame is run.
#[inline(always)]
pub fn operand_completion<S: WorldStore>(
    config: &mut Config<S>,
    frame: &Frame,
    operand: Operand,
) -> Result<Completion, OutOfMemory>
    requires base { Base S.meaning config.old }
    requires there { IsThere S.meaning config.old frame.now }
    requires operand { HasOperand config.old operand }
    ensures does { IfOk result (λ completion. Does S.meaning (λ t. with_operand (operand_in t operand) (env_in S.meaning config.old t frame.now))
        (λ t. completion_in t completion) config.old config.new) }
    ensures later { OnOk result (Later S.meaning config.old config.new) }
    ensures found { IfOk result (λ completion. HasCompletion config.new completion) }
{
    match operand {
        Operand::Value(value) => Ok(Completion::Gives(value)),
        Operand::Name(place, id) => name_completion(config, frame, place, id),
        Operand::Target(place, id) => {
            Ok(Completion::Refers(reference_at(config, frame, place, id)))
        }
    }
}

/// The value of a name at its place, or what is thrown; OutOfMemory where memory ran out (ECMA-262, 3rd edition, section 11.1.2).
#[inline(always)]
pub fn name_completion<S: WorldStore>(
    config: &mut Config<S>,
    frame: &Frame,
    place: Place,
    id: TextId,
) -> Result<Completion, OutOfMemory>
    requires base { Base S.meaning config.old }
    requires there { IsThere S.meaning config.old frame.now }
    requires text { Has config.old.heap.texts id }
    ensures does { IfOk result (λ completion. Does S.meaning (λ t. named (place_in place) (text_in t id) (env_in S.meaning config.old t frame.now))
        (λ t. completion_in t completion) config.old config.new) }
    ensures later { OnOk result (Later S.meaning config.old config.new) }
    ensures found { IfOk result (λ completion. HasCompletion config.new completion) }
    ensures ends { IfOk result (λ completion. GivesOrThrows completion) }
{
    let reference = reference_at(config, frame, place, id);
    reference_completion(config, frame, reference)
}

/// The value of a reference, or what its read throws; OutOfMemory where memory ran out (ECMA-262, 3rd edition, section 8.7.1).
#[inline(always)]
pub fn reference_completion<S: WorldStore>(
    config: &mut Config<S>,
    frame: &Frame,
    reference: Reference,
) -> Result<Completion, OutOfMemory>
    requires base { Base S.meaning config.old }
    requires there { IsThere S.meaning config.old frame.now }
    requires reference { HasReference config.old reference }
    ensures does { IfOk result (λ completion. Does S.meaning (λ t. evaluated (reference_in t reference) (env_in S.meaning config.old t frame.now))
        (λ t. completion_in t completion) config.old config.new) }
    ensures later { OnOk result (Later S.meaning config.old config.new) }
    ensures found { IfOk result (λ completion. HasCompletion config.new completion) }
    ensures ends { IfOk result (λ completion. GivesOrThrows completion) }
{
    match reference {
        Reference::Local(scope, name) => local_completion(config, frame, scope, name),
        Reference::Global(name) => global_completion(config, frame, name),
        Reference::Member(base, name) => {
            let value = member_value(config, frame, base, name)?;
            Ok(Completion::Gives(value))
        }
    }
}

/// The value of a name in a scope.
#[inline(always)]
fn local_completion<S: WorldStore>(
    config: &mut Config<S>,
    frame: &Frame,
    scope: ObjId,
    name: Name,
) -> Result<Completion, OutOfMemory>
    requires base { Base S.meaning config.old }
    requires there { IsThere S.meaning config.old frame.now }
    requires scope { HasObject config.old scope }
    requires name { HasName config.old name }
    ensures does { IfOk result (λ completion. Does S.meaning (λ t. evaluated (Local scope (name_in t name)) (env_in S.meaning config.old t frame.now))
        (λ t. completion_in t completion) config.old config.new) }
    ensures later { OnOk result (Later S.meaning config.old config.new) }
    ensures found { IfOk result (λ completion. HasCompletion config.new completion) }
    ensures ends { IfOk result (λ completion. GivesOrThrows completion) }
{
    let value = local_value(config, frame, scope, name)?;
    Ok(Completion::Gives(value))
}

/// The value of a property of the global object; where it is absent that is thrown.
#[inline(always)]
fn global_completion<S: WorldStore>(
    config: &mut Config<S>,
    frame: &Frame,
    name: Name,
) -> Result<Completion, OutOfMemory>
    requires base { Base S.meaning config.old }
    requires there { IsThere S.meaning config.old frame.now }
    requires name { HasName config.old name }
    ensures does { IfOk result (λ completion. Does S.meaning (λ t. evaluated (Global (name_in t name)) (env_in S.meaning config.old t frame.now))
        (λ t. completion_in t completion) config.old config.new) }
    ensures later { OnOk result (Later S.meaning config.old config.new) }
    ensures found { IfOk result (λ completion. HasCompletion config.new completion) }
    ensures ends { IfOk result (λ completion. GivesOrThrows completion) }
{
    let global = config.global;
    let found = get(config, frame, global, name)?;
    match found {
        Content::Present(value) => Ok(Completion::Gives(value)),
        Content::Absent => {
            let error = create_undefined(config, name)?;
            Ok(Completion::Throws(Value::Object(error)))
        }
    }
}
