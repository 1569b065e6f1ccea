//! The objects that functions are made of (ECMA-262, 3rd edition, section 13.2).
ghost use Rattle.std.specs.Prelude.{◌≡◌, ◌∷◌, [], IfOk, OnOk, None, Some, length};
ghost use Rattle.wjs_base.specs.Text.{Table, Grows};
ghost use Rattle.wjs_by_content.specs.Names.{length_name, prototype_name};
ghost use Rattle.wjs_by_content.specs.Tables.{name_in, object_in};
ghost use Rattle.wjs_heap.specs.Heap.{HasNamed};
ghost use Rattle.wjs_heap.specs.Means.{nothing};
ghost use Rattle.wjs_meaning.specs.Builtins.{function_prototype};
ghost use Rattle.wjs_meaning.specs.Deeds.{Do, Create, node_here};
ghost use Rattle.wjs_meaning.specs.Trees.{formals_of};
ghost use Rattle.wjs_meaning.specs.Functions as line;
ghost use Rattle.wjs_model.specs.Apart.{IsNear, NamesNear};
ghost use Rattle.wjs_model.specs.Soundness.{Base, HasObject, HasName};
ghost use Rattle.wjs_model.specs.Standing.{IsFunction};
ghost use Rattle.wjs_frames.specs.Doing.{Does};
ghost use Rattle.wjs_frames.specs.Parts.{env_in};
ghost use Rattle.wjs_frames.specs.Following.{Later};

use crate::arrays::whole_value;
use crate::bodies::formals_count;
use std::alloc::Global;
use wjs_arena::{Class, Code, Flags, Listed, Object};
use wjs_base::{Name, NodeId, ObjId, OutOfMemory};
use wjs_heap_steps::{Known, builtin, create, known_name, object_of, one_fixed};
use wjs_meaning::Builtin;
use wjs_model::{Config, Frame};
use wjs_store::WorldStore;

/// The names `length` and `prototype`.
#[derive(Clone, Copy)]
pub(crate) struct FunctionNames {
    length: Name,
    prototype: Name,
}

/// The names `length` and `prototype`, whose texts are put last where they are new. No deed is done.
pub(crate) fn function_names<S: WorldStore>(
    config: &mut Config<S>,
) -> Result<FunctionNames, OutOfMemory>
    requires { Base S.meaning config.old }
    ensures does { OnOk result (Does S.meaning (λ t go. go nothing) (λ t. nothing) config.old config.new) }
    ensures later { OnOk result (Later S.meaning config.old config.new) }
    ensures length { IfOk result (λ names. HasName config.new names.length) }
    ensures prototype { IfOk result (λ names. HasName config.new names.prototype) }
    ensures length_text { IfOk result (λ names. (t : Table) → Grows config.new.heap.texts t → name_in t names.length ≡ length_name) }
    ensures prototype_text { IfOk result (λ names. (t : Table) → Grows config.new.heap.texts t → name_in t names.prototype ≡ prototype_name) }
{
    let length = known_name(config, Known::Length)?;
    let prototype = known_name(config, Known::Prototype)?;
    Ok(FunctionNames { length, prototype })
}

/// A Function object with its code, scope and fixed `length`; its `prototype` is kept.
pub(crate) fn function_object<S: WorldStore>(
    config: &Config<S>,
    frame: &Frame,
    body: NodeId,
    scope: ObjId,
    names: FunctionNames,
) -> Result<Object, OutOfMemory>
    requires base { Base S.meaning config.now }
    requires near { IsNear config.now.apart.items scope }
    requires length { HasName config.now names.length }
    requires prototype { HasName config.now names.prototype }
    requires length_text { (t : Table) → Grows config.now.heap.texts t → name_in t names.length ≡ length_name }
    requires prototype_text { (t : Table) → Grows config.now.heap.texts t → name_in t names.prototype ≡ prototype_name }
    ensures is { IfOk result (λ x. (t : Table) → Grows config.now.heap.texts t →
        object_in t x ≡ line.function_object frame.now.tree body.0 (length (formals_of (node_here (env_in S.meaning config.now t frame.now) body.0))) scope) }
    ensures prototype { IfOk result (λ x. x.prototype ≡ Some function_prototype) }
    ensures scope { IfOk result (λ x. x.scope ≡ Some scope) }
    ensures code { IfOk result (λ x. x.code ≡ Code.Script frame.now.tree body) }
    ensures world { IfOk result (λ x. x.world ≡ None) }
    ensures near { IfOk result (λ x. NamesNear config.now.apart.items x) }
    ensures named { IfOk result (λ x. HasNamed config.now.heap.texts config.now.heap.arena x) }
{
    let alloc = config.heap.arena.allocator();
    let count = whole_value(formals_count(config, frame, body))?;
    let kept = Flags {
        hidden: false,
        kept: true,
    };
    let fixed = one_fixed(alloc, names.length, count)?;
    let flags = one_flag(alloc, names.prototype, kept)?;
    let prototype = builtin(config, Builtin::FunctionPrototype);
    let mut object = object_of(alloc, Class::Function, Some(prototype));
    object.scope = Some(scope);
    object.code = Code::Script {
        tree: frame.tree(),
        node: body,
    };
    object.fixed = fixed;
    object.flags = flags;
    Ok(object)
}

/// Makes a Function object.
pub(crate) fn create_function<S: WorldStore>(
    config: &mut Config<S>,
    frame: &Frame,
    body: NodeId,
    scope: ObjId,
) -> Result<ObjId, OutOfMemory>
    requires base { Base S.meaning config.old }
    requires scope { HasObject config.old scope }
    requires stands { IsFunction config.old.units.items config.old.heap.arena frame.now.tree body scope 0 }
    ensures does { IfOk result (λ o. Does S.meaning
        (λ t go. Do (Create config.old.owner
        (line.function_object frame.now.tree body.0 (length (formals_of (node_here (env_in S.meaning config.old t frame.now) body.0))) scope)) go)
        (λ t. o) config.old config.new) }
    ensures later { OnOk result (Later S.meaning config.old config.new) }
    ensures found { IfOk result (λ o. HasObject config.new o) }
{
    let names = function_names(config)?;
    let object = function_object(config, frame, body, scope, names)?;
    create(config, object)
}

/// Makes the object that a `prototype` is at first.
pub(crate) fn create_prototype<S: WorldStore>(config: &mut Config<S>) -> Result<ObjId, OutOfMemory>
    requires { Base S.meaning config.old }
    ensures does { IfOk result (λ o. Does S.meaning (λ t go. Do (Create config.old.owner line.prototype_object) go) (λ t. o) config.old config.new) }
    ensures later { OnOk result (Later S.meaning config.old config.new) }
    ensures found { IfOk result (λ o. HasObject config.new o) }
{
    let name = known_name(config, Known::Constructor)?;
    let prototype = builtin(config, Builtin::ObjectPrototype);
    let alloc = config.heap.arena.allocator();
    let hidden = Flags {
        hidden: true,
        kept: false,
    };
    let flags = one_flag(alloc, name, hidden)?;
    let mut object = object_of(alloc, Class::Plain, Some(prototype));
    object.flags = flags;
    create(config, object)
}

/// The attributes of one name.
fn one_flag(alloc: Global, name: Name, flag: Flags) -> Result<Listed, OutOfMemory>
    ensures { IfOk result (λ under. under ≡ (name, flag) ∷ []) }
{
    let mut flags = Vec::with_capacity(alloc, 1)?;
    flags.push((name, flag))?;
    Ok(Listed::from_vec(flags))
}
