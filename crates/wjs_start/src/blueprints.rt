//! What the first objects are.
ghost use Rattle.std.specs.Prelude.{◌≡◌, ◌+◌, ◌++◌, ◌≤◌, ℕ, List, true, length, None, Some, IfOk, OnOk};
ghost use Rattle.wjs_meaning.specs.Builtins.{object_prototype};
ghost use Rattle.wjs_base.specs.declared.ids.ObjId.{ObjId};
ghost use Rattle.wjs_by_content.specs.Values.{Text};
ghost use Rattle.wjs_meaning.specs.Start.{first_objects, native_object, native_objects};
ghost use Rattle.wjs_meaning.specs.Table as table;
ghost use Rattle.wjs_start.specs.Blueprints.{built, built_from, is_buildable, are_buildable};
ghost use Rattle.wjs_start.specs.First.{object_count};

use crate::builtins::{ERROR_PROTOTYPE, FUNCTION_PROTOTYPE, OBJECT_PROTOTYPE, WORLD_PROTOTYPE};
use crate::natives::natives;
use std::alloc::Global;
use wjs_arena::{Class, Code, FunctionNative, Native};
use wjs_base::{ObjId, OutOfMemory, WorldId};
use wjs_meaning::row_of;

/// The first world.
pub const FIRST_WORLD: WorldId = WorldId {
    owner: 0,
    serial: 0,
};

/// What a first object wraps.
#[derive(Clone, Copy)]
pub(crate) enum Primitive {
    Undefined,
    EmptyText,
    Zero,
    False,
}

/// Which names have attributes on a first object beside those of its slots.
#[derive(Clone, Copy)]
pub(crate) enum Further {
    Nothing,
    /// Those that the script declares, which are kept.
    Declared,
    /// Those that the library puts there, which are hidden.
    Library,
}

/// What an object is that is there before the first step.
#[derive(Clone, Copy)]
pub(crate) struct Blueprint {
    pub(crate) class: Class,
    pub(crate) prototype: Option<ObjId>,
    pub(crate) code: Code,
    pub(crate) primitive: Primitive,
    pub(crate) world: Option<WorldId>,
    /// A fixed `length`.
    pub(crate) length: Option<u32>,
    /// A constructor's fixed `prototype`.
    pub(crate) constructs: Option<ObjId>,
    pub(crate) further: Further,
}

/// An object of a class on a prototype, with nothing else.
fn plain(class: Class, prototype: Option<ObjId>) -> Blueprint
    ensures { result ≡
        record {
          class = class;
          prototype = prototype;
          code = Code.None;
          primitive = Primitive.Undefined;
          world = None;
          length = None;
          constructs = None;
          further = Further.Nothing;
        } }
{
    Blueprint {
        class,
        prototype,
        code: Code::None,
        primitive: Primitive::Undefined,
        world: None,
        length: None,
        constructs: None,
        further: Further::Nothing,
    }
}

/// An object on Object.prototype.
fn on_object(class: Class) -> Blueprint
    ensures { result ≡
        record {
          class = class;
          prototype = Some object_prototype;
          code = Code.None;
          primitive = Primitive.Undefined;
          world = None;
          length = None;
          constructs = None;
          further = Further.Nothing;
        } }
{
    plain(class, Some(OBJECT_PROTOTYPE))
}

/// The objects that no table row makes, in the order of their numbers (ECMA-262, 3rd edition, section 15).
fn first_blueprints() -> [Blueprint; 14]
    ensures built { (declared : List Text) → built_from declared 0 result ≡ first_objects declared }
    ensures buildable { are_buildable 0 result ≡ true }
    ensures many { length result ≡ 14 }
{
    [
        plain(Class::Plain, None),
        Blueprint {
            code: Code::Native(Native::Function(FunctionNative::Prototype)),
            length: Some(0),
            ..on_object(Class::Function)
        },
        Blueprint {
            further: Further::Declared,
            ..on_object(Class::Global)
        },
        Blueprint {
            further: Further::Library,
            ..on_object(Class::Array)
        },
        Blueprint {
            primitive: Primitive::EmptyText,
            length: Some(0),
            ..on_object(Class::Text)
        },
        Blueprint {
            primitive: Primitive::Zero,
            ..on_object(Class::Number)
        },
        Blueprint {
            primitive: Primitive::False,
            ..on_object(Class::Bool)
        },
        on_object(Class::Plain),
        on_object(Class::Fault),
        plain(Class::Fault, Some(ERROR_PROTOTYPE)),
        plain(Class::Fault, Some(ERROR_PROTOTYPE)),
        plain(Class::Fault, Some(ERROR_PROTOTYPE)),
        on_object(Class::Math),
        Blueprint {
            world: Some(FIRST_WORLD),
            ..plain(Class::World, Some(WORLD_PROTOTYPE))
        },
    ]
}

/// The function object of a native.
fn native_blueprint(native: Native) -> Blueprint
    ensures built { (declared : List Text) (o : ObjId) → built declared o result ≡ native_object native o }
    ensures buildable { (n : ℕ) → 14 ≤ n → is_buildable n result ≡ true }
{
    let row = row_of(native);
    Blueprint {
        code: Code::Native(native),
        length: Some(row.formals),
        constructs: row.prototype,
        ..plain(Class::Function, Some(FUNCTION_PROTOTYPE))
    }
}

/// All first objects, in the order of their numbers.
pub(crate) fn blueprints(alloc: Global) -> Result<Vec<Blueprint>, OutOfMemory>
    ensures built { IfOk result
        (λ list. (declared : List Text) → built_from declared 0 list.items ≡ first_objects declared ++ native_objects table.first_native table.natives) }
    ensures buildable { IfOk result (λ list. are_buildable 0 list.items ≡ true) }
    ensures many { IfOk result (λ list. length list.items ≡ object_count) }
{
    let mut list = Vec::from_slice(alloc, &first_blueprints())?;
    push_natives(&mut list, natives())?;
    Ok(list)
}

fn push_natives(list: &mut Vec<Blueprint>, natives: &[Native]) -> Result<(), OutOfMemory>
    requires { 14 ≤ length list.old.items }
    ensures built { OnOk result
        ((declared : List Text) →
        built_from declared 0 list.new.items ≡ built_from declared 0 list.old.items ++ native_objects (length list.old.items) natives.now) }
    ensures buildable { OnOk result (are_buildable 0 list.old.items ≡ true → are_buildable 0 list.new.items ≡ true) }
    ensures many { OnOk result (length list.new.items ≡ length list.old.items + length natives.now) }
{
    for native in natives {
        list.push(native_blueprint(*native))?;
    }
    Ok(())
}
