//! What an object has beside its class and its links.
ghost use Rattle.std.specs.Prelude.{◌≡◌, [], IfOk, IfSome, IsTrue, None};
ghost use Rattle.wjs_base.specs.declared.values.Value.TheVariants as values;
ghost use Rattle.wjs_arena.specs.declared.object.Code.TheVariants as codes;
ghost use Rattle.wjs_arena.specs.Packed.{few_in, few_of, wide_in, wide_of, world_in};

use crate::hidden::Hidden;
use crate::listed::Listed;
use crate::object::{Code, Object};
use crate::rare::{Beside, Rare, Wide, beside_of, no_links, wide_of};
use std::alloc::Global;
use wjs_base::{OutOfMemory, Value, WorldId};

/// What an object has beside its class and its links. Scopes and plain objects have nothing, an Arguments object hides names,
/// and what few objects have stands in memory of its own.
#[derive(Drop)]
pub(crate) enum Rest {
    Plain,
    Hidden(Hidden),
    /// Attributes, as arrays and the prototypes of functions have some.
    Listed(Box<Listed>),
    Rare(Box<Rare>),
}

impl Rest {
    /// Links and depth that have no place in short; none where all have.
    #[cold]
    pub(crate) fn wide(&self) -> Wide
        ensures { result ≡ wide_in self.now }
    {
        match self {
            Rest::Plain => no_links(),
            Rest::Hidden(_) => no_links(),
            Rest::Listed(_) => no_links(),
            Rest::Rare(rare) => wide_of(&rare.beside),
        }
    }
}

/// What an object has beside its class and its links.
pub(crate) fn rest_of(alloc: Global, object: Object) -> Result<Rest, OutOfMemory>
    ensures { IfOk result (λ rest. few_in rest ≡ few_of object) }
{
    match short_rest(&object) {
        Some(rest) => Ok(rest),
        None => long_rest(alloc, object),
    }
}

/// It, in memory of its own.
fn long_rest(alloc: Global, object: Object) -> Result<Rest, OutOfMemory>
    ensures { IfOk result (λ rest. few_in rest ≡ few_of object) }
{
    if is_common(&object) {
        return listed_of(alloc, object);
    }
    let beside = beside_of(object.world);
    rare_of(alloc, object, beside)
}

/// Attributes alone, in memory of their own.
fn listed_of(alloc: Global, object: Object) -> Result<Rest, OutOfMemory>
    requires { (object.code ≡ codes.None) × (object.primitive ≡ values.Undefined) × (object.world ≡ None) × (object.fixed ≡ []) }
    ensures { IfOk result (λ rest. few_in rest ≡ few_of object) }
{
    let _fixed = object.fixed;
    let flags = Box::new(alloc, object.flags)?;
    Ok(Rest::Listed(flags))
}

/// It, where it takes no memory of its own.
fn short_rest(object: &Object) -> Option<Rest>
    ensures { IfSome result (λ rest. few_in rest ≡ few_of object.now) }
{
    if !is_common(object) {
        return None;
    }
    if object.flags.is_empty() {
        return Some(Rest::Plain);
    }
    match object.flags.hidden() {
        None => None,
        Some(hidden) => Some(Rest::Hidden(hidden)),
    }
}

/// All of it, in memory of its own, with a world that is kept beside it.
pub(crate) fn rare_of(alloc: Global, object: Object, beside: Beside) -> Result<Rest, OutOfMemory>
    requires { world_in beside ≡ object.world }
    ensures few { IfOk result (λ rest. few_in rest ≡ few_of object) }
    ensures wide { IfOk result (λ rest. wide_in rest ≡ wide_of beside) }
{
    let rare = Rare {
        code: object.code,
        primitive: object.primitive,
        beside,
        fixed: object.fixed,
        flags: object.flags,
    };
    let rare = Box::new(alloc, rare)?;
    Ok(Rest::Rare(rare))
}

/// Whether an object is no function, no wrapper, stands for no world and has no fixed properties.
fn is_common(object: &Object) -> bool
    ensures { IsTrue result → (object.now.code ≡ codes.None) × (object.now.primitive ≡ values.Undefined) × (object.now.world ≡ None) × (object.now.fixed ≡ []) }
{
    if !is_bare(object.code, object.primitive, object.world) {
        return false;
    }
    object.fixed.is_empty()
}

/// Whether an object is no function, no wrapper and stands for no world.
fn is_bare(code: Code, primitive: Value, world: Option<WorldId>) -> bool
    ensures { IsTrue result → (code ≡ codes.None) × (primitive ≡ values.Undefined) × (world ≡ None) }
{
    match (code, primitive, world) {
        (Code::None, Value::Undefined, None) => true,
        _ => false,
    }
}
