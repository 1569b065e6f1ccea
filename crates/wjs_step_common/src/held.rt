//! What a frame holds is there.
ghost use Rattle.std.specs.Prelude.{◌≡◌};
ghost use Rattle.wjs_model.specs.Contents.{value_held, reference_held, callee_held, elements_held};
ghost use Rattle.wjs_model.specs.Soundness.{Base, IsThere, HasObject, HasValue, HasReference};

use wjs_base::{ObjId, Value};
use wjs_model::{Config, Frame, Reference};
use wjs_store::WorldStore;

/// The latest value.
#[inline(always)]
pub fn held_value<S: WorldStore>(config: &Config<S>, frame: &Frame) -> Value
    requires { IsThere S.meaning config.now frame.now }
    ensures is { result ≡ value_held frame.now.held }
    ensures found { HasValue config.now result }
{
    let _config = config;
    frame.value()
}

/// The latest reference.
#[inline(always)]
pub fn held_reference<S: WorldStore>(config: &Config<S>, frame: &Frame) -> Reference
    requires { IsThere S.meaning config.now frame.now }
    ensures is { result ≡ reference_held frame.now.held }
    ensures found { HasReference config.now result }
{
    let _config = config;
    frame.reference()
}

/// What is called, and its `this`.
pub fn held_callee<S: WorldStore>(config: &Config<S>, frame: &Frame) -> (Value, Value)
    requires { IsThere S.meaning config.now frame.now }
    ensures is { result ≡ callee_held frame.now.held }
    ensures callee { HasValue config.now result.0 }
    ensures this { HasValue config.now result.1 }
{
    let _config = config;
    frame.callee()
}

/// The object whose elements are read, and how many they are.
pub fn held_elements<S: WorldStore>(config: &Config<S>, frame: &Frame) -> (ObjId, u32)
    requires base { Base S.meaning config.now }
    requires there { IsThere S.meaning config.now frame.now }
    ensures is { result ≡ elements_held frame.now.held }
    ensures found { HasObject config.now result.0 }
{
    let _config = config;
    frame.elements()
}
