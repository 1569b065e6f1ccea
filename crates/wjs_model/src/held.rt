//! The latest of each kind of what a frame holds.
ghost use Rattle.std.specs.Prelude.{◌≡◌, ◌++◌, ◌∷◌, [], IfOk, OnOk};
ghost use Rattle.wjs_model.specs.Frames.{latest_first, earliest_first};
ghost use Rattle.wjs_model.specs.Contents.{value_held, values_held, reference_held, callee_held, elements_held, earlier_held};

use crate::frame::{Completion, Frame, Held, Reference};
use std::alloc::Global;
use wjs_base::{Name, ObjId, OutOfMemory, Value};

impl Frame {
    /// The latest value, and undefined where there is none.
    pub fn value(&self) -> Value
        ensures { result ≡ value_held self.now.held }
    {
        latest_value(self.at.held.list.as_slice())
    }

    /// The values in the order in which they came.
    pub fn values(&self, alloc: Global) -> Result<Vec<Value>, OutOfMemory>
        ensures { IfOk result (λ values. values.items ≡ earliest_first (values_held self.now.held)) }
    {
        values_among(alloc, self.at.held.list.as_slice())
    }

    /// The latest reference, and a member of undefined where there is none.
    pub fn reference(&self) -> Reference
        ensures { result ≡ reference_held self.now.held }
    {
        latest_reference(self.at.held.list.as_slice())
    }

    /// What is called, and its `this`; undefined where there is none.
    pub fn callee(&self) -> (Value, Value)
        ensures { result ≡ callee_held self.now.held }
    {
        latest_callee(self.at.held.list.as_slice())
    }

    /// The object whose elements are read, and how many they are.
    pub fn elements(&self) -> (ObjId, u32)
        ensures { result ≡ elements_held self.now.held }
    {
        latest_elements(self.at.held.list.as_slice())
    }

    /// The completion that a `finally` may replace, and a normal one where there is none.
    pub fn earlier(&self) -> Completion
        ensures { result ≡ earlier_held self.now.held }
    {
        latest_completion(self.at.held.list.as_slice())
    }
}

fn latest_value(items: &[Held]) -> Value
    ensures { result ≡ value_held (latest_first items.now) }
{
    let mut i = items.len();
    'back: while i > 0 {
        i -= 1;
        if let Held::Value(value) = items[i] {
            return value;
        }
    }
    Value::Undefined
}

fn values_among(alloc: Global, items: &[Held]) -> Result<Vec<Value>, OutOfMemory>
    ensures { IfOk result (λ values. values.items ≡ earliest_first (values_held (latest_first items.now))) }
{
    let mut values = Vec::new(alloc);
    for item in items {
        add_value(&mut values, *item)?;
    }
    Ok(values)
}

/// Puts a value last; what else is held is left out.
fn add_value(values: &mut Vec<Value>, item: Held) -> Result<(), OutOfMemory>
    ensures { OnOk result (values.new.items ≡ values.old.items ++ values_held (item ∷ [])) }
{
    let Held::Value(value) = item else {
        return Ok(());
    };
    values.push(value)?;
    Ok(())
}

fn latest_reference(items: &[Held]) -> Reference
    ensures { result ≡ reference_held (latest_first items.now) }
{
    let mut i = items.len();
    'back: while i > 0 {
        i -= 1;
        if let Held::Reference(reference) = items[i] {
            return reference;
        }
    }
    Reference::Member(Value::Undefined, Name::Index(0))
}

fn latest_callee(items: &[Held]) -> (Value, Value)
    ensures { result ≡ callee_held (latest_first items.now) }
{
    let mut i = items.len();
    'back: while i > 0 {
        i -= 1;
        if let Held::Callee(callee, this) = items[i] {
            return (callee, this);
        }
    }
    (Value::Undefined, Value::Undefined)
}

fn latest_elements(items: &[Held]) -> (ObjId, u32)
    ensures { result ≡ elements_held (latest_first items.now) }
{
    let mut i = items.len();
    'back: while i > 0 {
        i -= 1;
        if let Held::Elements(object, count) = items[i] {
            return (object, count);
        }
    }
    let nothing = ObjId {
        owner: 0,
        serial: 0,
    };
    (nothing, 0)
}

fn latest_completion(items: &[Held]) -> Completion
    ensures { result ≡ earlier_held (latest_first items.now) }
{
    let mut i = items.len();
    'back: while i > 0 {
        i -= 1;
        if let Held::Earlier(completion) = items[i] {
            return completion;
        }
    }
    Completion::Normal
}
