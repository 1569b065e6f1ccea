//! What the first objects and slots need of the table of texts.
ghost use Rattle.std.specs.Prelude.{◌≡◌, All, IfOk, map};
ghost use Rattle.wjs_base.specs.Text.{Table, Grows, Has, IsTable};
ghost use Rattle.wjs_by_content.specs.Tables.{text_in};
ghost use Rattle.wjs_by_content.specs.Values.{whole};
ghost use Rattle.wjs_start.specs.Known.{Knows, ValueIs, IsPlace, ArePlaces, declared_in};
ghost use Rattle.wjs_start.specs.Properties.{given_in, property_in};

use crate::names::{library, name_number, names_of, text_number};
use crate::properties::{Given, Property, properties};
use std::alloc::Global;
use wjs_base::{Name, OutOfMemory, Slot, TextId, Value, Whole};
use wjs_texts::Texts;

/// A slot with its value, whose texts have numbers.
#[derive(Clone, Copy)]
pub(crate) struct Place {
    pub(crate) slot: Slot,
    pub(crate) value: Value,
    pub(crate) kept: bool,
}

/// Names and texts by number, and the slots of the first world.
#[derive(Drop)]
pub(crate) struct Known {
    pub(crate) length: Name,
    pub(crate) prototype: Name,
    pub(crate) empty: TextId,
    /// The names that the library puts on Array.prototype.
    pub(crate) library: Vec<Name>,
    /// The names that the script declares.
    pub(crate) declared: Vec<Name>,
    pub(crate) places: Vec<Place>,
}

/// Puts the texts into the table.
pub(crate) fn make_known(
    alloc: Global,
    texts: &mut Texts,
    declared: &[TextId],
) -> Result<Known, OutOfMemory>
    requires table { IsTable texts.old }
    requires declared { All (Has texts.old) declared.now }
    ensures grows { Grows texts.old texts.new }
    ensures table { IfOk result (λ _. IsTable texts.new) }
    ensures knows { IfOk result (λ known. (t : Table) → Grows texts.new t → Knows t known) }
    ensures declared { IfOk result (λ known. (t : Table) → Grows texts.new t → declared_in t known ≡ map (text_in t) declared.now) }
{
    let declared = names_of(alloc, texts, declared)?;
    let length = name_number(alloc, texts, b"length")?;
    let prototype = name_number(alloc, texts, b"prototype")?;
    let empty = text_number(alloc, texts, b"")?;
    let library = library(alloc, texts)?;
    let list = properties(alloc)?;
    let places = places(alloc, texts, list.as_slice())?;
    Ok(Known {
        length,
        prototype,
        empty,
        library,
        declared,
        places,
    })
}

fn places(alloc: Global, texts: &mut Texts, list: &[Property]) -> Result<Vec<Place>, OutOfMemory>
    requires { IsTable texts.old }
    ensures grows { Grows texts.old texts.new }
    ensures table { IfOk result (λ _. IsTable texts.new) }
    ensures are { IfOk result (λ places. (t : Table) → Grows texts.new t → ArePlaces t places.items (map property_in list.now)) }
{
    let mut places = Vec::new(alloc);
    for property in list {
        let place = place_of(alloc, texts, *property)?;
        places.push(place)?;
    }
    Ok(places)
}

fn place_of(alloc: Global, texts: &mut Texts, property: Property) -> Result<Place, OutOfMemory>
    ensures grows { Grows texts.old texts.new }
    ensures table { IfOk result (λ _. IsTable texts.new) }
    ensures is { IfOk result (λ place. (t : Table) → Grows texts.new t → IsPlace t place (property_in property)) }
{
    let value = value_of(alloc, texts, property.value)?;
    let name = name_number(alloc, texts, property.name)?;
    Ok(Place {
        slot: Slot {
            object: property.object,
            name,
        },
        value,
        kept: property.kept,
    })
}

fn value_of(alloc: Global, texts: &mut Texts, given: Given) -> Result<Value, OutOfMemory>
    ensures grows { Grows texts.old texts.new }
    ensures is { IfOk result (λ value. (t : Table) → Grows texts.new t → ValueIs t value (given_in given)) }
{
    match given {
        Given::Undefined => Ok(Value::Undefined),
        Given::NotANumber => Ok(Value::Number(Whole::NAN)),
        Given::Zero => Ok(whole(0)),
        Given::Text(ascii) => {
            let id = text_number(alloc, texts, ascii)?;
            Ok(Value::Text(id))
        }
        Given::Object(object) => Ok(Value::Object(object)),
    }
}

/// A whole number as a value.
pub(crate) fn whole(number: u32) -> Value
    ensures { (t : Table) → ValueIs t result (whole number) }
{
    Value::Number(Whole::new(i64::from(number)).unwrap())
}
