//! The first objects.
ghost use Rattle.std.specs.Prelude.{◌≡◌, ◌++◌, ◌∷◌, [], List, None, true, map, IfOk, OnOk};
ghost use Rattle.wjs_base.specs.Text.{Table};
ghost use Rattle.wjs_arena.specs.Entries.{Objects, IsThere};
ghost use Rattle.wjs_by_content.specs.Values as content;
ghost use Rattle.wjs_by_content.specs.Tables.{name_in, knows_name};
ghost use Rattle.wjs_store.specs.State.{same_object};
ghost use Rattle.wjs_by_content.specs.Values.{Text};
ghost use Rattle.wjs_meaning.specs.Start.{fixed_prototype, flags_on};
ghost use Rattle.wjs_meaning.specs.Trees.{has_text};
ghost use Rattle.wjs_heap.specs.Heap.{HasValue};
ghost use Rattle.wjs_start.specs.Blueprints.{built, keeping, length_part, further_flags, primitive_in};
ghost use Rattle.wjs_start.specs.Flags.{IsFlagged, IsFixed, IsBuilt, flags_among};
ghost use Rattle.wjs_by_content.specs.Renamed.{Holds};
ghost use Rattle.wjs_start.specs.Names.{AreNamesOf};
ghost use Rattle.wjs_start.specs.Known as at;
ghost use Rattle.wjs_start.specs.Known.{Knows, TellsNames, TellsPlaces, place_in, declared_in};

use crate::blueprints::{Blueprint, Further, Primitive};
use crate::known::{Known, Place, whole};
use std::alloc::Global;
use wjs_arena::{Flags, Listed, Object, Under};
use wjs_base::{Name, ObjId, OutOfMemory, Value};

/// The object of a number.
pub(crate) fn build(
    alloc: Global,
    known: &Known,
    number: ObjId,
    blueprint: Blueprint,
) -> Result<Object, OutOfMemory>
    ensures built { IfOk result
        (λ x. (t : Table) (arena : Objects) → Knows t known.now → IsThere arena blueprint.constructs →
        IsBuilt t arena x (built (declared_in t known.now) number blueprint)) }
    ensures prototype { IfOk result (λ x. x.prototype ≡ blueprint.prototype) }
    ensures scope { IfOk result (λ x. x.scope ≡ None) }
    ensures world { IfOk result (λ x. x.world ≡ blueprint.world) }
    ensures code { IfOk result (λ x. x.code ≡ blueprint.code) }
{
    let fixed = fixed_of(alloc, known, blueprint)?;
    let flags = flags_of(alloc, known, number, blueprint.further)?;
    Ok(Object {
        class: blueprint.class,
        prototype: blueprint.prototype,
        scope: None,
        code: blueprint.code,
        primitive: primitive_of(known, blueprint.primitive),
        world: blueprint.world,
        fixed: Under::from_vec(fixed),
        flags: Listed::from_vec(flags),
        all_kept: false,
    })
}

fn primitive_of(known: &Known, primitive: Primitive) -> Value
    ensures is { (t : Table) → Knows t known.now → at.ValueIs t result (primitive_in primitive) }
    ensures no_object { (t : Table) (arena : Objects) → Knows t known.now → HasValue t arena result }
{
    match primitive {
        Primitive::Undefined => Value::Undefined,
        Primitive::EmptyText => Value::Text(known.empty),
        Primitive::Zero => whole(0),
        Primitive::False => Value::Bool(false),
    }
}

/// A fixed `length`, and a constructor's fixed `prototype`.
fn fixed_of(
    alloc: Global,
    known: &Known,
    blueprint: Blueprint,
) -> Result<Vec<(Name, Value)>, OutOfMemory>
    ensures { IfOk result
        (λ fixed. (t : Table) (arena : Objects) → Knows t known.now → IsThere arena blueprint.constructs →
        IsFixed t arena fixed.items (length_part blueprint.length ++ fixed_prototype blueprint.constructs)) }
{
    let mut fixed = Vec::new(alloc);
    add_length(&mut fixed, known, blueprint.length)?;
    add_prototype(&mut fixed, known, blueprint.constructs)?;
    Ok(fixed)
}

fn add_length(
    fixed: &mut Vec<(Name, Value)>,
    known: &Known,
    length: Option<u32>,
) -> Result<(), OutOfMemory>
    ensures { OnOk result
        ((t : Table) (arena : Objects) (before : List (Text × content.Value)) → Knows t known.now → IsFixed t arena fixed.old.items before →
        IsFixed t arena fixed.new.items (before ++ length_part length)) }
{
    let Some(length) = length else {
        return Ok(());
    };
    fixed.push((known.length, whole(length)))?;
    Ok(())
}

fn add_prototype(
    fixed: &mut Vec<(Name, Value)>,
    known: &Known,
    prototype: Option<ObjId>,
) -> Result<(), OutOfMemory>
    ensures { OnOk result
        ((t : Table) (arena : Objects) (before : List (Text × content.Value)) → Knows t known.now → IsThere arena prototype →
        IsFixed t arena fixed.old.items before → IsFixed t arena fixed.new.items (before ++ fixed_prototype prototype)) }
{
    let Some(prototype) = prototype else {
        return Ok(());
    };
    fixed.push((known.prototype, Value::Object(prototype)))?;
    Ok(())
}

/// The attributes of an object's slots and of the further names.
fn flags_of(
    alloc: Global,
    known: &Known,
    object: ObjId,
    further: Further,
) -> Result<Vec<(Name, Flags)>, OutOfMemory>
    ensures { IfOk result
        (λ flags. (t : Table) → Knows t known.now →
        IsFlagged t flags.items (flags_on object (keeping further (declared_in t known.now)) ++ further_flags further (declared_in t known.now))) }
{
    let mut flags = slot_flags(
        alloc,
        known.places.as_slice(),
        object,
        keeping(known, further),
    )?;
    add_further(&mut flags, known, further)?;
    Ok(flags)
}

/// The declared names that keep slots of an object.
fn keeping(known: &Known, further: Further) -> &[Name]
    ensures are { (t : Table) → map (name_in t) result.now ≡ keeping further (declared_in t known.now) }
    ensures tell { (t : Table) → Knows t known.now → TellsNames t result.now }
{
    match further {
        Further::Declared => known.declared.as_slice(),
        _ => &[],
    }
}

/// The attributes of an object's slots: all are hidden, and kept are those that say so and those of these names.
fn slot_flags(
    alloc: Global,
    places: &[Place],
    object: ObjId,
    keeping: &[Name],
) -> Result<Vec<(Name, Flags)>, OutOfMemory>
    ensures { IfOk result
        (λ flags. (t : Table) → Holds (at.IsThere t) places.now → TellsPlaces t places.now → TellsNames t keeping.now →
        IsFlagged t flags.items (flags_among (map (place_in t) places.now) object (map (name_in t) keeping.now))) }
{
    let mut flags = Vec::new(alloc);
    for place in places {
        add_slot(&mut flags, *place, object, keeping)?;
    }
    Ok(flags)
}

/// The attributes of a slot, if it is the object's.
fn add_slot(
    flags: &mut Vec<(Name, Flags)>,
    place: Place,
    object: ObjId,
    keeping: &[Name],
) -> Result<(), OutOfMemory>
    ensures { OnOk result
        ((t : Table) (before : List (Text × Flags)) → at.IsThere t place → knows_name t place.slot.name ≡ true → TellsNames t keeping.now →
        IsFlagged t flags.old.items before →
        IsFlagged t flags.new.items (before ++ flags_among (place_in t place ∷ []) object (map (name_in t) keeping.now))) }
{
    if !is_of(place, object) {
        return Ok(());
    }
    let name = place.slot.name;
    let attributes = Flags {
        hidden: true,
        kept: place.kept || has_name(keeping, name),
    };
    flags.push((name, attributes))?;
    Ok(())
}

fn is_of(place: Place, object: ObjId) -> bool
    ensures { result ≡ same_object place.slot.object object }
{
    place.slot.object.owner == object.owner && place.slot.object.serial == object.serial
}

fn same_name(a: Name, b: Name) -> bool
    ensures yes { result ≡ true → a ≡ b }
    ensures no { a ≡ b → result ≡ true }
{
    a == b
}

fn has_name(names: &[Name], name: Name) -> bool
    ensures { (t : Table) → TellsNames t names.now → knows_name t name ≡ true → result ≡ has_text (map (name_in t) names.now) (name_in t name) }
{
    for other in names {
        if same_name(*other, name) {
            return true;
        }
    }
    false
}

/// The attributes of the further names.
fn add_further(
    flags: &mut Vec<(Name, Flags)>,
    known: &Known,
    further: Further,
) -> Result<(), OutOfMemory>
    ensures { OnOk result
        ((t : Table) (before : List (Text × Flags)) → Knows t known.now → IsFlagged t flags.old.items before →
        IsFlagged t flags.new.items (before ++ further_flags further (declared_in t known.now))) }
{
    match further {
        Further::Nothing => Ok(()),
        Further::Declared => add_names(flags, known.declared.as_slice(), KEPT),
        Further::Library => add_names(flags, known.library.as_slice(), HIDDEN),
    }
}

const KEPT: Flags = Flags {
    hidden: false,
    kept: true,
};

const HIDDEN: Flags = Flags {
    hidden: true,
    kept: false,
};

/// Gives names the same attributes.
fn add_names(
    flags: &mut Vec<(Name, Flags)>,
    names: &[Name],
    attributes: Flags,
) -> Result<(), OutOfMemory>
    ensures { OnOk result
        ((t : Table) (before : List (Text × Flags)) (texts : List Text) → AreNamesOf t names.now texts → IsFlagged t flags.old.items before →
        IsFlagged t flags.new.items (before ++ map (λ name. (name, attributes)) texts)) }
{
    for name in names {
        flags.push((*name, attributes))?;
    }
    Ok(())
}
