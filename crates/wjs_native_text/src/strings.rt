//! Texts that are made of values (ECMA-262, 3rd edition, section 15.5).
ghost use Rattle.std.specs.Prelude.{◌≡◌, ◌%◌, ◌++◌, OnOk, IfOk, All, map, [], false};
ghost use Rattle.wjs_by_content.specs.Tables.{value_in};
ghost use Rattle.wjs_by_content.specs.Values.{Undefined, String};
ghost use Rattle.wjs_base.specs.Text.{Table, Grows};
ghost use Rattle.wjs_num.specs.Bits.{uint32};
ghost use Rattle.wjs_meaning.specs.Deeds.{Env};
ghost use Rattle.wjs_meaning.specs.Errors as errors;
ghost use Rattle.wjs_meaning.specs.Natives.{native_line};
ghost use Rattle.wjs_meaning.specs.NativesOfObjects.{whole_of};
ghost use Rattle.wjs_meaning.specs.NativesOfTexts as line;
ghost use Rattle.wjs_model.specs.Soundness.{HasValue};
ghost use Rattle.wjs_frames.specs.Handling.{IsRunning, GoesOn};

use crate::receivers::wrapped;
use crate::units::copied;
use std::alloc::Global;
use wjs_arena::{Native, StringNative};
use wjs_base::{OutOfMemory, Value};
use wjs_heap_steps::intern;
use wjs_model::{Config, Frame};
use wjs_natives::{number_of, text_of, value_at};
use wjs_step_common::give_text;
use wjs_store::WorldStore;
use wjs_strings::code_unit;
use wjs_texts::LONGEST_TEXT;

/// The text that is given, or the empty one; a wrapper of it where `new` calls (sections 15.5.1 and 15.5.2).
pub(crate) fn new_string<S: WorldStore>(
    config: &mut Config<S>,
    frame: Frame,
    by_new: bool,
    args: &[Value],
) -> Result<(), OutOfMemory>
    requires running { IsRunning S.meaning config.old }
    requires args { All (HasValue config.old) args.now }
    ensures { GoesOn S.meaning frame config.old config.new result (λ t env.
        native_line (Native.String StringNative.Constructor) by_new Undefined (map (value_in t) args.now) env) }
{
    match value_at(args, 0) {
        Value::Text(id) => wrapped(config, frame, by_new, Value::Text(id)),
        _ => new_empty(config, frame, by_new),
    }
}

/// The empty text; a wrapper of it where `new` calls.
fn new_empty<S: WorldStore>(
    config: &mut Config<S>,
    frame: Frame,
    by_new: bool,
) -> Result<(), OutOfMemory>
    requires running { IsRunning S.meaning config.old }
    ensures { GoesOn S.meaning frame config.old config.new result (λ t env. line.wrapped by_new (String []) env) }
{
    let empty = intern(config, &[])?;
    wrapped(config, frame, by_new, Value::Text(empty))
}

/// The code units of numbers (section 15.5.3.2).
pub(crate) fn from_char_code<S: WorldStore>(
    config: &mut Config<S>,
    frame: Frame,
    args: &[Value],
) -> Result<(), OutOfMemory>
    requires running { IsRunning S.meaning config.old }
    ensures { GoesOn S.meaning frame config.old config.new result (λ t env.
        native_line (Native.String StringNative.FromCharCode) false Undefined (map (value_in t) args.now) env) }
{
    let units = units_of_numbers(config.heap.arena.allocator(), args)?;
    give_text(config, frame, units.as_slice())
}

/// A code unit for each number.
pub(crate) fn units_of_numbers(alloc: Global, numbers: &[Value]) -> Result<Vec<u16>, OutOfMemory>
    ensures { IfOk result (λ units. (t : Table) → map (λ v. uint32 (whole_of v) % 65536) (map (value_in t) numbers.now) ≡ units.items) }
{
    let mut units = Vec::new(alloc);
    for number in numbers {
        units.push(code_unit(number_of(*number)))?;
    }
    Ok(units)
}

/// All texts joined (section 15.5.4.6).
pub(crate) fn concat<S: WorldStore>(
    config: &mut Config<S>,
    frame: Frame,
    this: Value,
    args: &[Value],
) -> Result<(), OutOfMemory>
    requires running { IsRunning S.meaning config.old }
    requires this { HasValue config.old this }
    requires args { All (HasValue config.old) args.now }
    ensures { GoesOn S.meaning frame config.old config.new result (λ t env.
        native_line (Native.String StringNative.Concat) false (value_in t this) (map (value_in t) args.now) env) }
{
    let mut units = copied(config.heap.arena.allocator(), text_of(config, this))?;
    join_texts(config, &mut units, args)?;
    give_text(config, frame, units.as_slice())
}

/// Ends with the texts of values, one behind the other.
pub(crate) fn give_joined<S: WorldStore>(
    config: &mut Config<S>,
    frame: Frame,
    values: &[Value],
) -> Result<(), OutOfMemory>
    requires running { IsRunning S.meaning config.old }
    requires values { All (HasValue config.old) values.now }
    ensures { GoesOn S.meaning frame config.old config.new result (λ t env. errors.give_text (line.joined (map (value_in t) values.now)) env) }
{
    let mut units = Vec::new(config.heap.arena.allocator());
    join_texts(config, &mut units, values)?;
    give_text(config, frame, units.as_slice())
}

/// Puts the code units of texts behind others, and stops once they are too long for a text: what is given is then the same.
fn join_texts<S: WorldStore>(
    config: &Config<S>,
    units: &mut Vec<u16>,
    values: &[Value],
) -> Result<(), OutOfMemory>
    requires { All (HasValue config.now) values.now }
    ensures { OnOk result ((t : Table) → Grows config.now.heap.texts t → (env : Env) →
        errors.give_text units.new.items env ≡ errors.give_text (units.old.items ++ line.joined (map (value_in t) values.now)) env) }
{
    for value in values {
        if units.len() > LONGEST_TEXT {
            return Ok(());
        }
        units.extend_from_slice(text_of(config, *value))?;
    }
    Ok(())
}
