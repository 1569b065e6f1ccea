//! The worlds of a run as lines of text.
ghost use Rattle.std.specs.Prelude.{◌≡◌, ◌++◌, IfOk, OnOk, IsTrue};
ghost use Rattle.std.specs.Fmt.{decimal};
ghost use Rattle.std.specs.String.{string_bytes};
ghost use Rattle.wjs_base.specs.Text.{Table};
ghost use Rattle.wjs_store.specs.State.{has_world};
ghost use Rattle.wjs_store.specs.Meaning.{worlds};
ghost use Rattle.wjs_by_content.specs.Worlds.{worlds_in, KnowsWorlds};
ghost use Rattle.wjs_reports.specs.Lines.{parent_part, marks_part, line_at, lines_of};

use std::alloc::Global;
use std::fmt::Write;
use wjs_base::{OutOfMemory, WorldId};
use wjs_store::{Counts, WorldStore};

/// Puts a word and a number in decimal digits behind a text.
fn push_field(text: &mut String, word: &str, number: u64) -> Result<(), OutOfMemory>
    ensures { OnOk result (string_bytes text.new ≡ string_bytes text.old ++ word.now ++ decimal number) }
{
    if write!(text, "{word}{number}").is_err() {
        return Err(OutOfMemory);
    }
    Ok(())
}

/// Puts the number of a world's parent behind a text.
fn push_parent(text: &mut String, parent: Option<WorldId>) -> Result<(), OutOfMemory>
    ensures { OnOk result (string_bytes text.new ≡ string_bytes text.old ++ parent_part parent) }
{
    match parent {
        Some(parent) => push_field(text, " parent ", parent.serial),
        None => Ok(()),
    }
}

/// Puts the sizes of a world's marks and the end of its line behind a text.
fn push_counts(text: &mut String, counts: Counts) -> Result<(), OutOfMemory>
    ensures { OnOk result (string_bytes text.new ≡ string_bytes text.old ++ marks_part counts.reads counts.writes counts.closed) }
{
    push_field(text, " reads ", counts.reads)?;
    push_field(text, " writes ", counts.writes)?;
    push_field(text, " closed ", counts.closed)?;
    text.push_str("\n")?;
    Ok(())
}

/// Puts the line of a world behind a text.
fn push_line<S: WorldStore>(text: &mut String, store: &S, world: WorldId) -> Result<(), OutOfMemory>
    requires { IsTrue (has_world (worlds (S.meaning store.now)) world) }
    ensures { OnOk result (string_bytes text.new ≡ string_bytes text.old ++ line_at (worlds (S.meaning store.now)) world) }
{
    push_field(text, "world ", world.serial)?;
    push_parent(text, store.parent(world))?;
    push_counts(text, store.counts(world))
}

/// The worlds of a run, in the order in which they were sprouted: a line for each, with its number, that of its parent, how
/// many slots it has read and written, and how many objects it has listed, counted from its last commit. The first world's
/// number is 0, and it has no parent. They are the worlds of owner 0, which makes all worlds of a run.
///
/// A store that is spent has no worlds to tell, and want of memory is answered.
pub fn world_lines<S: WorldStore>(alloc: Global, store: &S) -> Result<Vec<u8>, OutOfMemory>
    ensures lines { IfOk result (λ bytes. bytes.items ≡ lines_of (worlds (S.meaning store.now))) }
    ensures by_content { IfOk result
        (λ bytes. (t : Table) → KnowsWorlds t (worlds (S.meaning store.now)) → bytes.items ≡ lines_of (worlds_in t (worlds (S.meaning store.now)))) }
{
    if store.is_spent() {
        return Err(OutOfMemory);
    }
    let mut text = String::new(alloc);
    for serial in 0..u64::MAX {
        let world = WorldId { owner: 0, serial };
        if !store.has_world(world) {
            return Ok(text.into_bytes());
        }
        push_line(&mut text, store, world)?;
    }
    Err(OutOfMemory)
}
