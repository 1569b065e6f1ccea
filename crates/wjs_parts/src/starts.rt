//! What there is before the first part of a play.
ghost use Rattle.std.specs.Prelude.{◌≡◌, ◌++◌, ◌∷◌, [], All, map, IfOk, IfSome, OnOk};
ghost use Rattle.wjs_base.specs.Text.{Table, Has, IsTable};
ghost use Rattle.wjs_by_content.specs.Tables.{text_in};
ghost use Rattle.wjs_meaning.specs.Programs.{declared_names};
ghost use Rattle.wjs_model.specs.Soundness.{Sound};
ghost use Rattle.wjs_model.specs.Texts.{KnowsUnit, PlacesUnit};
ghost use Rattle.wjs_model.specs.Units.{unit_in};
ghost use Rattle.wjs_start.specs.First.{IsNew};
ghost use Rattle.wjs_alone.specs.Opening.{part_names};
ghost use Rattle.wjs_parts.specs.Opening.{StartsParts, frames_of, state_of, units_of};

use std::alloc::Global;
use wjs_base::{OutOfMemory, TextId};
use wjs_model::{Config, Frames, LoadedProgram, Phase, Start, State};
use wjs_start::{FIRST_WORLD, GLOBAL_OBJECT, first_heap, program_frame, script_names};
use wjs_store::WorldStore;
use wjs_texts::Texts;

/// A play of parts before the first of them: the library's program is due with so many steps, where there is one, in the first
/// world (ECMA-262, 3rd edition, section 10.2.1). What there is before the first step is made over a new store; the names that any
/// part declares can't be deleted. The programs' texts are in the table, and keep their numbers.
pub fn start_parts<S: WorldStore + Drop>(
    alloc: Global,
    texts: Texts,
    store: S,
    library: Option<LoadedProgram>,
    parts: Vec<LoadedProgram>,
    budget: u64,
) -> Result<Config<S>, OutOfMemory>
    requires table { IsTable texts }
    requires new { IsNew (S.meaning store) }
    requires library { IfSome library (KnowsUnit texts) }
    requires parts { All (KnowsUnit texts) parts.items }
    requires library_places { IfSome library (PlacesUnit texts) }
    requires part_places { All (PlacesUnit texts) parts.items }
    ensures starts { IfOk result (StartsParts S.meaning texts (S.meaning store) library parts.items budget) }
    ensures sound { IfOk result (Sound S.meaning) }
{
    let names = names_of_parts(alloc, parts.as_slice())?;
    let frames = library_frame(alloc, &library)?;
    let state = first_state(&library);
    let units = units_of(library, parts)?;
    let heap = first_heap(alloc, texts, store, names.as_slice())?;
    Ok(Config {
        heap,
        units,
        frames,
        global: GLOBAL_OBJECT,
        world: FIRST_WORLD,
        owner: 0,
        apart: Vec::new(alloc),
        pending: Vec::new(alloc),
        left: budget,
        state,
    })
}

/// The names that parts declare, one part after another.
fn names_of_parts(alloc: Global, parts: &[LoadedProgram]) -> Result<Vec<TextId>, OutOfMemory>
    ensures are { IfOk result
        (λ names. (t : Table) → IsTable t → All (KnowsUnit t) parts.now → map (text_in t) names.items ≡ part_names (map (unit_in t) parts.now)) }
    ensures found { IfOk result (λ names. (t : Table) → All (KnowsUnit t) parts.now → All (Has t) names.items) }
{
    let mut names = Vec::new(alloc);
    for part in parts {
        add_names(alloc, &mut names, part)?;
    }
    Ok(names)
}

/// Puts the names that a part declares last.
fn add_names(
    alloc: Global,
    names: &mut Vec<TextId>,
    part: &LoadedProgram,
) -> Result<(), OutOfMemory>
    ensures are { OnOk result
        ((t : Table) → IsTable t → KnowsUnit t part.now →
        map (text_in t) names.new.items ≡ map (text_in t) names.old.items ++ declared_names (unit_in t part.now ∷ []) 0) }
    ensures found { OnOk result ((t : Table) → KnowsUnit t part.now → All (Has t) names.old.items → All (Has t) names.new.items) }
{
    let more = script_names(alloc, part)?;
    names.extend_from_slice(more.as_slice())?;
    Ok(())
}

/// The library's body, with its step due.
fn library_frame(alloc: Global, library: &Option<LoadedProgram>) -> Result<Frames, OutOfMemory>
    ensures { IfOk result (λ frames. frames ≡ frames_of library.now) }
{
    let mut frames = Frames::new(alloc);
    if let Some(library) = library {
        let body = library.program.body;
        frames.add(
            alloc,
            program_frame(alloc, 0, body, Phase::Due(Start::Program)),
        )?;
    }
    Ok(frames)
}

/// A play without a library has nothing to do before its first part.
fn first_state(library: &Option<LoadedProgram>) -> State
    ensures { result ≡ state_of library.now }
{
    match library {
        None => State::Done,
        Some(_) => State::Running,
    }
}

/// The programs of the play, the library's first.
fn units_of(
    library: Option<LoadedProgram>,
    mut parts: Vec<LoadedProgram>,
) -> Result<Vec<LoadedProgram>, OutOfMemory>
    ensures { IfOk result (λ units. units.items ≡ units_of library parts.items) }
{
    match library {
        None => Ok(parts),
        Some(library) => {
            parts.insert(0, library)?;
            Ok(parts)
        }
    }
}
