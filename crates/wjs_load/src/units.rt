//! Loaded programs of bytes, and of the library's text.
ghost use Rattle.std.specs.Prelude.{◌≤◌, ◌^◌, length, IfOk, IfErr, IfSome};
ghost use Rattle.std.specs.Option.{option_map};
ghost use Rattle.wjs_base.specs.Text.{Grows, IsTable};
ghost use Rattle.wjs_model.specs.Texts.{KnowsUnit, PlacesUnit};
ghost use Rattle.wjs_model.specs.Units.{unit_in};
ghost use Rattle.wjs_programs.specs.Programs.{IsProgram};
ghost use Rattle.wjs_load.specs.Loading.{IsProgramOrNot, IsRefused};

use crate::script::read;
use crate::tokens::{LoadFault, tokens};
use std::alloc::Global;
use wjs_base::OutOfMemory;
use wjs_model::{LIBRARY, LoadedProgram};
use wjs_texts::Texts;

/// The loaded program that at most 16,777,216 bytes spell; its texts are put into the table, in which what was there keeps its
/// number, also after a fault. Each refusal comes exactly where it holds of the bytes (ECMA-262, 3rd edition, sections 6, 7
/// and 14).
pub fn load(alloc: Global, bytes: &[u8], texts: &mut Texts) -> Result<LoadedProgram, LoadFault>
    requires { length bytes.now ≤ 2 ^ 24 }
    ensures ok { IfOk result (λ unit. IsProgram bytes.now (unit_in texts.new unit)) }
    ensures known { IfOk result (KnowsUnit texts.new) }
    ensures places { IfOk result (PlacesUnit texts.new) }
    ensures err { IfErr result (IsRefused bytes.now) }
    ensures grows { Grows texts.old texts.new }
    ensures table { IsTable texts.new }
{
    let toks = tokens(alloc, bytes, texts)?;
    read(alloc, texts, toks)
}

/// The loaded program of the library's text, which runs before a script. None exactly where the text is no script.
pub fn library(alloc: Global, texts: &mut Texts) -> Result<Option<LoadedProgram>, OutOfMemory>
    ensures ok { IfOk result (λ library. IsProgramOrNot LIBRARY.now (option_map (unit_in texts.new) library)) }
    ensures known { IfOk result (λ library. IfSome library (KnowsUnit texts.new)) }
    ensures places { IfOk result (λ library. IfSome library (PlacesUnit texts.new)) }
    ensures grows { Grows texts.old texts.new }
    ensures table { IsTable texts.new }
{
    match load(alloc, LIBRARY.as_bytes(), texts) {
        Ok(library) => Ok(Some(library)),
        Err(LoadFault::Refused(_)) => Ok(None),
        Err(LoadFault::OutOfMemory) => Err(OutOfMemory),
    }
}
