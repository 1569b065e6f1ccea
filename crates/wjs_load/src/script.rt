//! The program that tokens spell, its nodes in order, and the places of its names.
ghost use Rattle.std.specs.Prelude.{◌≡◌, ◌+◌, length, IfOk};
ghost use Rattle.wjs_tree.specs.Trees.{Elements};
ghost use Rattle.wjs_tree.specs.Shows.{IsBody};
ghost use Rattle.wjs_scope.specs.Places.{IsScript};
ghost use Rattle.wjs_order.specs.Order.{IsNumbered};
ghost use Rattle.wjs_model.specs.Texts.{PlacesUnit};
ghost use Rattle.wjs_load.specs.Reading.{ParsedAnswers, ReadAnswers};

use crate::stopping::fault_of;
use crate::tokens::LoadFault;
use std::alloc::Global;
use wjs_base::OutOfMemory;
use wjs_model::LoadedProgram;
use wjs_order::ordered;
use wjs_parse::program;
use wjs_parse_expr::ParseFault;
use wjs_scope::{arguments_in, declared_bodies, places};
use wjs_texts::Texts;
use wjs_tree::{Program, Tok};

/// The loaded program that the tokens spell, whose names are those of the table of texts. They are refused exactly where no
/// well-formed program spells them (ECMA-262, 3rd edition, section 14): as unexpected on a line where they can't go on, and as no
/// script where no token is at fault.
pub(crate) fn read(alloc: Global, texts: &Texts, toks: Vec<Tok>) -> Result<LoadedProgram, LoadFault>
    ensures { ReadAnswers texts.now toks.items result }
{
    let program = parsed(alloc, toks)?;
    match unit_of(alloc, texts, program) {
        Ok(unit) => Ok(unit),
        Err(_) => Err(LoadFault::OutOfMemory),
    }
}

/// The program of the tokens, which are given back before its nodes are copied. Where there is none, the nodes have been given
/// back before the tokens are gone through once more.
fn parsed(alloc: Global, toks: Vec<Tok>) -> Result<Program, LoadFault>
    ensures answer { ParsedAnswers toks.items result }
    ensures last { IfOk result (λ p. length p.nodes ≡ p.body.0 + 1) }
{
    match program(alloc, toks.as_slice()) {
        Ok(program) => Ok(program),
        Err(ParseFault::NotAScript) => Err(fault_of(alloc, toks.as_slice())),
        Err(ParseFault::OutOfMemory) => Err(LoadFault::OutOfMemory),
    }
}

/// The program with its nodes in the order of its tree, the places of its names, and what its bodies declare.
fn unit_of(alloc: Global, texts: &Texts, program: Program) -> Result<LoadedProgram, OutOfMemory>
    requires { IsScript program.nodes program.body }
    ensures numbered { IfOk result (λ unit. (tree : Elements) → IsBody program.nodes tree program.body → IsNumbered unit.program.nodes tree unit.program.body) }
    ensures placed { IfOk result (PlacesUnit texts.now) }
{
    let program = ordered(alloc, program)?;
    let arguments = arguments_in(texts);
    let places = places(alloc, arguments, &program)?;
    let bodies = declared_bodies(alloc, arguments, &program)?;
    Ok(LoadedProgram {
        program,
        places,
        bodies,
    })
}
