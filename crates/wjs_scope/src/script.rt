//! The places of the names of a script.
ghost use Rattle.std.specs.Prelude.{IfOk};
ghost use Rattle.wjs_base.specs.Text.{Finds};
ghost use Rattle.wjs_scope.specs.Places.{IsScript, ArePlaces, arguments_text};

use crate::nesting::nest;
use crate::rows::rows;
use crate::table::Places;
use std::alloc::Global;
use wjs_base::{OutOfMemory, TextId};
use wjs_texts::Texts;
use wjs_tree::Program;

/// The code units of `arguments`.
const ARGUMENTS: [u16; 9] = [97, 114, 103, 117, 109, 101, 110, 116, 115];

/// The number of the text `arguments`, where the table of texts has it.
pub fn arguments_in(texts: &Texts) -> Option<TextId>
    ensures { Finds texts.now arguments_text result }
{
    texts.find(&ARGUMENTS)
}

/// The places of the names of a script, by the scopes around each (sections 10.1.3, 10.1.4, 10.1.8, 12.14 and 13). Each function
/// has the name `arguments`, where that text has a number.
///
/// It takes memory in proportion to the nodes, and time in proportion to them and to the names times the depth of the scopes.
pub fn places(
    alloc: Global,
    arguments: Option<TextId>,
    program: &Program,
) -> Result<Places, OutOfMemory>
    requires { IsScript program.now.nodes program.now.body }
    ensures { IfOk result (ArePlaces program.now.nodes arguments program.now.body) }
{
    let nesting = nest(alloc, arguments, &program.nodes, program.body)?;
    rows(
        alloc,
        &program.nodes,
        nesting.marks.as_slice(),
        nesting.levels.as_slice(),
    )
}
