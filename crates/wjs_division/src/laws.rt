//! Laws over the definitions of a play's input.
ghost use Rattle.wjs_division.specs.Laws.{InputOrFault, LinesGoOn, OneFault, OneInput, PartsAreTexts};

use wjs_load::one_answer;
use wjs_programs::one_program;

/// Bytes are the input of one list of programs, or none for one reason, and never both. So the answers of
/// [`load_parts`](crate::load_parts) other than `OutOfMemory` exclude each other.
pub fn one_input()
    ensures trees { OneInput }
    ensures fault { OneFault }
    ensures either { InputOrFault }
{
    one_program();
    one_answer();
}

/// The parts of a text are texts, so that none is refused as no UTF-8; and the lines of a part go on where those before it end.
pub fn parts_are_texts()
    ensures texts { PartsAreTexts }
    ensures lines { LinesGoOn }
{}
